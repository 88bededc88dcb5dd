//! The tables of declared names, and the judgement that none is declared twice.
ghost use Rattle.std.specs.Prelude.{◌≡◌, [], ◌++◌, OnOk, map};
ghost use Rattle.campl_tree.specs.View.{view_decl};
ghost use Rattle.campl_names.specs.Judges.{Judges};
ghost use Rattle.campl_names.specs.Tables.{names_in, line_spots, heading_spot, type_spots, constructor_spots, lower_spots, spots, again, all_again, decl_again, decls_again};

use crate::lines::Line;
use crate::name_set::NameSet;
use crate::refusing::twice;
use crate::table::Table;
use campl_tree::{Decl, Ident};
use campl_types::NameFault;
use std::alloc::Global;

/// The three spaces of declared names.
#[derive(Drop)]
pub(crate) struct Tables {
    pub(crate) types: Table,
    pub(crate) constructors: Table,
    pub(crate) lowers: Table,
}

impl Tables {
    /// No names.
    pub(crate) fn new(alloc: Global) -> Tables
        ensures types { result.types ≡ [] }
        ensures constructors { result.constructors ≡ [] }
        ensures lowers { result.lowers ≡ [] }
    {
        Tables {
            types: Table::new(alloc),
            constructors: Table::new(alloc),
            lowers: Table::new(alloc),
        }
    }

    /// Takes in the names of declarations, or refuses the first that is declared twice.
    #[tactic(auto, using(crate::proofs::Declared::taking))]
    pub(crate) fn add_all(&mut self, alloc: Global, declarations: &[Decl]) -> Result<(), NameFault>
        ensures judged { Judges (decls_again self.old.types self.old.constructors self.old.lowers 0 (map view_decl declarations.now)) result }
        ensures types { OnOk result (self.new.types ≡ self.old.types ++ spots type_spots 0 (map view_decl declarations.now)) }
        ensures constructors { OnOk result (self.new.constructors ≡ self.old.constructors ++ spots constructor_spots 0 (map view_decl declarations.now)) }
        ensures lowers { OnOk result (self.new.lowers ≡ self.old.lowers ++ spots lower_spots 0 (map view_decl declarations.now)) }
    {
        for i in 0..declarations.len() {
            self.add(alloc, i, &declarations[i])?;
        }
        Ok(())
    }

    /// Takes in a declaration's names.
    #[tactic(auto, using(crate::proofs::Declared::declaration))]
    fn add(&mut self, alloc: Global, number: usize, declaration: &Decl) -> Result<(), NameFault>
        ensures judged { Judges (decl_again self.old.types self.old.constructors self.old.lowers (view_decl declaration.now)) result }
        ensures types { OnOk result (self.new.types ≡ self.old.types ++ type_spots number (view_decl declaration.now)) }
        ensures constructors { OnOk result (self.new.constructors ≡ self.old.constructors ++ constructor_spots number (view_decl declaration.now)) }
        ensures lowers { OnOk result (self.new.lowers ≡ self.old.lowers ++ lower_spots number (view_decl declaration.now)) }
    {
        match declaration {
            Decl::Data(d) => self.add_type(
                alloc,
                number,
                &d.name,
                d.parameters.as_slice(),
                d.constructors.as_slice(),
            ),
            Decl::Protocol(d) => self.add_type(
                alloc,
                number,
                &d.name,
                d.parameters.as_slice(),
                d.constructors.as_slice(),
            ),
            Decl::Coprotocol(d) => self.add_type(
                alloc,
                number,
                &d.name,
                d.parameters.as_slice(),
                d.constructors.as_slice(),
            ),
            Decl::Function(d) => self.lowers.add(alloc, &d.name, (number, 0)),
            Decl::Process(d) => self.lowers.add(alloc, &d.name, (number, 0)),
        }
    }

    /// Takes in the name of a type and those of its lines.
    #[tactic(auto, using(crate::proofs::Judged::judged))]
    fn add_type<L: Line>(
        &mut self,
        alloc: Global,
        number: usize,
        name: &Ident,
        parameters: &[Ident],
        lines: &[L],
    ) -> Result<(), NameFault>
        ensures judged { Judges (again (names_in self.old.types) name.now ++ all_again [] parameters.now ++ all_again (names_in self.old.constructors) (map L.named lines.now)) result }
        ensures types { OnOk result (self.new.types ≡ self.old.types ++ heading_spot number name.now) }
        ensures constructors { OnOk result (self.new.constructors ≡ self.old.constructors ++ line_spots number 0 (map L.named lines.now)) }
        ensures lowers { self.new.lowers ≡ self.old.lowers }
    {
        self.types.add(alloc, name, (number, 0))?;
        judge_parameters(alloc, parameters)?;
        add_lines(&mut self.constructors, alloc, number, lines)
    }
}

/// Judges that the parameters of one heading differ.
#[tactic(auto, using(crate::proofs::Declared::parameters))]
fn judge_parameters(alloc: Global, parameters: &[Ident]) -> Result<(), NameFault>
    ensures { Judges (all_again [] parameters.now) result }
{
    let mut seen = NameSet::new(alloc);
    for parameter in parameters {
        if seen.has(&parameter.name) {
            return twice(alloc, parameter.place, &parameter.name);
        }
        seen.add(alloc, &parameter.name)?;
    }
    Ok(())
}

/// Takes in the constructors of a type, which its lines declare.
#[tactic(auto, using(crate::proofs::Declared::entering))]
fn add_lines<L: Line>(
    table: &mut Table,
    alloc: Global,
    number: usize,
    lines: &[L],
) -> Result<(), NameFault>
    ensures judged { Judges (all_again (names_in table.old) (map L.named lines.now)) result }
    ensures added { OnOk result (table.new ≡ table.old ++ line_spots number 0 (map L.named lines.now)) }
{
    for i in 0..lines.len() {
        table.add(alloc, lines[i].ident(), (number, i))?;
    }
    Ok(())
}
