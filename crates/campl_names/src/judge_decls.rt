//! Whether the names in declarations are known and of their kind.
ghost use Rattle.std.specs.Prelude.{◌≡◌, ◌++◌, [], None, IfOk, OnOk, map};
ghost use Rattle.campl_tree.specs.Plain.Decl as plain;
ghost use Rattle.campl_tree.specs.View.{view_seq, seq_types, view_chan, view_decl, view_data, view_data_constructor, view_protocol, view_coprotocol, view_function, view_function_row, view_process};
ghost use Rattle.campl_names.specs.Judges.{Judges};
ghost use Rattle.campl_types.specs.Known.{each, outside, in_seq, in_chan, in_patterns, in_expr, in_decl};
ghost use Rattle.campl_types.specs.Patterns.{bound_in_all, bound_by_all};
ghost use Rattle.campl_names.specs.Scope.{heading, with_names};
ghost use Rattle.campl_types.specs.Substitution.{variables_of, variables_of_all};
ghost use Rattle.campl_types.specs.World.{names_of, variables_of_list};

use crate::judge_bodies::{bind, judge_body};
use crate::judge_exprs::{bind_patterns, judge_expr, judge_patterns};
use crate::judge_types::{judge_each_chan, judge_each_seq, judge_seq};
use crate::lines::ChannelLine;
use crate::name_set::NameSet;
use crate::world::World;
use campl_tree::{
    Binder, CoprotocolDecl, DataConstructor, DataDecl, Decl, FunctionDecl, FunctionRow, Ident,
    Name, ProcessDecl, ProtocolDecl, SeqType,
};
use campl_types::NameFault;
use std::alloc::{AllocError, Global};

/// Judges declarations in order.
#[tactic(auto, using(crate::proofs::Judged::judged_all))]
pub(crate) fn judge_decls(
    alloc: Global,
    world: &World,
    declarations: &[Decl],
) -> Result<(), NameFault>
    ensures { Judges (each (in_decl (map view_decl world.now)) (map view_decl declarations.now)) result }
{
    for declaration in declarations {
        judge_decl(alloc, world, declaration)?;
    }
    Ok(())
}

/// Judges a declaration.
fn judge_decl(alloc: Global, world: &World, declaration: &Decl) -> Result<(), NameFault>
    ensures { Judges (in_decl (map view_decl world.now) (view_decl declaration.now)) result }
{
    match declaration {
        Decl::Data(d) => judge_data(alloc, world, d),
        Decl::Protocol(d) => judge_protocol(alloc, world, d),
        Decl::Coprotocol(d) => judge_coprotocol(alloc, world, d),
        Decl::Function(d) => judge_function(alloc, world, d),
        Decl::Process(d) => judge_process(alloc, world, d),
    }
}

/// The set of the parameters of a heading.
fn parameter_set(alloc: Global, parameters: &[Ident]) -> Result<NameSet, AllocError>
    ensures { IfOk result (λ s. s ≡ with_names [] (names_of parameters.now)) }
{
    let mut set = NameSet::new(alloc);
    for parameter in parameters {
        set.add(alloc, &parameter.name)?;
    }
    Ok(set)
}

/// Judges a data type.
#[tactic(auto, using(crate::proofs::Judged::judged))]
fn judge_data(alloc: Global, world: &World, d: &DataDecl) -> Result<(), NameFault>
    ensures { Judges (in_decl (map view_decl world.now) (plain.Data (view_data d.now))) result }
{
    judge_data_parts(
        alloc,
        world,
        d.parameters.as_slice(),
        d.constructors.as_slice(),
    )
}

/// Judges the lines of a data type with these parameters.
#[tactic(auto, using(crate::proofs::Judged::judged))]
fn judge_data_parts(
    alloc: Global,
    world: &World,
    parameters: &[Ident],
    lines: &[DataConstructor],
) -> Result<(), NameFault>
    ensures { Judges (each (λ (n : plain.DataConstructor). each (in_seq (map view_decl world.now) (heading (names_of parameters.now) None)) n.parts) (map view_data_constructor lines.now)) result }
{
    let set = parameter_set(alloc, parameters)?;
    judge_data_lines(alloc, world, &set, lines)
}

/// Judges the lines of a data type.
#[tactic(auto, using(crate::proofs::Judged::judged_all))]
fn judge_data_lines(
    alloc: Global,
    world: &World,
    parameters: &NameSet,
    lines: &[DataConstructor],
) -> Result<(), NameFault>
    ensures { Judges (each (λ (n : plain.DataConstructor). each (in_seq (map view_decl world.now) (heading parameters.now None)) n.parts) (map view_data_constructor lines.now)) result }
{
    for line in lines {
        judge_each_seq(alloc, world, parameters, line.parts.as_slice())?;
    }
    Ok(())
}

/// Judges a protocol.
#[tactic(auto, using(crate::proofs::Judged::judged))]
fn judge_protocol(alloc: Global, world: &World, d: &ProtocolDecl) -> Result<(), NameFault>
    ensures { Judges (in_decl (map view_decl world.now) (plain.Protocol (view_protocol d.now))) result }
{
    let set = parameter_set(alloc, d.parameters.as_slice())?;
    judge_lines(alloc, world, &set, &d.local.name, d.constructors.as_slice())
}

/// Judges a coprotocol.
#[tactic(auto, using(crate::proofs::Judged::judged))]
fn judge_coprotocol(alloc: Global, world: &World, d: &CoprotocolDecl) -> Result<(), NameFault>
    ensures { Judges (in_decl (map view_decl world.now) (plain.Coprotocol (view_coprotocol d.now))) result }
{
    let set = parameter_set(alloc, d.parameters.as_slice())?;
    judge_lines(alloc, world, &set, &d.local.name, d.constructors.as_slice())
}

/// Judges the lines of a protocol or coprotocol.
#[tactic(auto, using(crate::proofs::Judged::judged_all))]
fn judge_lines<L: ChannelLine>(
    alloc: Global,
    world: &World,
    parameters: &NameSet,
    own: &Name,
    lines: &[L],
) -> Result<(), NameFault>
    ensures { Judges (each (L.faults (map view_decl world.now) parameters.now own.now) lines.now) result }
{
    for line in lines {
        line.judge(alloc, world, parameters, own)?;
    }
    Ok(())
}

/// Puts the type variables of a type into a set.
#[cycle(variables)]
#[tactic(auto, using(crate::proofs::Judging::variables))]
fn add_variables(alloc: Global, set: &mut NameSet, t: &SeqType) -> Result<(), AllocError>
    ensures { OnOk result (set.new ≡ with_names set.old (variables_of (view_seq t.now))) }
{
    match t {
        SeqType::Int => Ok(()),
        SeqType::Char => Ok(()),
        SeqType::Bool => Ok(()),
        SeqType::List(t) => add_variables(alloc, set, t.get()),
        SeqType::Pair(t, u) => {
            add_variables(alloc, set, t.get())?;
            add_variables(alloc, set, u.get())
        }
        SeqType::Named(_, _, ts) => add_all_variables(alloc, set, ts.as_slice()),
        SeqType::Variable(_, x) => set.add(alloc, x),
    }
}

/// Puts the type variables of types into a set.
#[cycle(variables)]
#[tactic(auto, using(crate::proofs::Judging::variables))]
fn add_all_variables(alloc: Global, set: &mut NameSet, ts: &[SeqType]) -> Result<(), AllocError>
    ensures { OnOk result (set.new ≡ with_names set.old (variables_of_all (seq_types (map view_seq ts.now)))) }
{
    for t in ts {
        add_variables(alloc, set, t)?;
    }
    Ok(())
}

/// The set of the type variables of a function's types, which are its type parameters.
#[tactic(auto, using(crate::proofs::Heads::type_set))]
fn type_set(alloc: Global, d: &FunctionDecl) -> Result<NameSet, AllocError>
    ensures { IfOk result (λ s. s ≡ with_names [] (variables_of_list (map view_seq d.now.parameters) ++ variables_of (view_seq d.now.result))) }
{
    let mut set = NameSet::new(alloc);
    add_all_variables(alloc, &mut set, d.parameters.as_slice())?;
    add_variables(alloc, &mut set, &d.result)?;
    Ok(set)
}

/// Judges a function.
#[tactic(auto, using(crate::proofs::Judged::judged))]
fn judge_function(alloc: Global, world: &World, d: &FunctionDecl) -> Result<(), NameFault>
    ensures { Judges (in_decl (map view_decl world.now) (plain.Function (view_function d.now))) result }
{
    let parameters = type_set(alloc, d)?;
    judge_function_parts(alloc, world, &parameters, d)
}

/// Judges the types and rows of a function with these type parameters.
#[tactic(auto, using(crate::proofs::Judged::judged))]
fn judge_function_parts(
    alloc: Global,
    world: &World,
    parameters: &NameSet,
    d: &FunctionDecl,
) -> Result<(), NameFault>
    ensures { Judges (each (in_seq (map view_decl world.now) (heading parameters.now None)) (map view_seq d.now.parameters) ++ in_seq (map view_decl world.now) (heading parameters.now None) (view_seq d.now.result) ++ each (λ (r : plain.FunctionRow). in_patterns (map view_decl world.now) r.patterns ++ in_expr (map view_decl world.now) (bound_in_all r.patterns) r.value) (map view_function_row d.now.rows)) result }
{
    judge_each_seq(alloc, world, parameters, d.parameters.as_slice())?;
    judge_seq(alloc, world, parameters, None, &d.result)?;
    judge_function_rows(alloc, world, d.rows.as_slice())
}

/// Judges the rows of a function.
#[tactic(auto, using(crate::proofs::Judged::judged_all))]
fn judge_function_rows(alloc: Global, world: &World, rows: &[FunctionRow]) -> Result<(), NameFault>
    ensures { Judges (each (λ (r : plain.FunctionRow). in_patterns (map view_decl world.now) r.patterns ++ in_expr (map view_decl world.now) (bound_in_all r.patterns) r.value) (map view_function_row rows.now)) result }
{
    for row in rows {
        judge_function_row(alloc, world, row)?;
    }
    Ok(())
}

/// Judges a row of a function, whose variables are those of its patterns.
#[tactic(auto, using(crate::proofs::Judging::function_rows))]
fn judge_function_row(alloc: Global, world: &World, row: &FunctionRow) -> Result<(), NameFault>
    ensures { Judges (in_patterns (map view_decl world.now) (view_function_row row.now).patterns ++ in_expr (map view_decl world.now) (bound_in_all (view_function_row row.now).patterns) (view_function_row row.now).value) result }
{
    judge_patterns(alloc, world, row.patterns.as_slice())?;
    let mut scope = NameSet::new(alloc);
    bind_patterns(alloc, &mut scope, row.patterns.as_slice())?;
    judge_expr(alloc, world, &mut scope, &row.value)
}

/// Judges a process.
#[tactic(auto, using(crate::proofs::Judging::processes))]
fn judge_process(alloc: Global, world: &World, d: &ProcessDecl) -> Result<(), NameFault>
    ensures { Judges (in_decl (map view_decl world.now) (plain.Process (view_process d.now))) result }
{
    judge_process_types(alloc, world, d)?;
    let mut scope = bound_set(alloc, d.row.variables.as_slice())?;
    judge_body(alloc, world, &mut scope, &d.row.body)
}

/// Judges the types of a process, where no type variable is known.
#[tactic(auto, using(crate::proofs::Judged::judged))]
fn judge_process_types(alloc: Global, world: &World, d: &ProcessDecl) -> Result<(), NameFault>
    ensures { Judges (each (in_seq (map view_decl world.now) outside) (map view_seq d.now.parameters) ++ each (in_chan (map view_decl world.now) outside) (map view_chan d.now.inputs) ++ each (in_chan (map view_decl world.now) outside) (map view_chan d.now.outputs)) result }
{
    let none = NameSet::new(alloc);
    judge_types_under(alloc, world, &none, d)
}

/// Judges the types of a process under these type variables.
#[tactic(auto, using(crate::proofs::Judged::judged))]
fn judge_types_under(
    alloc: Global,
    world: &World,
    parameters: &NameSet,
    d: &ProcessDecl,
) -> Result<(), NameFault>
    ensures { Judges (each (in_seq (map view_decl world.now) (heading parameters.now None)) (map view_seq d.now.parameters) ++ each (in_chan (map view_decl world.now) (heading parameters.now None)) (map view_chan d.now.inputs) ++ each (in_chan (map view_decl world.now) (heading parameters.now None)) (map view_chan d.now.outputs)) result }
{
    judge_each_seq(alloc, world, parameters, d.parameters.as_slice())?;
    judge_each_chan(alloc, world, parameters, d.inputs.as_slice())?;
    judge_each_chan(alloc, world, parameters, d.outputs.as_slice())
}

/// The set of the variables that binders bind.
fn bound_set(alloc: Global, binders: &[Binder]) -> Result<NameSet, AllocError>
    ensures { IfOk result (λ s. s ≡ with_names [] (bound_by_all binders.now)) }
{
    let mut set = NameSet::new(alloc);
    bind_all(alloc, &mut set, binders)?;
    Ok(set)
}

/// Puts what binders bind into scope.
#[tactic(auto, using(crate::proofs::Judging::variables))]
fn bind_all(alloc: Global, scope: &mut NameSet, binders: &[Binder]) -> Result<(), AllocError>
    ensures { OnOk result (scope.new ≡ with_names scope.old (bound_by_all binders.now)) }
{
    for binder in binders {
        bind(alloc, scope, binder)?;
    }
    Ok(())
}
