//! What is made of bodies so far.
ghost use Rattle.std.specs.Prelude.{◌≡◌, ◌++◌, [], ◌∷◌, IfOk, OnOk, length, map};
ghost use Rattle.campl_tree.specs.View.{view_expr, exprs, view_pattern, view_case_row, case_rows, view_decl};
ghost use Rattle.campl_types.specs.Linear.{body_rows};
ghost use Rattle.campl_code.specs.Compiled.{decision_for};
ghost use Rattle.campl_instructions.specs.View.{view_instr, view_decision};
ghost use Rattle.campl_gen_exprs.specs.View.{view_emitter};
ghost use Rattle.campl_gen_bodies.specs.Making.{pushed, patched, valued, all_valued, received, entered, left_at};
ghost use Rattle.campl_gen_bodies.specs.Commands.{decision_put};
ghost use Rattle.campl_gen_bodies.specs.View.{view_making};

use crate::known::Known;
use campl_gen_exprs::{Emitter, bind_pattern, emit, emit_all};
use campl_gen_functions::{decide, decide_all, put_match};
use campl_instructions::{Decision, Instr};
use campl_tree::{Binder, CaseRow, Expr, Pattern};
use sqlite_items::Items;
use std::alloc::{AllocError, Global};

/// The code of a block so far, and all decisions so far.
#[derive(Drop)]
pub struct Making {
    pub code: Emitter,
    pub decisions: Items<Decision>,
}

impl Making {
    /// No code, behind these decisions.
    pub fn new(alloc: Global, decisions: Items<Decision>) -> Making
        ensures { result.decisions ≡ decisions }
    {
        Making {
            code: Emitter::new(alloc, 0),
            decisions,
        }
    }

    /// The decisions alone.
    pub fn into_decisions(self) -> Items<Decision>
        ensures { result ≡ self.decisions }
    {
        let Making { code, decisions } = self;
        drop(code);
        decisions
    }

    /// The place of the next instruction.
    #[tactic(auto, using(crate::proofs::Lists::lengths))]
    pub(crate) fn len(&self) -> usize
        ensures { result ≡ length (view_making self.now).emission.code }
    {
        self.code.len()
    }

    /// The place of the next instruction, as an operand. An error means that it is 2^32 or more.
    pub(crate) fn here(&self) -> Result<u32, AllocError>
        ensures { IfOk result (λ n. n ≡ length (view_making self.now).emission.code) }
    {
        self.code.here()
    }

    /// Appends an instruction.
    pub(crate) fn push(&mut self, instr: Instr) -> Result<(), AllocError>
        ensures { OnOk result (view_making self.new ≡ pushed (view_instr instr ∷ []) (view_making self.old)) }
    {
        match self.code.push(instr) {
            Ok(()) => Ok(()),
            Err(error) => Err(error),
        }
    }

    /// Puts an instruction at a place, where there is one already.
    pub(crate) fn set(&mut self, at: usize, instr: Instr)
        ensures { view_making self.new ≡ patched at (view_instr instr) (view_making self.old) }
    {
        self.code.set(at, instr);
    }

    /// Appends the code of an expression, and puts its decisions behind the others.
    pub(crate) fn value(
        &mut self,
        alloc: Global,
        known: &Known<'_>,
        e: &Expr,
    ) -> Result<(), AllocError>
        ensures { OnOk result (view_making self.new ≡ valued (map view_decl known.now) (view_expr e.now) (view_making self.old)) }
    {
        emit(alloc, known.source(), &mut self.code, e, false)?;
        decide(alloc, known.world(), &mut self.decisions, e)?;
        Ok(())
    }

    /// Appends the code of expressions, and puts their decisions behind the others.
    pub(crate) fn values(
        &mut self,
        alloc: Global,
        known: &Known<'_>,
        args: &[Expr],
    ) -> Result<(), AllocError>
        ensures { OnOk result (view_making self.new ≡ all_valued (map view_decl known.now) (exprs (map view_expr args.now)) (view_making self.old)) }
    {
        emit_all(alloc, known.source(), &mut self.code, args)?;
        decide_all(alloc, known.world(), &mut self.decisions, args)?;
        Ok(())
    }

    /// Gives what comes the next variable's number.
    ///
    /// # Errors
    ///
    /// `AllocError` where memory wants, or where the next number would be 2^32.
    pub fn receive(&mut self, alloc: Global, v: &Binder) -> Result<(), AllocError>
        ensures { OnOk result (view_making self.new ≡ received v.now (view_making self.old)) }
    {
        match v {
            Binder::Variable(_, x) => match self.code.bind(alloc, x) {
                Ok(()) => Ok(()),
                Err(error) => Err(error),
            },
            Binder::Wildcard(_) => match self.code.free.checked_add(1) {
                Some(free) => {
                    self.code.free = free;
                    Ok(())
                }
                None => Err(AllocError),
            },
        }
    }

    /// Brings the variables of a pattern into scope.
    pub(crate) fn enter(&mut self, alloc: Global, p: &Pattern) -> Result<(), AllocError>
        ensures { OnOk result (view_making self.new ≡ entered (view_pattern p.now) (view_making self.old)) }
    {
        match bind_pattern(alloc, &mut self.code, p) {
            Ok(()) => Ok(()),
            Err(error) => Err(error),
        }
    }

    /// Forgets the newest variables down to so many, and their numbers from this one on.
    pub(crate) fn leave(&mut self, variables: usize, free: u32)
        ensures { view_making self.new ≡ left_at variables free (view_making self.old) }
    {
        self.code.leave(variables, free);
    }

    /// Puts the decision of rows behind the others, and appends what stands in the place of the instruction that names it.
    pub(crate) fn put_decision(
        &mut self,
        alloc: Global,
        known: &Known<'_>,
        rows: &[CaseRow],
    ) -> Result<(), AllocError>
        ensures { OnOk result (view_making self.new ≡ decision_put (map view_decl known.now) (case_rows (map view_case_row rows.now)) (view_making self.old)) }
    {
        put_rows(alloc, known, rows, &mut self.decisions)?;
        self.code.push(Instr::Nil)?;
        self.code.count_decision()?;
        Ok(())
    }
}

// Puts the decision of rows behind the others.
fn put_rows(
    alloc: Global,
    known: &Known<'_>,
    rows: &[CaseRow],
    out: &mut Items<Decision>,
) -> Result<(), AllocError>
    ensures { OnOk result (map view_decision out.new ≡ map view_decision out.old ++ decision_for (map view_decl known.now) 1 (body_rows (case_rows (map view_case_row rows.now))) ∷ []) }
{
    put_match(alloc, known.world(), out, 1, rows)
}
