//! The code that is emitted so far.
ghost use Rattle.std.specs.Prelude.{◌≡◌, ◌+◌, true, false, [], ◌∷◌, IfOk, OnOk, length, map, suc};
ghost use Rattle.campl_types.specs.Names.{found};
ghost use Rattle.campl_code.specs.Generated.{last, past, leave, conses_code, tested_code, or_zero};
ghost use Rattle.campl_code.specs.Instructions as i;
ghost use Rattle.campl_instructions.specs.View.{view_instr};
ghost use Rattle.campl_gen_exprs.specs.Emission.{Emission, appended, counted, replaced, jumping, ends_set, case_closed, all_jump, shortened, bound};
ghost use Rattle.campl_gen_exprs.specs.View.{view_emitter};

use crate::scope::Scope;
use crate::source::small;
use campl_instructions::{Instr, Operation};
use campl_tree::Name;
use sqlite_items::Items;
use std::alloc::{AllocError, Global};

/// The code of a block so far, and the numbers that come next.
#[derive(Drop)]
pub struct Emitter {
    pub code: Items<Instr>,
    /// The number of the next decision.
    pub decisions: u32,
    /// The number of the next variable.
    pub free: u32,
    /// The variables in scope.
    pub scope: Scope,
}

impl Emitter {
    /// No code, before the decision with this number.
    pub fn new(alloc: Global, decisions: u32) -> Emitter
        ensures { view_emitter result ≡ record { code = []; decisions = decisions; free = 0; numbers = [] } }
    {
        Emitter {
            code: Items::new(alloc),
            decisions,
            free: 0,
            scope: Scope::new(alloc),
        }
    }

    /// The code alone.
    pub fn into_code(self) -> Items<Instr>
        ensures { map view_instr result ≡ (view_emitter self).code }
    {
        let Emitter { code, scope, .. } = self;
        drop(scope);
        code
    }

    /// The place of the next instruction.
    #[tactic(auto, using(crate::proofs::Emitting::views))]
    pub fn len(&self) -> usize
        ensures { result ≡ length (view_emitter self.now).code }
    {
        self.code.len()
    }

    /// The place of the next instruction, as an operand. An error means that it is 2^32 or more.
    #[tactic(auto, using(crate::proofs::Emitting::views))]
    pub fn here(&self) -> Result<u32, AllocError>
        ensures { IfOk result (λ n. n ≡ length (view_emitter self.now).code) }
    {
        small(self.code.len())
    }

    /// The place that lies so far behind the next instruction's, as an operand. An error means that it is 2^32 or more.
    #[tactic(auto, using(crate::proofs::Emitting::views))]
    pub fn place(&self, more: usize) -> Result<u32, AllocError>
        ensures { IfOk result (λ n. n ≡ length (view_emitter self.now).code + more) }
    {
        match self.code.len().checked_add(more) {
            Some(n) => small(n),
            None => Err(AllocError),
        }
    }

    /// The number of a variable, or 0 where none has the name.
    pub fn number(&self, name: &Name) -> u32
        ensures { result ≡ or_zero (found name.now (view_emitter self.now).numbers) }
    {
        match self.scope.find(name) {
            Some(number) => number,
            None => 0,
        }
    }

    /// Appends an instruction.
    #[tactic(auto, using(crate::proofs::Emitting::views))]
    pub fn push(&mut self, instr: Instr) -> Result<(), AllocError>
        ensures { OnOk result (view_emitter self.new ≡ appended (view_instr instr ∷ []) (view_emitter self.old)) }
    {
        match self.code.push(instr) {
            Ok(()) => Ok(()),
            Err(error) => Err(error),
        }
    }

    /// Appends an instruction, and a return where it ends a function.
    #[tactic(auto, using(crate::proofs::Emitting::views))]
    pub fn finish(&mut self, instr: Instr, tail: bool) -> Result<(), AllocError>
        ensures { OnOk result (view_emitter self.new ≡ appended (view_instr instr ∷ last tail) (view_emitter self.old)) }
    {
        self.push(instr)?;
        if tail {
            return self.push(Instr::Return);
        }
        Ok(())
    }

    /// Appends a jump whose place isn't known yet, unless the branch before it returns.
    #[tactic(auto, using(crate::proofs::Emitting::views))]
    pub fn push_jump(&mut self, tail: bool) -> Result<(), AllocError>
        ensures { OnOk result (view_emitter self.new ≡ appended (past tail 0) (view_emitter self.old)) }
    {
        if tail {
            return Ok(());
        }
        self.push(Instr::Jump(0))
    }

    /// Appends how a value in a branch goes on: a return, or a jump.
    #[tactic(auto, using(crate::proofs::Emitting::views))]
    pub fn push_leave(&mut self, tail: bool, to: u32) -> Result<(), AllocError>
        ensures { OnOk result (view_emitter self.new ≡ appended (leave tail to ∷ []) (view_emitter self.old)) }
    {
        if tail {
            return self.push(Instr::Return);
        }
        self.push(Instr::Jump(to))
    }

    /// Appends a test, and the truth that stands where it holds; behind them is how that goes on.
    #[tactic(auto, using(crate::proofs::Emitting::views))]
    pub fn push_shortcut(&mut self) -> Result<(), AllocError>
        ensures { OnOk result (view_emitter self.new ≡ appended (i.Unless (length (view_emitter self.old).code + 3) ∷ i.Truth true ∷ []) (view_emitter self.old)) }
    {
        let no = self.place(3)?;
        self.push(Instr::Unless(no))?;
        self.push(Instr::Truth(true))
    }

    /// Appends the test of a truth, which comes out again.
    #[tactic(auto, using(crate::proofs::Emitting::views))]
    pub fn push_tested(&mut self, tail: bool) -> Result<(), AllocError>
        ensures { OnOk result (view_emitter self.new ≡ appended (tested_code (length (view_emitter self.old).code) tail) (view_emitter self.old)) }
    {
        let no = self.place(3)?;
        let end = self.place(4)?;
        self.push(Instr::Unless(no))?;
        self.push(Instr::Truth(true))?;
        self.push_leave(tail, end)?;
        self.finish(Instr::Truth(false), tail)
    }

    /// Appends a cell for each of so many elements.
    #[tactic(auto, using(crate::proofs::Emitting::views))]
    pub fn push_cells(&mut self, count: usize, tail: bool) -> Result<(), AllocError>
        ensures { OnOk result (view_emitter self.new ≡ appended (conses_code count tail) (view_emitter self.old)) }
    {
        let mut more = count;
        'cells: while more > 0 {
            self.push(Instr::Cons)?;
            more -= 1;
        }
        if tail {
            return self.push(Instr::Return);
        }
        Ok(())
    }

    /// Puts an instruction at a place, where there is one already.
    #[tactic(auto, using(crate::proofs::Emitting::views))]
    pub fn set(&mut self, at: usize, instr: Instr)
        ensures { view_emitter self.new ≡ replaced at (view_instr instr) (view_emitter self.old) }
    {
        if at < self.code.len() {
            self.code.set(at, instr);
        }
    }

    /// Puts a jump at a place, unless the branch returns.
    #[tactic(auto, using(crate::proofs::Emitting::views))]
    pub fn set_jump(&mut self, tail: bool, at: usize, to: u32)
        ensures { view_emitter self.new ≡ jumping tail at to (view_emitter self.old) }
    {
        if !tail {
            self.set(at, Instr::Jump(to));
        }
    }

    /// Puts a jump to a place at each of these.
    #[tactic(auto, using(crate::proofs::Emitting::setting))]
    fn set_all(&mut self, ends: &[usize], to: u32)
        ensures { view_emitter self.new ≡ all_jump ends.now to (view_emitter self.old) }
    {
        for i in 0..ends.len() {
            self.set(ends[i], Instr::Jump(to));
        }
    }

    /// Leads the jumps of rows to here, where they don't return.
    #[tactic(auto, using(crate::proofs::Emitting::setting))]
    fn close_rows(&mut self, tail: bool, ends: &[usize]) -> Result<(), AllocError>
        ensures { OnOk result (view_emitter self.new ≡ ends_set tail ends.now (view_emitter self.old)) }
    {
        if tail {
            return Ok(());
        }
        match self.here() {
            Ok(to) => {
                self.set_all(ends, to);
                Ok(())
            }
            Err(error) => Err(error),
        }
    }

    /// Behind the rows of a decision: writes the match before them, and the jumps behind each.
    #[tactic(auto, using(crate::proofs::Emitting::setting))]
    pub(crate) fn close_case(
        &mut self,
        tail: bool,
        at: usize,
        decision: u32,
        rows: Rows,
    ) -> Result<(), AllocError>
        ensures { OnOk result (view_emitter self.new ≡ case_closed tail at decision rows.places rows.ends (view_emitter self.old)) }
    {
        let Rows { places, ends } = rows;
        let free = self.free;
        match self.close_rows(tail, ends.as_slice()) {
            Ok(()) => {
                self.set(at, Instr::Match(decision, free, places));
                Ok(())
            }
            Err(error) => Err(error),
        }
    }

    /// One decision more.
    #[tactic(auto, using(crate::proofs::Emitting::views))]
    pub fn count_decision(&mut self) -> Result<(), AllocError>
        ensures { OnOk result (view_emitter self.new ≡ counted (view_emitter self.old)) }
    {
        match self.decisions.checked_add(1) {
            Some(n) => {
                self.decisions = n;
                Ok(())
            }
            None => Err(AllocError),
        }
    }

    /// Gives a variable the next number.
    #[tactic(auto, using(crate::proofs::Emitting::views))]
    pub fn bind(&mut self, alloc: Global, name: &Name) -> Result<(), AllocError>
        ensures { OnOk result (view_emitter self.new ≡ bound (name.now ∷ []) (view_emitter self.old)) }
    {
        match self.free.checked_add(1) {
            Some(n) => {
                self.scope.bind(alloc, name, self.free)?;
                self.free = n;
                Ok(())
            }
            None => Err(AllocError),
        }
    }

    /// Forgets the newest variables down to so many, and their numbers from this one on.
    #[tactic(auto, using(crate::proofs::Emitting::views))]
    pub fn leave(&mut self, variables: usize, free: u32)
        ensures { view_emitter self.new ≡ shortened variables free (view_emitter self.old) }
    {
        self.scope.truncate(variables);
        self.free = free;
    }
}

/// Where rows begin, and where their jumps stand.
#[derive(Drop)]
pub(crate) struct Rows {
    pub(crate) places: Items<u32>,
    pub(crate) ends: Items<usize>,
}
