//! Matches at the front of a function.
ghost use Rattle.std.specs.Prelude.{◌≡◌, ◌≤◌, ◌+◌, ◌++◌, true, Some, IfSome, length, reverse, take, slice_get};
ghost use Rattle.campl_code.specs.Instructions.{blocks};
ghost use Rattle.campl_code.specs.Instructions as plain;
ghost use Rattle.campl_instructions.specs.View.{view_block, view_decision};
ghost use Rattle.campl_eval.specs.Leaps.{Comes, Within, Passes};
ghost use Rattle.campl_eval.specs.View.{code_of, seen};

use crate::Frame;
use crate::leaps::instr_at;
use campl_instructions::{Block, Decision, Head, Instr, Node};
use campl_operands::Variables;
use campl_program::Program;
use sqlite_items::at as item_at;

impl Frame {
    // Passes a match at the front of the block that changes no variable, with the loads of its values.
    pub(crate) fn pass(&mut self, program: &Program, block: &Block)
        requires { slice_get (blocks (code_of program.now)) self.old.block ≡ Some (view_block block.now) }
        ensures same { self.new.block ≡ self.old.block }
        ensures comes { Comes (code_of program.now) (seen self.old) (seen self.new) }
    {
        if self.at != 0 {
            return;
        }
        let n = self.loads(block);
        let Some(place) = self.at.checked_add(n) else {
            return;
        };
        let Some(Instr::Match(d, first, places)) = instr_at(block, place) else {
            return;
        };
        let Some(decision) = program.raw().decision(*d) else {
            return;
        };
        if let Some(to) = passes(decision, &self.variables, n, *first, places.as_slice()) {
            self.at = to;
        }
    }

    // How many of the variables the instructions at the frame's place load, from the first on.
    #[inline]
    fn loads(&self, block: &Block) -> usize
        ensures there { result ≤ length self.now.variables }
        ensures within { Within (view_block block.now) (seen self.now) (record { block = self.now.block; at = self.now.at + result; vars = self.now.variables; stack = reverse (take result self.now.variables) ++ self.now.operands }) }
    {
        for i in 0..self.variables.len() {
            if !self.loads_next(block, i) {
                return i;
            }
        }
        self.variables.len()
    }

    #[inline]
    fn loads_next(&self, block: &Block, i: usize) -> bool
        ensures { result ≡ true → slice_get (view_block block.now).code (self.now.at + i) ≡ Some (plain.Load i) }
    {
        let Some(place) = self.at.checked_add(i) else {
            return false;
        };
        match instr_at(block, place) {
            Some(Instr::Load(v)) => *v as usize == i,
            _ => false,
        }
    }
}

// The place to which a match of the first n variables leads, where it changes none. None says nothing.
#[inline]
fn passes(
    decision: &Decision,
    variables: &Variables,
    n: usize,
    first: u32,
    places: &[u32],
) -> Option<usize>
    ensures { IfSome result (Passes (view_decision decision.now) variables.now n first places.now) }
{
    if takes_apart(decision) {
        return None;
    }
    if decision.width as usize != n {
        return None;
    }
    let Some(values) = variables.first(n) else {
        return None;
    };
    let Some((row, spots)) = decision.find(values) else {
        return None;
    };
    if !variables.stay(n, first, spots) {
        return None;
    }
    match item_at(places, row as usize) {
        None => None,
        Some(to) => Some(*to as usize),
    }
}

// Whether the decision takes lists or pairs apart, so that most of its rows set variables.
#[inline]
fn takes_apart(decision: &Decision) -> bool {
    match decision.nodes.as_slice().first() {
        Some(Node::Test(_, head, _, _)) => matches!(head, Head::Nil | Head::Cell | Head::Pair),
        _ => false,
    }
}
