//! Blocks, and the code of a source.
ghost use Rattle.std.specs.Prelude.{◌≡◌, option_map, slice_get};
ghost use Rattle.std.specs.Option.{option_copied};
ghost use Rattle.campl_instructions.specs.View.{view_block, view_code, view_decision};

use crate::{Decision, Instr};
use campl_tree::Name;
use sqlite_items::{Items, at};

/// A function or a process. Its parameters are its first variables; the inputs and then the outputs are its first channels.
#[derive(Drop)]
pub struct Block {
    pub name: Name,
    /// The number of parameters.
    pub variables: u32,
    /// The number of inputs, which is 0 for a function.
    pub inputs: u32,
    /// The number of outputs, which is 0 for a function.
    pub outputs: u32,
    pub code: Items<Instr>,
}

/// The blocks and decisions of a source, of which nothing is known.
#[derive(Drop)]
pub struct RawCode {
    pub functions: Items<Block>,
    pub processes: Items<Block>,
    pub decisions: Items<Decision>,
}

impl RawCode {
    /// The function with this number, where there is one.
    #[tactic(auto, using(crate::proofs::Views::views))]
    pub fn function(&self, n: u32) -> Option<&Block>
        ensures { option_map view_block (option_copied result) ≡ slice_get (view_code self.now).functions n }
    {
        at(self.functions.as_slice(), n as usize)
    }

    /// The process with this number, where there is one. Processes have numbers of their own.
    #[tactic(auto, using(crate::proofs::Views::views))]
    pub fn process(&self, n: u32) -> Option<&Block>
        ensures { option_map view_block (option_copied result) ≡ slice_get (view_code self.now).processes n }
    {
        at(self.processes.as_slice(), n as usize)
    }

    /// The decision with this number, where there is one.
    #[tactic(auto, using(crate::proofs::Views::views))]
    pub fn decision(&self, n: u32) -> Option<&Decision>
        ensures { option_map view_decision (option_copied result) ≡ slice_get (view_code self.now).decisions n }
    {
        at(self.decisions.as_slice(), n as usize)
    }
}
