//! Code that can be run.
ghost use Rattle.std.specs.Prelude.{◌≡◌, ◌<◌, ◌+◌, ◌^◌, true, IfOk, IfSome, MatchResult, option_map, slice_get};
ghost use Rattle.std.specs.Option.{option_copied};
ghost use Rattle.campl_code.specs.Frames.{frame_size};
ghost use Rattle.campl_code.specs.Forward.{IsForward};
ghost use Rattle.campl_code.specs.Instructions.{blocks};
ghost use Rattle.campl_code.specs.Machine.{code_at};
ghost use Rattle.campl_instructions.specs.View.{view_instr, view_block, view_code};
ghost use Rattle.campl_program.specs.Onward.{blocks_onward, sizes_of};
ghost use Rattle.campl_program.specs.Faults.{Tells};

use crate::forward::are_onward;
use crate::sizes::frame_sizes;
use campl_instructions::{Block, Instr, RawCode};
use sqlite_items::{Items, at};
use std::alloc::{AllocError, Global};

/// Code each jump of which leads onward, with the sizes of the frames of its functions and processes.
#[derive(Drop)]
pub struct Program {
    raw: RawCode,
    sizes: Items<usize>,
    process_sizes: Items<usize>,
    ghost onward: { blocks_onward (blocks (view_code raw)) ≡ true },
    ghost sized: { sizes ≡ sizes_of (view_code raw) (view_code raw).functions },
    ghost processes_sized: { process_sizes ≡ sizes_of (view_code raw) (view_code raw).processes },
}

/// Why code is no program.
#[derive(Clone, Copy, Debug, PartialEq, Eq)]
pub enum ProgramFault {
    /// A jump doesn't lead onward.
    LeadsBack,
    OutOfMemory,
}

impl Program {
    /// The code as a program. The error tells that one of its jumps doesn't lead onward, or that memory is out, and drops the
    /// code.
    pub fn new(alloc: Global, raw: RawCode) -> Result<Program, ProgramFault>
        ensures { MatchResult result (λ program. program.raw ≡ raw) (Tells (blocks_onward (blocks (view_code raw)))) }
    {
        if !leads_onward(&raw) {
            return Err(ProgramFault::LeadsBack);
        }
        match Program::sized(alloc, raw) {
            Err(_) => Err(ProgramFault::OutOfMemory),
            Ok(program) => Ok(program),
        }
    }

    /// The same of code that is known to jump onward alone. An error means that memory is out, and drops the code.
    pub fn assemble(alloc: Global, raw: RawCode) -> Result<Program, AllocError>
        requires { IsForward (view_code raw) }
        ensures { IfOk result (λ program. program.raw ≡ raw) }
    {
        Program::sized(alloc, raw)
    }

    // Code that jumps onward alone, with its sizes. An error means that memory is out.
    fn sized(alloc: Global, raw: RawCode) -> Result<Program, AllocError>
        requires { blocks_onward (blocks (view_code raw)) ≡ true }
        ensures { IfOk result (λ program. program.raw ≡ raw) }
    {
        let Ok(sizes) = frame_sizes(alloc, &raw, raw.functions.as_slice()) else {
            return Err(AllocError);
        };
        let Ok(process_sizes) = frame_sizes(alloc, &raw, raw.processes.as_slice()) else {
            return Err(AllocError);
        };
        Ok(Program {
            raw,
            sizes,
            process_sizes,
        })
    }

    /// The blocks and decisions.
    pub fn raw(&self) -> &RawCode
        ensures same { result.now ≡ self.now.raw }
        ensures onward { blocks_onward (blocks (view_code result.now)) ≡ true }
    {
        &self.raw
    }

    /// The number of parameters of the function with this number, and how many variables its frame has; None where there is no
    /// such function.
    pub fn entry(&self, n: u32) -> Option<(u32, usize)>
        ensures { result ≡ option_map (λ b. (b.variables, frame_size (view_code self.now.raw).decisions b)) (slice_get (view_code self.now.raw).functions n) }
    {
        let Some(block) = self.raw.function(n) else {
            return None;
        };
        let Some(size) = at(self.sizes.as_slice(), n as usize) else {
            return None;
        };
        Some((block.variables, *size))
    }

    /// The number of parameters of the process with this number, and how many variables its frame has; None where there is no
    /// such process.
    pub fn process_entry(&self, n: u32) -> Option<(u32, usize)>
        ensures { result ≡ option_map (λ b. (b.variables, frame_size (view_code self.now.raw).decisions b)) (slice_get (view_code self.now.raw).processes n) }
    {
        let Some(block) = self.raw.process(n) else {
            return None;
        };
        let Some(size) = at(self.process_sizes.as_slice(), n as usize) else {
            return None;
        };
        Some((block.variables, *size))
    }

    /// The instruction at this place of a block, where there is one. Functions are numbered first, then processes.
    #[inline]
    pub fn instr(&self, block: usize, place: usize) -> Option<&Instr>
        ensures value { option_map view_instr (option_copied result) ≡ code_at (slice_get (blocks (view_code self.now.raw)) block) place }
        ensures room { IfSome result (λ _. place + 1 < 2 ^ 64) }
    {
        match self.block(block) {
            None => None,
            Some(block) => at(block.code.as_slice(), place),
        }
    }

    /// The block with this number, where there is one. Functions are numbered first, then processes.
    #[inline]
    pub fn block(&self, n: usize) -> Option<&Block>
        ensures { option_map view_block (option_copied result) ≡ slice_get (blocks (view_code self.now.raw)) n }
    {
        let functions = self.raw.functions.as_slice();
        if n < functions.len() {
            return at(functions, n);
        }
        at(self.raw.processes.as_slice(), n - functions.len())
    }
}

fn leads_onward(code: &RawCode) -> bool
    ensures { result ≡ blocks_onward (blocks (view_code code.now)) }
{
    are_onward(code.functions.as_slice()) && are_onward(code.processes.as_slice())
}
