//! How many variables frames have.
ghost use Rattle.std.specs.Prelude.{◌≡◌, suc, IfOk, option_map, map};
ghost use Rattle.std.specs.Option.{option_copied};
ghost use Rattle.campl_code.specs.Frames as frame;
ghost use Rattle.campl_instructions.specs.View.{view_instr, view_block, view_decision, view_code};
ghost use Rattle.campl_program.specs.Onward.{sizes_of};

use campl_instructions::{Block, Decision, Instr, RawCode};
use sqlite_items::Items;
use std::alloc::{AllocError, Global};

/// The size of the frame of each of these blocks. An error means that memory is out.
pub(crate) fn frame_sizes(
    alloc: Global,
    code: &RawCode,
    blocks: &[Block],
) -> Result<Items<usize>, AllocError>
    ensures { IfOk result (λ sizes. sizes ≡ sizes_of (view_code code.now) (map view_block blocks.now)) }
{
    let mut sizes = Items::new(alloc);
    for block in blocks {
        sizes.push(frame_size(code, block))?;
    }
    Ok(sizes)
}

fn frame_size(code: &RawCode, block: &Block) -> usize
    ensures { result ≡ frame.frame_size (view_code code.now).decisions (view_block block.now) }
{
    (block.variables as usize).max(named_in(code, block.code.as_slice()))
}

// One more than the greatest number of a variable that one of these instructions names.
fn named_in(code: &RawCode, block: &[Instr]) -> usize
    ensures { result ≡ frame.named_in (view_code code.now).decisions (map view_instr block.now) }
{
    let mut most = 0;
    for x in block {
        most = named(code, x).max(most);
    }
    most
}

fn named(code: &RawCode, x: &Instr) -> usize
    ensures { result ≡ frame.named (view_code code.now).decisions (view_instr x.now) }
{
    match x {
        Instr::Load(n) => following(*n),
        Instr::Get(_, n) => following(*n),
        Instr::Match(m, first, _) => reach(*first, code.decision(*m)),
        Instr::Case(m, first, _) => reach(*first, code.decision(*m)),
        _ => 0,
    }
}

fn following(n: u32) -> usize
    ensures { result ≡ suc n }
{
    n as usize + 1
}

// One more than the greatest number that a row sets.
fn reach(first: u32, decision: Option<&Decision>) -> usize
    ensures { result ≡ frame.reach first (option_map view_decision (option_copied decision.entry)) }
{
    match decision {
        None => following(first),
        Some(decision) => {
            following(first).max(first as usize + greatest(decision.bound.as_slice()) as usize)
        }
    }
}

fn greatest(numbers: &[u32]) -> u32
    ensures { result ≡ frame.greatest numbers.now }
{
    let mut most = 0;
    for n in numbers {
        most = (*n).max(most);
    }
    most
}
