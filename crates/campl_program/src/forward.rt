//! Whether jumps lead onward.
ghost use Rattle.std.specs.Prelude.{◌≡◌, map};
ghost use Rattle.campl_instructions.specs.View.{view_instr, view_block};
ghost use Rattle.campl_program.specs.Onward.{all_above, jumps_onward, all_onward, blocks_onward};

use campl_instructions::{Block, Instr};

/// Whether each jump within these blocks leads onward.
pub(crate) fn are_onward(blocks: &[Block]) -> bool
    ensures { result ≡ blocks_onward (map view_block blocks.now) }
{
    for block in blocks {
        if !is_onward(block.code.as_slice()) {
            return false;
        }
    }
    true
}

fn is_onward(code: &[Instr]) -> bool
    ensures { result ≡ all_onward 0 (map view_instr code.now) }
{
    for (at, x) in code.iter().enumerate() {
        if !leads_onward(at, x) {
            return false;
        }
    }
    true
}

fn leads_onward(at: usize, x: &Instr) -> bool
    ensures { result ≡ jumps_onward at (view_instr x.now) }
{
    match x {
        Instr::Jump(to) => at < *to as usize,
        Instr::Unless(to) => at < *to as usize,
        Instr::Match(_, _, places) => are_above(at, places.as_slice()),
        _ => true,
    }
}

fn are_above(at: usize, places: &[u32]) -> bool
    ensures { result ≡ all_above at places.now }
{
    for to in places {
        if at >= *to as usize {
            return false;
        }
    }
    true
}
