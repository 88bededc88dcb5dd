//! The first instruction that breaks a rule.
ghost use Rattle.std.specs.Prelude.{◌≡◌, ◌+◌, ◌<◌, Some, None, IfOk, MatchResult, length, map, option_map};
ghost use Rattle.campl_code.specs.Rules as rule;
ghost use Rattle.campl_code.specs.Rules.{fits_height, height_at, ways_agree, keeps_rules};
ghost use Rattle.campl_instructions.specs.View.{view_instr, view_block, view_code};
ghost use Rattle.campl_rules.specs.Judged.{code_of, block_of, IsJudged, AreNamed};
ghost use Rattle.campl_rules.specs.Given.{IsAgreement};
ghost use Rattle.campl_rules.specs.Faults.{Tells, first_block};

use crate::agreement::agreement;
use crate::heights::{Height, heights_of};
use crate::judged::Judged;
use crate::rows::named_rows;
use crate::stack::has_operands;
use crate::ways::is_sound;
use campl_instructions::{Block, Instr, RawCode};
use sqlite_items::at;
use std::alloc::{AllocError, Global};

/// Why code isn't valid.
#[derive(Clone, Copy, Debug, PartialEq, Eq)]
pub enum CodeFault {
    /// The instruction at this place of this block breaks a rule, and none before it does. Functions are numbered first, then
    /// processes. A block without instructions is bad at place 0.
    Bad { block: usize, at: usize },
    OutOfMemory,
}

/// Finds that no instruction breaks a rule. The error tells the first one that does, or that memory is out.
pub fn first_fault(alloc: Global, code: &RawCode) -> Result<(), CodeFault>
    ensures { MatchResult result (λ _. rule.first_fault (view_code code.now) ≡ None) (Tells (rule.first_fault (view_code code.now))) }
{
    match find_fault(alloc, code) {
        Err(_) => Err(CodeFault::OutOfMemory),
        Ok(None) => Ok(()),
        Ok(Some((block, at))) => Err(CodeFault::Bad { block, at }),
    }
}

// The block and the place of the first instruction that breaks a rule.
fn find_fault(alloc: Global, code: &RawCode) -> Result<Option<(usize, usize)>, AllocError>
    ensures { IfOk result (λ fault. fault ≡ rule.first_fault (view_code code.now)) }
{
    let named = named_rows(alloc, code.decisions.as_slice())?;
    let named = named.as_slice();
    match blocks_fault(alloc, code, named, false, code.functions.as_slice())? {
        Some(fault) => Ok(Some(fault)),
        None => {
            let fault = blocks_fault(alloc, code, named, true, code.processes.as_slice())?;
            behind(code.functions.len(), fault)
        }
    }
}

// The same block, numbered behind so many others. The error comes only where its number is above the greatest usize.
fn behind(
    blocks: usize,
    fault: Option<(usize, usize)>,
) -> Result<Option<(usize, usize)>, AllocError>
    ensures { IfOk result (λ f. f ≡ option_map (λ p. (blocks + p.0, p.1)) fault) }
{
    match fault {
        None => Ok(None),
        Some((block, at)) => match blocks.checked_add(block) {
            None => Err(AllocError),
            Some(block) => Ok(Some((block, at))),
        },
    }
}

// The same of blocks of one kind, numbered from 0.
fn blocks_fault(
    alloc: Global,
    code: &RawCode,
    named: &[bool],
    in_process: bool,
    blocks: &[Block],
) -> Result<Option<(usize, usize)>, AllocError>
    requires { AreNamed code.now named.now }
    ensures { IfOk result (λ fault. fault ≡ first_block (view_code code.now) in_process 0 (map view_block blocks.now)) }
{
    for (number, block) in blocks.iter().enumerate() {
        if let Some(at) = block_fault(alloc, code, named, in_process, block.code.as_slice())? {
            return Ok(Some((number, at)));
        }
    }
    Ok(None)
}

fn block_fault(
    alloc: Global,
    code: &RawCode,
    named: &[bool],
    in_process: bool,
    block: &[Instr],
) -> Result<Option<usize>, AllocError>
    requires { AreNamed code.now named.now }
    ensures { IfOk result (λ fault. fault ≡ rule.block_fault (view_code code.now) in_process (map view_instr block.now)) }
{
    if block.is_empty() {
        return Ok(Some(0));
    }
    let judged = Judged {
        code,
        named,
        in_process,
        block,
    };
    let heights = heights_of(alloc, &judged)?;
    let agrees = agreement(alloc, &judged, heights.as_slice())?;
    Ok(first_bad(&judged, heights.as_slice(), agrees.as_slice()))
}

// The place of the first instruction that breaks a rule.
fn first_bad(judged: &Judged<'_>, heights: &[Height], agrees: &[bool]) -> Option<usize>
    requires judged { IsJudged judged.now }
    requires agrees { IsAgreement (code_of judged.now) judged.now.in_process (block_of judged.now) heights.now agrees.now }
    ensures { result ≡ rule.first_bad (code_of judged.now) judged.now.in_process (block_of judged.now) heights.now 0 (block_of judged.now) }
{
    for (at, x) in judged.block.iter().enumerate() {
        if !keeps_rules(judged, heights, agrees, at, x) {
            return Some(at);
        }
    }
    None
}

fn keeps_rules(
    judged: &Judged<'_>,
    heights: &[Height],
    agrees: &[bool],
    at: usize,
    x: &Instr,
) -> bool
    requires judged { IsJudged judged.now }
    requires agrees { IsAgreement (code_of judged.now) judged.now.in_process (block_of judged.now) heights.now agrees.now }
    requires within { at < length (block_of judged.now) }
    ensures { result ≡ keeps_rules (code_of judged.now) judged.now.in_process (block_of judged.now) heights.now at (view_instr x.now) }
{
    is_sound(judged, at, x)
        && fits_height(judged.code, heights, at, x)
        && agrees_at(judged, heights, agrees, at)
}

fn fits_height(code: &RawCode, heights: &[Height], at: usize, x: &Instr) -> bool
    ensures { result ≡ fits_height (view_code code.now) (view_instr x.now) (height_at heights.now at) }
{
    match heights.get(at) {
        Some(Some((height, _))) => has_operands(code, x, *height),
        _ => true,
    }
}

fn agrees_at(judged: &Judged<'_>, heights: &[Height], agrees: &[bool], place: usize) -> bool
    requires agrees { IsAgreement (code_of judged.now) judged.now.in_process (block_of judged.now) heights.now agrees.now }
    requires within { place < length (block_of judged.now) }
    ensures { result ≡ ways_agree (code_of judged.now) judged.now.in_process (block_of judged.now) 0 (block_of judged.now) heights.now place (height_at heights.now place) }
{
    match at(agrees, place) {
        None => true,
        Some(agrees) => *agrees,
    }
}
