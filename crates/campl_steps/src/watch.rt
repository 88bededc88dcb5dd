//! On which ends a process or service waits, and how many branches it has.
ghost use Rattle.std.specs.Prelude.{◌≡◌, ◌≤◌, ◌<◌, ◌^◌, ℕ, [], ◌∷◌, Some, IfOk, length, option_map, slice_get};
ghost use Rattle.campl_code.specs.Instructions.{blocks};
ghost use Rattle.campl_code.specs.Machine.{code_at};
ghost use Rattle.campl_eval.specs.View.{code_of};
ghost use Rattle.campl_cells.specs.Parts.{Proc};
ghost use Rattle.campl_cells.specs.Wants.{Drawn as Numbers, wanted};
ghost use Rattle.campl_instructions.specs.View.{view_instr};
ghost use Rattle.campl_parts.specs.Tables.{procs};
ghost use Rattle.campl_parts.specs.Views.{drawn_of, held_of, life_of};
ghost use Rattle.campl_parts.specs.Wanted.{want_of};
ghost use Rattle.campl_steps.specs.Looks.{waited_at, waited_by};
ghost use Rattle.campl_steps.specs.Watching.{IsNoBranch, ends_waited, targets_at, targets_kept, targets_of, watched};

use crate::config::Config;
use campl_instructions::Instr;
use campl_kept::Kept;
use campl_parts::{Drawn, Life, ProcPart, Running, Want};
use campl_program::Program;
use std::alloc::AllocError;

/// The numbers that nothing bears, since nothing is done with them.
pub(crate) const NONE_DRAWN: Drawn = Drawn {
    child: 0,
    channel: 0,
    channel2: 0,
};

/// The ends on which a process or service waits.
#[derive(Clone, Copy, Debug)]
pub enum Waits {
    Nothing,
    One(u32),
    Two(u32, u32),
}

impl Config {
    /// The ends on which a process or service waits, as this branch if it is a race. Whoever waits on none and has no step never has
    /// one again.
    pub fn waits(&self, program: &Program, number: u32, branch: u32) -> Waits
        ensures { (q : Proc) → procs self.now.processes.items number ≡ Some q → (d : Numbers) → ends_waited result ≡ watched (wanted (code_of program.now) d q.life branch) }
    {
        match self.processes.get(number as usize) {
            None => Waits::Nothing,
            Some(part) => waits_as(program, part, branch),
        }
    }

    /// The end on which a process or service waits as the one with this place, from 0: a race on one for each branch, in their
    /// order, and an identity on two. None where there are no more, and where it waits for nothing.
    pub fn waits_on(&self, program: &Program, number: u32, i: u32) -> Option<u32>
        ensures { (d : Numbers) → result ≡ waited_at (code_of program.now) d (procs self.now.processes.items number) i }
    {
        match self.processes.get(number as usize) {
            None => None,
            Some(part) => waited(program, part, i),
        }
    }

    /// How many branches a process or service has: those of a race, and one else.
    ///
    /// # Errors
    ///
    /// `AllocError` where there are 2^32 or more, which no memory holds.
    pub fn branches(&self, program: &Program, number: u32) -> Result<u32, AllocError>
        ensures some { IfOk result (λ count. 1 ≤ count) }
        ensures others { (q : Proc) → procs self.now.processes.items number ≡ Some q → (d : Numbers) (i : ℕ)
            → IfOk result (λ count. count ≤ i → IsNoBranch (wanted (code_of program.now) d q.life) i) }
    {
        match self.processes.get(number as usize) {
            None => Ok(1),
            Some(part) => counted(targets(program, &part.life)),
        }
    }
}

fn waits_as(program: &Program, part: &ProcPart, branch: u32) -> Waits
    ensures { (d : Numbers) → ends_waited result ≡ watched (wanted (code_of program.now) d (life_of part.now.life) branch) }
{
    waits_of(part.want(program, NONE_DRAWN, branch))
}

fn waits_of(want: Want<'_>) -> Waits
    ensures { ends_waited result ≡ watched (want_of want.entry) }
{
    match want {
        Want::Rests => Waits::Nothing,
        Want::Moves { .. } => Waits::Nothing,
        Want::Looks { end, .. } => Waits::One(end),
        Want::Links { end, second } => Waits::Two(end, second),
        Want::Hears { end, .. } => Waits::One(end),
        Want::Says { .. } => Waits::Nothing,
    }
}

fn waited(program: &Program, part: &ProcPart, i: u32) -> Option<u32>
    ensures { (d : Numbers) → result ≡ waited_by (targets_of (code_of program.now) (life_of part.now.life)) (wanted (code_of program.now) d (life_of part.now.life)) i }
{
    if targets(program, &part.life) == 0 {
        return end_at(waits_as(program, part, 0), i);
    }
    end_at(waits_as(program, part, i), 0)
}

// One of the ends on which one waits.
fn end_at(waits: Waits, i: u32) -> Option<u32>
    ensures { result ≡ slice_get (ends_waited waits) i }
{
    match waits {
        Waits::Nothing => None,
        Waits::One(end) => { if i == 0 { Some(end) } else { None } }
        Waits::Two(end, second) => one_of(end, second, i),
    }
}

fn one_of(end: u32, second: u32, i: u32) -> Option<u32>
    ensures { result ≡ slice_get (end ∷ second ∷ []) i }
{
    if i == 0 {
        return Some(end);
    }
    if i == 1 {
        return Some(second);
    }
    None
}

// The last branch that there may be, of those that have a number.
pub(crate) fn last_branch(program: &Program, life: &Life) -> u32
    ensures { (d : Numbers) (i : ℕ) → result < i → i < 2 ^ 32 → IsNoBranch (wanted (code_of program.now) d (life_of life.now)) i }
{
    let targets = targets(program, life);
    if targets > 0xffff_ffff {
        return 0xffff_ffff;
    }
    if targets == 0 {
        return 0;
    }
    targets as u32 - 1
}

// How many branches there are to these places.
fn counted(targets: usize) -> Result<u32, AllocError>
    ensures { IfOk result (λ count. (1 ≤ count) × (targets ≤ count)) }
{
    if targets > 0xffff_ffff {
        return Err(AllocError);
    }
    if targets == 0 {
        return Ok(1);
    }
    Ok(targets as u32)
}

// How many places the race has at which a process stands; 0 where it stands at none.
fn targets(program: &Program, life: &Life) -> usize
    ensures { result ≡ length (targets_of (code_of program.now) (life_of life.now)) }
{
    match life {
        Life::Ended => 0,
        Life::Runs(running) => targets_kept(program, running.as_ref()),
        Life::Serves(_, _) => 0,
    }
}

fn targets_kept(program: &Program, running: &Running) -> usize
    ensures { result ≡ length (targets_kept (code_of program.now) (held_of running.now).block (held_of running.now).kept) }
{
    match &running.kept {
        Kept::Values { at, .. } => targets_at(program, running.block, *at),
        Kept::AtCall(_) => 0,
        Kept::Broken => 0,
    }
}

fn targets_at(program: &Program, block: usize, at: usize) -> usize
    ensures { result ≡ length (targets_at (code_at (slice_get (blocks (code_of program.now)) block) at)) }
{
    match program.instr(block, at) {
        None => 0,
        Some(instr) => targets_of(instr),
    }
}

fn targets_of(instr: &Instr) -> usize
    ensures { result ≡ length (targets_at (Some (view_instr instr.now))) }
{
    match instr {
        Instr::Race(targets) => targets.len(),
        _ => 0,
    }
}
