//! What a turn changes in the tables.
ghost use Rattle.std.specs.Prelude.{◌≡◌, ◌<◌, ◌≤◌, ◌+◌, ◌++◌, ◌∷◌, ℕ, false, List, [], Some, length, set, vec_len, vec_capacity};
ghost use Rattle.campl_machine.specs.Names.{Who};
ghost use Rattle.campl_code.specs.Instructions.{Code};
ghost use Rattle.campl_cells.specs.Parts.{Parts};
ghost use Rattle.campl_eval.specs.View.{code_of};
ghost use Rattle.campl_order.specs.Waiting.{HasRoom, IsScheduled};
ghost use Rattle.campl_steps.specs.Configs.{changed_ends, more, parts};
ghost use Rattle.campl_steps.specs.Watching.{ends_waited};
ghost use Rattle.campl_solo.specs.Fits.{Fits, Grown, HasWaited, MayBear, flags_borne, nobody, waiting_at};

use campl_order::Schedule;
use campl_parts::Entry;
use campl_program::Program;
use campl_steps::{Changed, Config, Waits};

/// Takes back the flag of one that has no step by any of its branches, and makes it wait on the ends of each.
pub(crate) fn rest(
    schedule: &mut Schedule,
    config: &Config,
    program: &Program,
    number: u32,
    count: u32,
)
    requires scheduled { (names : ℕ → Who) × IsScheduled names schedule.old }
    requires known { number < vec_len schedule.old.order.ranks }
    requires there { number < length config.now.processes.items }
    ensures flags { schedule.new.board.flags.items ≡ set schedule.old.board.flags.items number false }
    ensures order { schedule.new.order ≡ schedule.old.order }
    ensures scheduled { (names : ℕ → Who) → IsScheduled names schedule.old → IsScheduled names schedule.new }
    ensures waited { HasWaited (code_of program.now) (parts config.now) number count schedule.old.waiting.items schedule.new.waiting.items }
{
    schedule.lower(number);
    for branch in 0..count {
        wait(schedule, number, config.waits(program, number, branch));
    }
}

// It waits on these ends.
fn wait(schedule: &mut Schedule, number: u32, waits: Waits)
    requires { number < vec_len schedule.old.order.ranks }
    ensures waiting { schedule.new.waiting.items ≡ waiting_at number (ends_waited waits) schedule.old.waiting.items }
    ensures order { schedule.new.order ≡ schedule.old.order }
    ensures board { schedule.new.board ≡ schedule.old.board }
    ensures scheduled { (names : ℕ → Who) → IsScheduled names schedule.old → IsScheduled names schedule.new }
{
    match waits {
        Waits::Nothing => {}
        Waits::One(end) => schedule.wait_on(number, end),
        Waits::Two(end, second) => {
            schedule.wait_on(number, end);
            schedule.wait_on(number, second);
        }
    }
}

/// What a step bore gets its places in the tables: the child of the parent's step with this number, and new channels.
pub(crate) fn grow(schedule: &mut Schedule, parent: u32, born: u64, entry: &Entry)
    requires room { HasRoom schedule.old }
    requires scheduled { (names : ℕ → Who) × IsScheduled names schedule.old × MayBear names parent born entry.now.child schedule.old }
    ensures { Grown parent born entry.now.child entry.now.channel entry.now.channel2 schedule.old schedule.new }
{
    bear(schedule, parent, born, entry.child);
    open(schedule, entry.channel);
    open(schedule, entry.channel2);
}

// A child, if there is one: it is flagged.
fn bear(schedule: &mut Schedule, parent: u32, born: u64, child: Option<u32>)
    requires room { HasRoom schedule.old }
    requires scheduled { (names : ℕ → Who) × IsScheduled names schedule.old × MayBear names parent born child schedule.old }
    ensures flags { schedule.new.board.flags.items ≡ flags_borne child (length schedule.old.order.ranks.items) schedule.old.board.flags.items }
    ensures waiting { schedule.new.waiting ≡ schedule.old.waiting }
    ensures ranks { length schedule.new.order.ranks.items ≡ length schedule.old.order.ranks.items + more child 1 }
    ensures scheduled { (names : ℕ → Who) → IsScheduled names schedule.old → MayBear names parent born child schedule.old → IsScheduled names schedule.new }
{
    match child {
        None => {}
        Some(_) => schedule.welcome(parent, born),
    }
}

// A channel, if there is one: nobody waits at its ends.
fn open(schedule: &mut Schedule, channel: Option<u32>)
    requires { vec_len schedule.old.waiting + 2 ≤ vec_capacity schedule.old.waiting }
    ensures waiting { schedule.new.waiting.items ≡ schedule.old.waiting.items ++ nobody channel }
    ensures order { schedule.new.order ≡ schedule.old.order }
    ensures board { schedule.new.board ≡ schedule.old.board }
    ensures room { vec_capacity schedule.new.waiting ≡ vec_capacity schedule.old.waiting }
    ensures scheduled { (names : ℕ → Who) → IsScheduled names schedule.old → IsScheduled names schedule.new }
{
    match channel {
        None => {}
        Some(_) => schedule.open(),
    }
}

/// Something has changed at these ends: who waits there may have a step.
pub(crate) fn wake_all(schedule: &mut Schedule, changed: Changed)
    requires { (names : ℕ → Who) × IsScheduled names schedule.old }
    ensures { (code : Code) (m : Parts) (who : ℕ → Who) (ps es : ℕ) → Fits code m who ps es (changed_ends changed) schedule.old → Fits code m who ps es [] schedule.new }
{
    match changed {
        Changed::Nothing => {}
        Changed::One(end) => wake(schedule, end),
        Changed::Four(first, second, first_peer, second_peer) => {
            wake(schedule, first);
            wake(schedule, second);
            wake(schedule, first_peer);
            wake(schedule, second_peer);
        }
    }
}

// Something has changed at this end.
fn wake(schedule: &mut Schedule, end: u32)
    requires { (names : ℕ → Who) × IsScheduled names schedule.old }
    ensures scheduled { (names : ℕ → Who) → IsScheduled names schedule.old → IsScheduled names schedule.new }
    ensures fits { (code : Code) (m : Parts) (who : ℕ → Who) (ps es : ℕ) (rest : List ℕ) → Fits code m who ps es (end ∷ rest) schedule.old → Fits code m who ps es rest schedule.new }
{
    schedule.wake(end);
}
