//! What a step does to the table of processes.
ghost use Rattle.std.specs.Prelude.{◌≡◌, ℕ, ◌<◌, ◌^◌, Some, option_map, vec_len, vec_capacity, suc};
ghost use Rattle.campl_cells.specs.Parts.{Proc, put, written};
ghost use Rattle.campl_cells.specs.Steps.{goes_on, newborn};
ghost use Rattle.campl_cells.specs.Wants.{Drawn};
ghost use Rattle.campl_code_bodies.specs.Kept.{Values};
ghost use Rattle.campl_parts.specs.Standing.{kept_by, reached_kept, turned};
ghost use Rattle.campl_parts.specs.Views.{held_of, life_of};
ghost use Rattle.campl_parts.specs.Tables.{IsThere, procs};

use crate::part::{Life, ProcPart, Running};
use campl_kept::Reached;
use campl_operands::Variables;

/// A process goes on as this life, one step later.
pub fn go_on(processes: &mut Vec<ProcPart>, process: u32, life: Life)
    requires { IsThere (procs processes.old.items process) }
    ensures len { vec_len processes.new ≡ vec_len processes.old }
    ensures goes { (q : Proc) → procs processes.old.items process ≡ Some q → procs processes.new.items ≡ put process (Some (goes_on q (life_of life))) (procs processes.old.items) }
{
    processes[process as usize].go_on(life);
}

/// A process goes on in place at a command that it reached, one step later.
pub fn reach(processes: &mut Vec<ProcPart>, process: u32, reached: Reached)
    requires { IsThere (procs processes.old.items process) }
    ensures len { vec_len processes.new ≡ vec_len processes.old }
    ensures goes { (q : Proc) → procs processes.old.items process ≡ Some q
        → procs processes.new.items ≡ put process (Some (goes_on q (kept_by (reached_kept reached.at reached.values.items) q.life))) (procs processes.old.items) }
{
    processes[process as usize].reach(reached);
}

/// The same with other variables.
pub fn reach_with(
    processes: &mut Vec<ProcPart>,
    process: u32,
    variables: Variables,
    reached: Reached,
)
    requires { IsThere (procs processes.old.items process) }
    ensures len { vec_len processes.new ≡ vec_len processes.old }
    ensures goes { (q : Proc) → procs processes.old.items process ≡ Some q
        → procs processes.new.items ≡ put process (Some (goes_on q (kept_by (λ kept. Values reached.at variables reached.values.items) q.life))) (procs processes.old.items) }
{
    processes[process as usize].reach_with(variables, reached);
}

/// A process goes on as that one, one step later.
pub fn turn_into(processes: &mut Vec<ProcPart>, process: u32, other: Running)
    requires { IsThere (procs processes.old.items process) }
    ensures len { vec_len processes.new ≡ vec_len processes.old }
    ensures goes { (q : Proc) → procs processes.old.items process ≡ Some q
        → procs processes.new.items ≡ put process (Some (goes_on q (turned (held_of other) q.life))) (procs processes.old.items) }
{
    processes[process as usize].turn_into(other);
}

/// A process goes on as this life, one step later, and bears a child, whose number is the next one.
pub fn bear(processes: &mut Vec<ProcPart>, process: u32, life: Life, child: Life)
    requires there { IsThere (procs processes.old.items process) }
    requires room { vec_len processes.old < vec_capacity processes.old }
    ensures len { vec_len processes.new ≡ suc (vec_len processes.old) }
    ensures goes { (q : Proc) → procs processes.old.items process ≡ Some q →
        procs processes.new.items ≡ put (vec_len processes.old) (Some (newborn process q (life_of child))) (put process (Some (goes_on q (life_of life))) (procs processes.old.items)) }
{
    let child = processes[process as usize].go_on_bearing(process, life, child);
    processes.push_reserved(child);
}
