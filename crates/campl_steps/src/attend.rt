//! What a service's step does to the table of processes.
ghost use Rattle.std.specs.Prelude.{◌≡◌, Some, None, OnOk, vec_len};
ghost use Rattle.campl_cells.specs.Parts.{Proc};
ghost use Rattle.campl_parts.specs.Serving.{Hears, Says};
ghost use Rattle.campl_parts.specs.Tables.{IsThere, procs};
ghost use Rattle.campl_steps.specs.Doing.{IsGivenAt, IsRoomyAt, Served};

use campl_parts::ProcPart;
use campl_value::Message;
use std::alloc::AllocError;

// Takes the memory of a service's next step, and changes nothing else.
pub(crate) fn make_room_of(processes: &mut Vec<ProcPart>, number: u32) -> Result<(), AllocError>
    requires { IsThere (procs processes.old.items number) }
    ensures len { vec_len processes.new ≡ vec_len processes.old }
    ensures same { procs processes.new.items ≡ procs processes.old.items }
    ensures room { OnOk result (IsRoomyAt processes.new.items number) }
{
    processes[number as usize].make_room()
}

// A service takes a message, one step later.
pub(crate) fn hear(processes: &mut Vec<ProcPart>, number: u32, message: Message)
    requires there { IsThere (procs processes.old.items number) }
    requires room { IsRoomyAt processes.old.items number }
    requires given { IsGivenAt (procs processes.old.items number) (Some message) }
    ensures len { vec_len processes.new ≡ vec_len processes.old }
    ensures goes { (q : Proc) → procs processes.old.items number ≡ Some q
        → Served (Hears message) processes.old.items processes.new.items number q }
{
    processes[number as usize].hear(message);
}

// A service sends the next line of its script, one step later.
pub(crate) fn say(processes: &mut Vec<ProcPart>, number: u32) -> Option<Message>
    requires there { IsThere (procs processes.old.items number) }
    requires room { IsRoomyAt processes.old.items number }
    requires given { IsGivenAt (procs processes.old.items number) None }
    ensures len { vec_len processes.new ≡ vec_len processes.old }
    ensures goes { (q : Proc) → procs processes.old.items number ≡ Some q
        → Served (Says result) processes.old.items processes.new.items number q }
{
    processes[number as usize].say()
}
