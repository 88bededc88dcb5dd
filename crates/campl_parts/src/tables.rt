//! What stands in the tables of a configuration.
ghost use Rattle.std.specs.Prelude.{◌≡◌, slice_get};
ghost use Rattle.std.specs.Option.{option_copied};
ghost use Rattle.campl_cells.specs.Parts.{or_bare, owner};
ghost use Rattle.campl_parts.specs.Tables.{tips};

use crate::inbox::EndPart;
use campl_value::Message;

/// The other end of an end's channel, where the end is there and has one.
pub fn peer(ends: &[EndPart], end: u32) -> Option<u32>
    ensures { result ≡ (or_bare (tips ends.now end)).peer }
{
    match ends.get(end as usize) {
        None => None,
        Some(part) => part.peer,
    }
}

/// The end at which a message lies that is sent on this one: its peer, or itself where it has none.
pub fn owner(ends: &[EndPart], end: u32) -> u32
    ensures { result ≡ owner (tips ends.now) end }
{
    match peer(ends, end) {
        None => end,
        Some(peer) => peer,
    }
}

/// The oldest message that lies at an end.
pub fn front(ends: &[EndPart], end: u32) -> Option<&Message>
    ensures { option_copied result ≡ slice_get (or_bare (tips ends.now end)).inbox 0 }
{
    match ends.get(end as usize) {
        None => None,
        Some(part) => part.inbox.front(),
    }
}
