//! Steps of each kind, on the tables of a configuration. Each takes the memory that it needs before it changes anything.
ghost use Rattle.std.specs.Prelude.{◌≡◌, ◌≢◌, ◌<◌, ◌+◌, ◌^◌, Some, None, [], ◌∷◌, ◌++◌, IfOk, OnOk, OnErr, if◌then◌else◌, option_map, vec_len};
ghost use Rattle.campl_cells.specs.Parts.{Ended, owner};
ghost use Rattle.campl_cells.specs.Steps.{borne, sent, tips_joined};
ghost use Rattle.campl_parts.specs.Serving.{Hears};
ghost use Rattle.campl_parts.specs.Tables.{HasRoomFor, IsThere, procs, tips};
ghost use Rattle.campl_parts.specs.Views.{life_of};
ghost use Rattle.campl_steps.specs.Configs.{IsSame, changed_ends, drawn};
ghost use Rattle.campl_steps.specs.Doing.{Did, DidAttend, DidSay, HasRoom, IsGivenAt, IsRoomyAt, IsSendThere, on_end, owners, taken};
ghost use Rattle.campl_steps.specs.Readiness.{borne_channels, count_of};

use crate::attend::{hear, make_room_of, say};
use crate::config::Config;
use crate::made::Changed;
use crate::plan::Borne;
use campl_parts::{Life, Planned, go_on, join, take};
use campl_value::Message;
use std::alloc::{AllocError, Global};

impl Config {
    // Who waits for nothing goes on as planned.
    pub(crate) fn apply_move(
        &mut self,
        alloc: Global,
        number: u32,
        channels: Borne,
        planned: Planned,
    ) -> Result<Changed, AllocError>
        requires there { IsThere (procs self.old.processes.items number) }
        requires few { vec_len self.old.ends + 4 < 2 ^ 32 }
        requires send { IsSendThere self.old.ends.items planned.send }
        ensures changed { IfOk result (λ changed. changed_ends changed ≡ owners (tips self.old.ends.items) planned.send) }
        ensures did { OnOk result (Did self.old self.new number (life_of planned.next) (option_map life_of planned.child) (count_of channels)
            (sent planned.send (tips self.old.ends.items) ++ borne (borne_channels (drawn self.old) channels))) }
        ensures err { OnErr result (IsSame self.old self.new) }
    {
        match self.make_room(&planned.send) {
            Ok(()) => Ok(self.move_on(alloc, number, channels, planned)),
            Err(error) => Err(error),
        }
    }

    // The same where the memory is there.
    fn move_on(&mut self, alloc: Global, number: u32, channels: Borne, planned: Planned) -> Changed
        requires there { IsThere (procs self.old.processes.items number) }
        requires few { vec_len self.old.ends + 4 < 2 ^ 32 }
        requires send { IsSendThere self.old.ends.items planned.send }
        requires room { HasRoom self.old planned.send }
        ensures changed { changed_ends result ≡ owners (tips self.old.ends.items) planned.send }
        ensures did { Did self.old self.new number (life_of planned.next) (option_map life_of planned.child) (count_of channels)
            (sent planned.send (tips self.old.ends.items) ++ borne (borne_channels (drawn self.old) channels)) }
    {
        let Planned { send, child, next } = planned;
        let changed = self.deliver(send);
        self.open(alloc, channels);
        self.go_on(number, next, child);
        changed
    }

    // Who looked at a message goes on, and takes it or leaves it.
    pub(crate) fn apply_look(&mut self, number: u32, takes: bool, end: u32, next: Life) -> Changed
        requires there { IsThere (procs self.old.processes.items number) }
        requires end { end < vec_len self.old.ends }
        ensures changed { changed_ends result ≡ (if takes then end ∷ [] else []) }
        ensures did { Did self.old self.new number (life_of next) None 0 (if takes then taken (tips self.old.ends.items) end else []) }
    {
        go_on(&mut self.processes, number, next);
        if !takes {
            return Changed::Nothing;
        }
        take(&mut self.ends, end);
        Changed::One(end)
    }

    // An identity joins the peers of its ends.
    pub(crate) fn apply_link(
        &mut self,
        number: u32,
        end: u32,
        second: u32,
        first_peer: u32,
        second_peer: u32,
    ) -> Result<Changed, AllocError>
        requires there { IsThere (procs self.old.processes.items number) }
        requires end { end < vec_len self.old.ends }
        requires second { second < vec_len self.old.ends }
        requires first_peer { first_peer < vec_len self.old.ends }
        requires second_peer { second_peer < vec_len self.old.ends }
        requires apart { (end ≢ second) × (first_peer ≢ end) × (first_peer ≢ second) × (second_peer ≢ end) × (second_peer ≢ second) × (first_peer ≢ second_peer) }
        ensures changed { IfOk result (λ changed. changed_ends changed ≡ end ∷ second ∷ first_peer ∷ second_peer ∷ []) }
        ensures did { OnOk result (Did self.old self.new number Ended None 0 (tips_joined (tips self.old.ends.items) end second first_peer second_peer)) }
        ensures err { OnErr result (IsSame self.old self.new) }
    {
        match join(&mut self.ends, end, second, first_peer, second_peer) {
            Ok(()) => {}
            Err(error) => return Err(error),
        }
        go_on(&mut self.processes, number, Life::Ended);
        Ok(Changed::Four(end, second, first_peer, second_peer))
    }

    // A service takes the message at its end, of which this is a copy.
    pub(crate) fn apply_hearing(
        &mut self,
        number: u32,
        end: u32,
        message: Message,
    ) -> Result<Changed, AllocError>
        requires there { IsThere (procs self.old.processes.items number) }
        requires end { end < vec_len self.old.ends }
        requires given { IsGivenAt (procs self.old.processes.items number) (Some message) }
        ensures changed { IfOk result (λ changed. changed_ends changed ≡ end ∷ []) }
        ensures did { OnOk result (DidAttend self.old self.new number (Hears message) (taken (tips self.old.ends.items) end)) }
        ensures err { OnErr result (IsSame self.old self.new) }
    {
        match make_room_of(&mut self.processes, number) {
            Ok(()) => {}
            Err(error) => return Err(error),
        }
        take(&mut self.ends, end);
        hear(&mut self.processes, number, message);
        Ok(Changed::One(end))
    }

    // A service sends the next line of its script on its end.
    pub(crate) fn apply_saying(&mut self, number: u32, end: u32) -> Result<Changed, AllocError>
        requires there { IsThere (procs self.old.processes.items number) }
        requires end { owner (tips self.old.ends.items) end < vec_len self.old.ends }
        requires given { IsGivenAt (procs self.old.processes.items number) None }
        ensures did { IfOk result (λ changed. DidSay self.old self.new number end (changed_ends changed)) }
        ensures err { OnErr result (IsSame self.old self.new) }
    {
        match self.make_room_to_say(number, end) {
            Ok(()) => {}
            Err(error) => return Err(error),
        }
        let said = on_end(end, say(&mut self.processes, number));
        Ok(self.deliver(said))
    }

    // Takes the memory that a service needs to send a line, and changes nothing else.
    fn make_room_to_say(&mut self, number: u32, end: u32) -> Result<(), AllocError>
        requires there { IsThere (procs self.old.processes.items number) }
        requires end { owner (tips self.old.ends.items) end < vec_len self.old.ends }
        ensures same { IsSame self.old self.new }
        ensures service { OnOk result (IsRoomyAt self.new.processes.items number) }
        ensures inbox { OnOk result (HasRoomFor self.new.ends.items (owner (tips self.old.ends.items) end) 1) }
    {
        make_room_of(&mut self.processes, number)?;
        self.make_room_behind(end)
    }
}

// A message that is sent on this end, if one is.
fn on_end(end: u32, message: Option<Message>) -> Option<(u32, Message)>
    ensures { result ≡ on_end end message }
{
    match message {
        None => None,
        Some(message) => Some((end, message)),
    }
}
