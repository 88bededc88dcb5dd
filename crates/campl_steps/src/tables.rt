//! What a step does to the tables of a configuration. What takes memory comes before what changes them.
ghost use Rattle.std.specs.Prelude.{◌≡◌, ◌<◌, ◌≤◌, ◌+◌, ◌*◌, ◌^◌, Some, OnOk, option_map, vec_len, vec_capacity};
ghost use Rattle.campl_cells.specs.Parts as parts;
ghost use Rattle.campl_cells.specs.Parts.{Proc, written};
ghost use Rattle.campl_cells.specs.Steps.{borne, peopled, sent};
ghost use Rattle.campl_parts.specs.Tables.{HasRoomFor, IsThere, procs, tips};
ghost use Rattle.campl_parts.specs.Views.{life_of};
ghost use Rattle.campl_steps.specs.Configs.{IsSame, changed_ends, drawn, more};
ghost use Rattle.campl_steps.specs.Doing.{HasInbox, HasRoom, IsSendThere, owners};
ghost use Rattle.campl_steps.specs.Readiness.{borne_channels, count_of};

use crate::config::Config;
use crate::made::Changed;
use crate::plan::Borne;
use campl_parts::{Life, arrive, bear, channel, go_on, make_room_for, owner};
use campl_value::Message;
use std::alloc::{AllocError, Global};

impl Config {
    // Takes the memory of what a step may bear and of the message that it sends, and changes nothing else.
    pub(crate) fn make_room(&mut self, send: &Option<(u32, Message)>) -> Result<(), AllocError>
        requires { IsSendThere self.old.ends.items send.now }
        ensures same { IsSame self.old self.new }
        ensures ok { OnOk result (HasRoom self.new send.now) }
    {
        self.processes.reserve(1)?;
        self.ends.reserve(4)?;
        match send {
            None => Ok(()),
            Some(sent) => self.make_room_behind(sent.0),
        }
    }

    // Takes the memory of a message that is sent on this end.
    pub(crate) fn make_room_behind(&mut self, end: u32) -> Result<(), AllocError>
        requires { parts.owner (tips self.old.ends.items) end < vec_len self.old.ends }
        ensures processes { self.new.processes ≡ self.old.processes }
        ensures len { vec_len self.new.ends ≡ vec_len self.old.ends }
        ensures capacity { vec_capacity self.new.ends ≡ vec_capacity self.old.ends }
        ensures same { tips self.new.ends.items ≡ tips self.old.ends.items }
        ensures room { OnOk result (HasRoomFor self.new.ends.items (parts.owner (tips self.old.ends.items) end) 1) }
    {
        let to = owner(self.ends.as_slice(), end);
        make_room_for(&mut self.ends, to, 1)
    }

    // A message that is sent arrives at the end to which it goes, behind the others.
    pub(crate) fn deliver(&mut self, send: Option<(u32, Message)>) -> Changed
        requires there { IsSendThere self.old.ends.items send }
        requires room { HasInbox self.old.ends.items send }
        ensures processes { self.new.processes ≡ self.old.processes }
        ensures len { vec_len self.new.ends ≡ vec_len self.old.ends }
        ensures capacity { vec_capacity self.new.ends ≡ vec_capacity self.old.ends }
        ensures arrived { tips self.new.ends.items ≡ written (sent send (tips self.old.ends.items)) (tips self.old.ends.items) }
        ensures changed { changed_ends result ≡ owners (tips self.old.ends.items) send }
    {
        match send {
            None => Changed::Nothing,
            Some(sent) => {
                let to = owner(self.ends.as_slice(), sent.0);
                arrive(&mut self.ends, to, sent.1);
                Changed::One(to)
            }
        }
    }

    // So many channels are born, the next ones.
    pub(crate) fn open(&mut self, alloc: Global, channels: Borne)
        requires room { vec_len self.old.ends + 4 ≤ vec_capacity self.old.ends }
        requires few { vec_len self.old.ends + 4 < 2 ^ 32 }
        ensures processes { self.new.processes ≡ self.old.processes }
        ensures len { vec_len self.new.ends ≡ vec_len self.old.ends + 2 * count_of channels }
        ensures born { tips self.new.ends.items ≡ written (borne (borne_channels (drawn self.old) channels)) (tips self.old.ends.items) }
    {
        match channels {
            Borne::None => {}
            Borne::One => channel(alloc, &mut self.ends),
            Borne::Two => {
                channel(alloc, &mut self.ends);
                channel(alloc, &mut self.ends);
            }
        }
    }

    // A process goes on as this life, one step later, and bears a child, if there is one.
    pub(crate) fn go_on(&mut self, number: u32, next: Life, child: Option<Life>)
        requires there { IsThere (procs self.old.processes.items number) }
        requires room { vec_len self.old.processes < vec_capacity self.old.processes }
        ensures ends { self.new.ends ≡ self.old.ends }
        ensures len { vec_len self.new.processes ≡ vec_len self.old.processes + more child 1 }
        ensures goes { (q : Proc) → procs self.old.processes.items number ≡ Some q
            → procs self.new.processes.items ≡ written (peopled (drawn self.old) number q (life_of next) (option_map life_of child)) (procs self.old.processes.items) }
    {
        match child {
            None => go_on(&mut self.processes, number, next),
            Some(child) => bear(&mut self.processes, number, next, child),
        }
    }
}
