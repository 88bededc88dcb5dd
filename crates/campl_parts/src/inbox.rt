//! An end of a channel, and the messages that lie at it.
ghost use Rattle.std.specs.Prelude.{◌≡◌, ◌+◌, ◌≤◌, ◌++◌, [], Some, None, OnOk, drop};
ghost use Rattle.std.specs.VecDeque.{deque_len, deque_capacity};
ghost use Rattle.campl_cells.specs.Parts.{bare};
ghost use Rattle.campl_cells.specs.Steps.{arrives, joined_to};
ghost use Rattle.campl_parts.specs.Views.{tip_of};

use campl_value::Message;
use std::alloc::{AllocError, Global};
use std::collections::VecDeque;
use std::mem;

// For how many messages an end without any keeps its memory.
const KEPT_ROOM: usize = 8;

/// An end: the other end of its channel, and what that end sent and this one hasn't taken, the oldest first.
#[derive(Drop)]
pub struct EndPart {
    pub peer: Option<u32>,
    pub inbox: VecDeque<Message>,
}

impl EndPart {
    /// An end of a new channel. It takes no memory.
    pub fn joined_to(alloc: Global, peer: u32) -> EndPart
        ensures { tip_of result ≡ joined_to peer }
    {
        EndPart {
            peer: Some(peer),
            inbox: VecDeque::new(alloc),
        }
    }

    /// Takes the memory of so many more messages, and changes nothing else. An error means that memory is out.
    pub fn make_room(&mut self, messages: usize) -> Result<(), AllocError>
        ensures same { tip_of self.new ≡ tip_of self.old }
        ensures len { deque_len self.new.inbox ≡ deque_len self.old.inbox }
        ensures room { OnOk result (deque_len self.new.inbox + messages ≤ deque_capacity self.new.inbox) }
    {
        self.inbox.reserve(messages)
    }

    /// A message arrives, behind the others.
    pub fn arrive(&mut self, message: Message)
        requires { deque_len self.old.inbox + 1 ≤ deque_capacity self.old.inbox }
        ensures { tip_of self.new ≡ arrives message (tip_of self.old) }
    {
        self.inbox.push_back_reserved(message);
    }

    /// Takes the first message off. Where it was the last of many, their memory goes back: others can have it then.
    pub fn take(&mut self) -> Option<Message>
        ensures peer { self.new.peer ≡ self.old.peer }
        ensures rest { self.new.inbox.items ≡ drop 1 self.old.inbox.items }
    {
        let first = self.inbox.pop_front();
        if self.inbox.is_empty() && self.inbox.capacity() > KEPT_ROOM {
            self.inbox = VecDeque::new(*self.inbox.allocator());
        }
        first
    }

    /// Loses its partner, and hands out the messages that lay here.
    pub fn leave(&mut self) -> VecDeque<Message>
        ensures left { tip_of self.new ≡ bare }
        ensures messages { result ≡ self.old.inbox }
    {
        self.peer = None;
        let empty = VecDeque::new(*self.inbox.allocator());
        mem::replace(&mut self.inbox, empty)
    }

    /// Gets another partner, and messages behind those that lie here.
    pub fn meet(&mut self, peer: u32, mut messages: VecDeque<Message>)
        requires { deque_len self.old.inbox + deque_len messages ≤ deque_capacity self.old.inbox }
        ensures { tip_of self.new ≡ record { peer = Some peer; inbox = (tip_of self.old).inbox ++ messages.items } }
    {
        self.peer = Some(peer);
        let _ = self.inbox.append(&mut messages);
    }
}
