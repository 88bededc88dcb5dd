//! One reduction, told by numbers.
ghost use Rattle.std.specs.Prelude.{◌≡◌, IfOk};
ghost use Rattle.campl_parts.specs.Entries.{simple};

use campl_value::Message;
use std::alloc::AllocError;

/// What a reduction is: an action of a process, or of a service.
#[derive(Clone, Copy, Debug, PartialEq, Eq)]
pub enum Kind {
    /// Calls of declared functions that a process spends on its present command.
    Work,
    Call,
    Case,
    Put,
    Get,
    Pick,
    Offer,
    Split,
    Fork,
    Close,
    Halt,
    Link,
    Peel,
    /// A race goes on as this branch, from 0.
    Choose(u32),
    /// A service takes a constructor.
    ServePick,
    /// A service takes a text.
    ServeText,
    /// A service sends a line of its script.
    ServeLine,
}

/// An entry of a journal: who did what, and at which ends.
///
/// Process 0 is `run`, and the services are 1, 2, .. in the order of its heading. Channel `c` has the ends `2 * c` and
/// `2 * c + 1`. Of a channel of the heading `run` has the first and the service the second; of a fork's two channels the
/// bodies have the first ends, and the message the second; of a plug's channel the first is on the output side.
#[derive(Drop)]
pub struct Entry {
    pub process: u32,
    pub kind: Kind,
    /// The number of calls of `Work`, and 1 for each other kind.
    pub weight: u32,
    /// The end at which it happened, where there is one.
    pub end: Option<u32>,
    /// The second end of an identity.
    pub second: Option<u32>,
    /// The message that was sent or taken.
    pub message: Option<Message>,
    /// The number of the process that was born.
    pub child: Option<u32>,
    /// The numbers of the channels that were born.
    pub channel: Option<u32>,
    pub channel2: Option<u32>,
}

impl Entry {
    /// A step of this kind at this end, if it is at one, with the message that was sent or taken there, if one was.
    #[inline]
    pub fn simple(process: u32, kind: Kind, end: Option<u32>, message: Option<Message>) -> Entry
        ensures { result ≡ simple process kind end message }
    {
        Entry {
            process,
            kind,
            weight: 1,
            end,
            second: None,
            message,
            child: None,
            channel: None,
            channel2: None,
        }
    }

    /// The same, which shares its message's parts with this one. An error means that memory is out.
    pub fn copy(&self) -> Result<Entry, AllocError>
        ensures { IfOk result (λ copy. copy ≡ self.now) }
    {
        let message = match copied(&self.message) {
            Ok(message) => message,
            Err(error) => return Err(error),
        };
        Ok(Entry {
            process: self.process,
            kind: self.kind,
            weight: self.weight,
            end: self.end,
            second: self.second,
            message,
            child: self.child,
            channel: self.channel,
            channel2: self.channel2,
        })
    }
}

fn copied(message: &Option<Message>) -> Result<Option<Message>, AllocError>
    ensures { IfOk result (λ copy. copy ≡ message.now) }
{
    match message {
        None => Ok(None),
        Some(message) => match message.copy() {
            Ok(message) => Ok(Some(message)),
            Err(error) => Err(error),
        },
    }
}
