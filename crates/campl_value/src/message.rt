// What goes along a channel.
ghost use Rattle.std.specs.Prelude.{◌≡◌, IfOk};
ghost use Rattle.campl_value.specs.Messages.{word_of};

use crate::value::Value;
use std::alloc::AllocError;

/// A message on a channel.
pub enum Message {
    /// A value that was put.
    Word(Value),
    /// The number of the constructor that was picked, which counts the lines of its declaration from 0.
    Pick(u32),
    /// The numbers of the two ends that a fork sends and a split receives, in its order.
    Ends(u32, u32),
}

impl Drop for Message {
    fn drop(self) {
        match self {
            Message::Word(value) => drop(value),
            Message::Pick(_) | Message::Ends(_, _) => {}
        }
    }
}

impl Message {
    /// An equal message, which shares its value's parts with this one. An error means that memory is out.
    pub fn copy(&self) -> Result<Message, AllocError>
        ensures { IfOk result (λ copy. copy ≡ self.now) }
    {
        Ok(match self {
            Message::Word(value) => Message::Word(value.copy()?),
            Message::Pick(action) => Message::Pick(*action),
            Message::Ends(first, second) => Message::Ends(*first, *second),
        })
    }

    /// The value that was put, and `None` exactly where the message is another.
    pub fn into_word(self) -> Option<Value>
        ensures { result ≡ word_of self }
    {
        match self {
            Message::Word(value) => Some(value),
            Message::Pick(_) | Message::Ends(_, _) => None,
        }
    }
}
