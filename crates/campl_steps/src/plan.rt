//! What a step comes to.
use campl_parts::{Kind, Life, Planned};
use campl_value::Message;

/// The channels that a step bears.
#[derive(Clone, Copy, Debug)]
pub(crate) enum Borne {
    None,
    One,
    Two,
}

/// What a step comes to, made ready on copies. What the entry tells of a message is a copy of its own.
///
/// Its drop is derived, so that what is ready can be taken out.
#[derive(Drop)]
pub(crate) enum Ready {
    /// There is no step.
    Still,
    /// It waits for nothing.
    Moves {
        kind: Kind,
        end: Option<u32>,
        borne: Borne,
        told: Option<Message>,
        planned: Planned,
    },
    /// It goes on with the message at an end, which it takes or leaves.
    Looks {
        kind: Kind,
        takes: bool,
        end: u32,
        told: Option<Message>,
        next: Life,
    },
    /// It joins the peers of two ends.
    Links {
        end: u32,
        second: u32,
        first_peer: u32,
        second_peer: u32,
    },
    /// A service takes a message.
    Hears {
        kind: Kind,
        end: u32,
        told: Message,
        message: Message,
    },
    /// A service sends the next line of its script.
    Says {
        end: u32,
        told: Message,
    },
}
