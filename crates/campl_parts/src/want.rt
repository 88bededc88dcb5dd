//! What a process or service does next.
ghost use Rattle.std.specs.Prelude.{◌≡◌, ◌<◌, ◌^◌};
ghost use Rattle.campl_cells.specs.Parts.{near, far};
ghost use Rattle.campl_cells.specs.Wants.{end_on};

use crate::ends::Ends;
use crate::entry::Kind;
use crate::part::Running;
use crate::place::Place;
use campl_instructions::Spot;
use campl_service::Service;
use campl_tree::Side;
use campl_value::Value;

/// A channel with its two ends.
#[derive(Clone, Copy, Debug)]
pub struct Channel {
    pub number: u32,
    pub near: u32,
    pub far: u32,
}

impl Channel {
    /// The channel with this number.
    pub fn of(number: u32) -> Channel
        requires { number < 2 ^ 31 }
        ensures { result ≡ record { number = number; near = near number; far = far number } }
    {
        Channel {
            number,
            near: 2 * number,
            far: 2 * number + 1,
        }
    }

    /// The end on a side, of which that on the output side is the near one.
    pub fn end_on(&self, side: Side) -> u32
        requires { self.now ≡ record { number = self.now.number; near = near self.now.number; far = far self.now.number } }
        ensures { result ≡ end_on side self.now.number }
    {
        match side {
            Side::Input => self.far,
            Side::Output => self.near,
        }
    }
}

/// A message that a process sends, but for the ends that a fork sends.
#[derive(Clone, Copy)]
pub enum Sent<'a> {
    Word(&'a Value),
    Pick(u32),
}

/// A step that waits for nothing.
#[derive(Clone, Copy)]
pub enum Deed<'a> {
    /// One more call for its present command.
    Spends(&'a Running),
    /// It ends.
    Ends,
    /// It goes on there.
    Goes(Place<'a>),
    /// It goes on there with a row's variables, which are set from the first on to what stands in the values at these spots.
    Cases {
        place: Place<'a>,
        first: u32,
        values: &'a [Value],
        spots: &'a [Spot],
    },
    /// It goes on at the head of a process's block, with the values, as many more variables as its frame has, and the ends of
    /// these channels.
    Calls {
        block: usize,
        missing: usize,
        values: &'a [Value],
        channels: &'a [u32],
        ends: &'a Ends,
    },
    /// It sends a message on an end and goes on there.
    Sends {
        end: u32,
        message: Sent<'a>,
        place: Place<'a>,
    },
    /// It bears two channels and a child, and sends the far ends of the channels. It goes on there with the near end of the
    /// first, and the child elsewhere in the block with that of the second.
    Forks {
        end: u32,
        own: u32,
        its: u32,
        to: u32,
        channel: Channel,
        channel2: Channel,
        place: Place<'a>,
    },
    /// It bears a channel, of which it has one end and a child the other, both under the same number. It goes on there, and the
    /// child elsewhere in the block.
    Peels {
        held: u32,
        own: u32,
        its: u32,
        to: u32,
        channel: u32,
        place: Place<'a>,
    },
}

/// What a message is good for.
#[derive(Clone, Copy)]
pub enum Look<'a> {
    /// A value, which becomes this variable's.
    Gets {
        variable: u32,
        place: Place<'a>,
    },
    /// Two ends, which become those of these channels.
    Splits {
        left: u32,
        right: u32,
        place: Place<'a>,
    },
    /// A constructor, each of which has a place.
    Offers {
        targets: &'a [u32],
        place: Place<'a>,
    },
    /// Any message.
    Chooses {
        place: Place<'a>,
    },
}

/// What a process or service does next.
#[derive(Clone, Copy)]
pub enum Want<'a> {
    /// It has no step: it is gone, breaks, or stands still.
    Rests,
    Moves {
        kind: Kind,
        end: Option<u32>,
        deed: Deed<'a>,
    },
    /// It waits for a message at the end, which it takes off or leaves.
    Looks {
        kind: Kind,
        takes: bool,
        end: u32,
        look: Look<'a>,
    },
    /// It is an identity of two ends.
    Links {
        end: u32,
        second: u32,
    },
    /// A service that waits for a message at its end.
    Hears {
        kind: Kind,
        end: u32,
        service: &'a Service,
    },
    /// A service that sends the next line of its script.
    Says {
        end: u32,
        service: &'a Service,
    },
}
