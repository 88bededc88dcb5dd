//! A held channel with what a command does there.
use crate::channel::HeldChannel;
use crate::choices::Constructors;
use campl_tree::{ChanType, SeqType};

/// A channel at which a value is sent or received, with the value's type and what remains.
#[derive(Clone, Copy)]
pub struct Message<'a> {
    pub channel: &'a HeldChannel,
    pub value: &'a SeqType,
    pub rest: &'a ChanType,
}

/// A channel that is split or at which a process forks, with the types of both halves.
#[derive(Clone, Copy)]
pub struct Halves<'a> {
    pub channel: &'a HeldChannel,
    pub first: &'a ChanType,
    pub second: &'a ChanType,
}

/// A channel at which a constructor is sent, with what remains behind it.
#[derive(Drop)]
pub struct Pick<'a> {
    pub channel: &'a HeldChannel,
    pub rest: ChanType,
}

/// A channel at which one of these constructors is received.
#[derive(Clone, Copy)]
pub struct Offer<'a> {
    pub channel: &'a HeldChannel,
    pub constructors: Constructors<'a>,
}
