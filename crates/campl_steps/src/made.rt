//! What a step made.
use campl_parts::Entry;

/// The ends at which a step changed something, but for those that it bore.
#[derive(Clone, Copy, Debug)]
pub enum Changed {
    Nothing,
    One(u32),
    /// Those of an identity, and their peers.
    Four(u32, u32, u32, u32),
}

/// A step that was made: its entry, and the ends at which something changed.
#[derive(Drop)]
pub struct Made {
    pub entry: Entry,
    pub changed: Changed,
}
