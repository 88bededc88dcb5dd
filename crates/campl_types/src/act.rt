//! What a process may do with a channel.

/// What a channel's type lets a process do that holds it on one side.
#[derive(Clone, Copy, Debug, PartialEq, Eq)]
pub enum Act {
    /// `put`
    Put,
    /// `get`
    Get,
    /// `fork`
    Fork,
    /// `split`
    Split,
    /// `hput`
    Pick,
    /// `hcase`
    Offer,
    /// `close` and `halt`
    End,
    /// Identity alone, which every type allows.
    Link,
}
