//! What a generator asks of a process's channels: their numbers, and the order in which a plug's parts are peeled.
//!
//! [`Channels`] holds the channels by name, and the number that comes next. Channels come and go as commands say, a `fork` divides
//! them by a set of names, and so does each peel of a plug. [`last_first`] gives the parts of a plug as they are peeled.
//!
//! ```text
//! channels.come(alloc, x)?; // x is 0
//! channels.come(alloc, y)?; // y is 1
//! channels.remove(x);
//! channels.come(alloc, z)?; // z is 2: a number isn't given twice
//! ```
#![tactic(auto)]

mod channels;
mod headers;
mod order;

pub use channels::Channels;
pub use headers::{header_names, side_in, stands_among, stands_in};
pub use order::last_first;
