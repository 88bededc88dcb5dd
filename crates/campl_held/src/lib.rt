//! What a process holds, the fault of processes, and the commands behind which a process goes on.
//!
//! `campl_linear` judges a process over the list of its held channels. [`Held`] is that list with a map of its names,
//! and [`LinFault`] the first fault with its place. What a command asks of a channel that it names is here for all
//! commands ([`find_held`], [`used_to_put`] and its siblings, [`two_new`], [`none_left`]); [`act_all`] judges the commands
//! with which a body goes on. `put 7 on x` with `x : Put(Int | TopBot)` held on the output side leaves
//!
//! ```text
//! x : TopBot on the output side, at the same place of the list
//! ```
//!
//! In reading order: `channel`, `places`, `held`; `fault`, `telling`; `choices`, `deeds`, the polarity table; `used`, `asking`,
//! `coming`; `acting`.
#![tactic(auto)]

mod acting;
mod asking;
mod channel;
mod choices;
mod coming;
mod deeds;
mod fault;
mod held;
mod places;
mod telling;
mod used;

pub use acting::{act_all, bind, value_fits};
pub use asking::{
    find_held, row_type, used_to_end, used_to_fork, used_to_get, used_to_offer, used_to_pick,
    used_to_put, used_to_split,
};
pub use channel::HeldChannel;
pub use choices::{Constructors, Lines};
pub use coming::{new_name, none_left, two_new};
pub use deeds::{Allowed, entry_at};
pub use fault::LinFault;
pub use held::Held;
pub use telling::{left_over, not_held, of_seq, wrong_action};
pub use used::{Halves, Message, Offer, Pick};
