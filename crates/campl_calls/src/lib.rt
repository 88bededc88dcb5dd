//! Where a process begins, and the commands that end it alone: `halt`, identity and the call of a process.
//!
//! [`heading`] judges a process's row against its heading, and gives the variables and the held channels with which
//! its body begins. [`halt`], [`identity`] and [`call`] judge a last command behind which no body follows: it gives up
//! each channel that is held, and one that is left over is refused.
//!
//! In reading order: `sides`; `headings`, with `naming`, names that differ from one another; `halting`; `identities`;
//! `calling`, with `handing`, channels handed over.
#![tactic(auto)]

mod calling;
mod halting;
mod handing;
mod headings;
mod identities;
mod naming;
mod sides;

pub use calling::call;
pub use halting::halt;
pub use headings::heading;
pub use identities::identity;
