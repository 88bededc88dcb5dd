//! A machine of processes and services that pass messages over channels with two ends, and the laws of its steps.
//!
//! A configuration says which nodes there are, which end is whose partner, and what was sent on each end and not yet
//! taken; a node moves, looks at a message, or is an identity that joins two channels. What a node wants comes from
//! above, so the machine knows no language: its states and messages are any types. Each public function is a law over
//! the definitions in `specs/`; its body is empty, and its contract is the law. Read the modules in this order: `step`,
//! `diamond`, `answer`, `forest`, `progress`.
//!
//! An example, which `proofs/Examples.antt` computes: with `near` and `far` the ends of one channel,
//!
//! ```text
//! performs c sender (Moves (only_sends near 7 (Some 1)))         near owes 7, and the sender goes on in state 1
//! performs d receiver (Looks true far (λ m. Some (100 + m)))     near owes nothing, and the receiver goes on in state 107
//! ```
#![tactic(auto)]

mod answer;
mod diamond;
mod forest;
mod progress;
mod step;

pub use answer::{Reduces, law_one_answer, law_prefixes, law_program_answer, law_program_prefixes};
pub use diamond::{law_diamond, law_identity, law_independent, law_program, law_send_and_receipt};
pub use forest::{
    law_contraction, law_forest_fork, law_forest_given_up, law_forest_identity, law_forest_peel,
    law_forest_receipt, law_removal, law_splitting,
};
pub use progress::law_progress;
pub use step::{law_names, law_partners, law_step};
