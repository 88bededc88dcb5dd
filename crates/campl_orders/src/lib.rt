//! What the words of a command line order: `run`, `check`, `code`, `generate` and `migrate`, each with its options.
//!
//! Behind the first word stand one operand, which is FILE or a number, and options, in any order. An option is written
//! `--x v` or `--x=v`, at most once; behind a word `--` all words are operands. No value is empty or begins with a hyphen.
//! [`read_words`] gives the one [`Order`] that the words are, and nothing where they are none:
//!
//! ```text
//! read_words(["run", "--steps=5", "bank.campl"]) == Some(Run { file: "bank.campl", script: None, steps: 5, workers: 4 })
//! ```
//!
//! `specs/Orders` says which words are which order; `specs/Reading` is the same as a function that computes, and `laws` says
//! that both agree. The words are read one after another by the `Reader` of `reader`, which keeps what is `found`; `number`
//! reads numbers, and `reading` makes the order.
#![tactic(auto)]

mod found;
mod laws;
mod number;
mod order;
mod reader;
mod reading;

pub use laws::{law_order_computes, law_orders_are_one};
pub use order::{Order, STEPS};
pub use reading::read_words;
