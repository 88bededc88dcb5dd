//! The missing pattern: what rows of patterns leave uncovered.
//!
//! A [`Form`] is what a pattern asks of a value: [`form_of`] tells it, and [`forms_text`] writes it as a
//! pattern again. [`missing`] answers the first list of forms, in the fixed order of trials of
//! `campl_types/specs/Missing`, that no row covers. Of the rows `Red` and `Blue` it is `Green`, where Green
//! is declared between them.
//!
//! In reading order: `form` and `pattern`; `head`, what a value may begin with; `opened`, the rows that fit a
//! head, and a head put back; `search`, the trials; `text`.
#![tactic(auto)]

mod form;
mod head;
mod opened;
mod pattern;
mod search;
mod text;

pub use form::Form;
pub use pattern::form_of;
pub use search::missing;
pub use text::forms_text;
