//! The variables in scope with their types, for those who judge expressions.
//!
//! [`Vars`] binds a name to a type, where a later binding hides an earlier one, and drops the newest when a scope
//! ends. No look-up scans the variables.
//!
//! ```text
//! vars.bind(alloc, x, int)?; // x has Int
//! vars.bind(alloc, x, bool)?; // x has Bool
//! vars.truncate(1); // x has Int again
//! ```
#![tactic(auto)]

mod vars;

pub use vars::Vars;
