//! The grammar of the language, as data: `specs/Rules.antt` has a rule for each name, with what it says in the usual
//! notation over it, and each rule builds the trees of `campl_tree`. It passes the test of `campl_gram`, so no list of
//! terminals has two trees, and a parser has one function for each name. A terminal is a token with its text (`specs/Terminal.antt`).
//!
//! ```text
//! -- link = lower "::" ctype
//! rule link = seq t.link_of (lower ◂ k.DoubleColon) (nt ctype)
//! ```
#![tactic(auto)]

mod laws;

pub use laws::one_tree;
