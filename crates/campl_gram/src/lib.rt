//! Grammars as data: which tokens, with their nesting, have which tree, and how one reads them from left to right.
//! It is proved once, for every grammar that passes a test that computes: reading finds the one tree of a list of
//! tokens, or the exact token at which it goes wrong. The crate knows no language, no token and no tree.
//!
//! A grammar has a rule for each of its names, written in pieces that build their values (`specs/Grammar.antt`; this
//! one is of `specs/Example.antt`):
//!
//! ```text
//! rule sum = at (into (nt atom) (alt ((λ y x p. Sum p x y) <$> Plus ▸ deeper (nt sum)) (pure (λ x p. x))))
//! ```
//!
//! `IsProgram` says of which tokens, each with its nesting, a tree is made. `Tables` beside the rules tell of each name
//! whether it may be empty, with which kinds it may begin or go on, its rank and its least height. Each name passes the
//! test by `refl`; where it doesn't, the message lists what is wrong of it (`specs/Tests.antt`). Then the functions of
//! `laws` hold; their lemmas are `exact`, `whole`, `one_tree` and `reads` in `proofs/Exact.antt`, `front-open` and
//! `fault-at-token` in `proofs/Balance.antt`. How large trees are by the number of tokens is shown rule by rule with
//! `by_tokens` in `proofs/Induction.antt`; `proofs/Examples.antt` does so for the small grammar.
//!
//! # A parser
//!
//! A parser has one function for each name. It is plain recursive descent, and ensures that it reads as `read` does.
//! `reads_sum` says that `read sum` is what its rule reads (`reads` of `proofs/Exact.antt` at the name), and that one
//! lemma proves the function. A list is read by a tail call or a loop: `adds` and `proofs/Lists.antt`. Tokens are plain
//! values with their text, since each kind must have one (`Distinct`). Let `terminals` be `unfoldable`, and only the
//! cursor's own functions unfold it: the goals of all others stay small.
//!
//! ```text
//! unfoldable pub read : (m : Name) → ℕ → List Token → Outcome Token (Value m)
//! read = reading.read terminals Name Value tables limit rule
//!
//! #[cycle(sum)]
//! #[tactic(auto, using(crate::proofs::Tables::reads_sum))]
//! fn sum(alloc: Global, cursor: &mut Cursor<'_>, depth: u32) -> Result<Tree, ParseError>
//!     ensures { Reads (read sum_name depth cursor.old) result cursor.new }
//! ```
#![tactic(auto)]

mod example;
mod fault;
mod laws;

pub use fault::Fault;
pub use laws::{
    Grammar, fault_is_at_a_token, name_is_read_as_its_rule, one_tree, proper_front_is_open,
    reading_is_exact,
};
