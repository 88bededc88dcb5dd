//! Whole sources, each proved typed or ill-typed: a review of the definitions of typing in `campl_types`.
//!
//! `data/NAME.campl` is a source that is accepted, `data/no_tree/NAME.campl` one that is typed and has a plug that is no tree,
//! and `data/refused/NAME.campl` one that is ill-typed, though its names are well declared. `specs/` has their trees. Each law
//! says of a typed source that each of its functions and processes has a derivation by the rules, which stands in `proofs/`; or
//! of a refused one that there is none, and what judging its functions answers.
//! `tests/derivations.py` writes the trees, the derivations and the laws from the sources, and the prover judges them.
#![tactic(auto)]

mod laws;
mod refusals;
