//! Sources judged: each computes to no fault, or to the first one, as a reference that was written independently tells it.
//!
//! `proofs/` has a file for each fault of processes, and `E30s` those of their expressions; `Sources` judges the sources of
//! `typed_sources`. A type in a fault is told without its places.
#![tactic(auto)]
