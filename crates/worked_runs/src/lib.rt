//! Runs that compute: worked sources from their trees to their transcripts, ends and bytes.
//!
//! In `proofs/`: `Runs` runs each source of `typed_sources` that takes at most 30 steps, one at a time, `Orders` in other orders to the
//! same transcripts; `Printed` has what these runs print, `Bytes` what is printed where a script is spent or a value is too deep;
//! `Journal` and `JournalOfPlug` are journals, entry by entry. `Accepted` judges sources accepted, so that the laws of `campl_laws`
//! are of these; `Hello` says by them what each run of one source prints. `Endless` and `ClosedLost` show why a lawful configuration
//! lists its ends, and why it doesn't say that channels' types are closed.
#![tactic(auto)]
