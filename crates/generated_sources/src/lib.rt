//! The code of the sources of `typed_sources`: some of it written out, as it was worked by hand (`proofs/Listed`), and all of
//! it breaks no rule (`proofs/Sound`). Code that runs gives as many steps and the same transcripts as the runs of the sources
//! in `worked_runs` (`proofs/Runs`).
#![tactic(auto)]
