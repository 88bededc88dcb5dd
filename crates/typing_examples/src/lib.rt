//! Worked examples of the definitions of `campl_types`: names, types, polarity, patterns, expressions and
//! processes, each accepted or refused as the language's rules want it. They stand in `proofs/`, a file a
//! subject; small trees, written down by the short ways of `proofs/Sources`.
#![tactic(auto)]
