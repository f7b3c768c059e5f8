//! Facts about lists, options, results and numbers that the standard library doesn't have, each stated once and as generally as possible, for
//! the proofs of all crates. The crate has no code: `proofs/Lib.antt` says which file has what. A lemma that speaks of paths, texts, nodes or
//! calls belongs to the crate of its subject.
#![tactic(auto)]
