//! Facts about numbers, lists and options, which proofs of all crates cite.
//!
//! There is nothing to call here: proofs/Lib.antt lists the files, each of one subject.
#![tactic(auto)]
