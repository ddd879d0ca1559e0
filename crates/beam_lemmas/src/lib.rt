//! Lemmas on lists, tests, options and results that proofs of several crates use, and that `std` hasn't. They stand in `proofs/`.
#![tactic(auto)]
