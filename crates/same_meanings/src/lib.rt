//! When two lists of modules mean the same: a relation of the computations of refined meanings, and lemmas
//! for each of their steps.
//!
//! The crate has definitions and lemmas alone. `specs/Observed` says what it is to mean the same,
//! `specs/Same` has the relation, and `proofs` lemmas on both.
#![tactic(auto)]
