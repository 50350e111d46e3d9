//! What the picture of a run says of the run.
//!
//! Definitions and lemmas alone; the laws are in [`laws`].
#![tactic(auto)]

pub mod laws;
