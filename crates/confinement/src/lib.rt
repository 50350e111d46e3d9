//! That code outside is confined, on the machine that runs.
//!
//! Definitions and lemmas alone; the law is in [`laws`].
#![tactic(auto)]

pub mod laws;
