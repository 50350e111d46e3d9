//! The headline, and what is told of the plain machine alone: laws of the lines of runs.
#![tactic(auto)]

pub mod laws;
