//! Two sources that mean the same and call out: two ways to pass a number to a callback, and two mains.
//!
//! The crate has definitions and lemmas alone. `specs/Passes` has the two modules that pass a number,
//! `specs/CalledBack` what is said of a run in which the callback is called, and `specs/Callers` the two with
//! main; `proofs` has what they mean, and their runs beside code outside.
#![tactic(auto)]

pub mod laws;
