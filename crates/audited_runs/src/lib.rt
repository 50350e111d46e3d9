//! What a run writes tells the items of its lines, read as a feed, and passes an audit.
//!
//! Definitions and lemmas alone; the laws are in [`laws`].
#![tactic(auto)]

pub mod laws;
