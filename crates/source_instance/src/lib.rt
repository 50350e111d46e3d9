//! A start of which the theorem of sources speaks: a module with one procedure, and a part that isn't
//! trusted, which enters the procedure, is called by it, answers, and is left to.
//!
//! The crate has definitions and lemmas alone. `proofs/Module` has the module and its component, `Parts`
//! the other part, and `Start` the start; `Enters`, `Calls` and `Leaves` step the overlay from there, and
//! `Run` tells what these steps write and mean.
#![tactic(auto)]

pub mod laws;
