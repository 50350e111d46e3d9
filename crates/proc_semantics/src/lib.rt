//! What a source means, said without instructions: a definition, and the laws that hold of it.
//!
//! `specs/` has the definition: `Told` what a meaning tells under a fuel, `Values` what procedures work
//! on, `Meaning` the recursion over programs. [`laws`] has what more fuel does, and that the meaning obeys
//! its recursion. `docs/LANGUAGE.md` says the rules in plain words, beside the names used here. The code
//! that goes through a feed by these rules is another crate.
#![tactic(auto)]

pub mod laws;
mod value;

pub use value::{Activation, Pair, Register, Target, Value};
