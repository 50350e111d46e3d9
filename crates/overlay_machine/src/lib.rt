//! The overlay machine: the machine of a start, with calls of trusted code in place of their
//! instructions.
//!
//! It runs the same code as the plain machine, but where trusted code stands at the first word of a
//! site or of an entry, the whole sequence is one step, and a return with its sequence is another.
//! A call takes the cells of its frame out of memory; only the newest call that is open can be
//! returned to, and then they come back. docs/OVERLAY.md tells the machine whole.
#![tactic(auto)]

mod cases;
mod copies;
mod flat;
mod frames;
pub mod laws;
mod machine;
mod notes;
mod overlay;
mod words;

pub use frames::Frame;
pub use overlay::{OStep, Overlay};
pub use words::OWord;
