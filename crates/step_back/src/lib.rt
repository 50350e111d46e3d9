//! A debugger: a machine that goes forward and back, and stops at breakpoints.
//!
//! docs/DEBUGGER.md tells what its calls do and what is proved of them.
#![tactic(auto)]

mod debugger;
pub mod laws;
mod stops;

pub use debugger::{Debugger, MOST_DEPTH, Stop};
pub use stops::MOST_STOPS;
