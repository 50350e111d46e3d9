//! What `debug` writes: the replies of a debugger to the commands of a script.
//!
//! docs/DEBUGGER.md has the commands and their replies.
#![tactic(auto)]

pub mod laws;
mod reply;
mod run;

pub use run::{DebugFault, debug, run_script};
