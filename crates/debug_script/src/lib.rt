//! Scripts for a debugger: their commands, and the first line that is none.
//!
//! A script is judged whole before its first command is done. docs/DEBUGGER.md tells what each command does.
#![tactic(auto)]

mod command;
mod fault;
pub mod laws;
mod script;

pub use command::{DebugCommand, command_in};
pub use fault::ScriptFault;
pub use script::{Script, script_of};

/// The most lines of a script.
pub const MOST_LINES: u32 = 1_000;

/// The most steps that one command makes.
pub const MOST_STEPS: u64 = 1_000_000;

/// The last address that a command names.
pub const LAST_ADDRESS: u64 = 1_048_575;
