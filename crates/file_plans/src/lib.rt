//! The order in which a call of the program reads its files, and why it ends before it did what the words
//! ask for.
//!
//! A plan reads a file and goes on with its bytes, ends the call, or has made something. `docs/COMMANDS.md`
//! has the order in which each command reads.
#![tactic(auto)]

mod reading;
mod refusal;

pub use reading::read;
pub use refusal::{Refusal, Stop};

/// The longest file that is read, in bytes.
pub const LONGEST_FILE: u32 = 4_194_304;
