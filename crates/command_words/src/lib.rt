//! The words of the command line: what they ask for, and nothing where they are no command.
//!
//! `clap` takes the words apart, as one simple command: an action, options with a value each, and
//! part words. What follows from the action is in [`command_of`]. What the calls of both programs have alike
//! stands here too: the order in which they read, what they answer, and the words that they are handed.
#![tactic(auto)]

mod action;
mod command;
mod fault;
pub mod laws;
mod line;
mod name;
mod number;
mod parse;
mod part;
mod words;

pub use action::command_of;
pub use command::{Command, ComponentDeed, LinkDeed, Linked};
pub use fault::WordsFault;
pub use name::FileName;
pub use number::{Seed, Steps};
pub use parse::{file_by, matches_by};
pub use part::{Ending, Mark, PartWord, PartWords};
pub use words::call_words;

/// The most part words of a command.
pub const MOST_PARTS: usize = 16;

/// The most steps of a run, and the most fuel of a meaning.
pub const MOST_STEPS: u64 = 1_000_000_000;

/// The steps or the fuel where `--steps` isn't used.
pub const DEFAULT_STEPS: u64 = 1_000_000;

/// The greatest number that `--stack` takes. Which sizes a stack may have is a rule of linking.
pub const GREATEST_STACK: u32 = 4_294_967_295;

/// The size of the stack where `--stack` isn't used, in words.
pub const DEFAULT_STACK: u32 = 4_096;

/// The greatest seed.
pub const GREATEST_SEED: u32 = 2_147_483_647;
