//! The tokens of a text: names, numbers, signs and newlines, each with its place.
#![tactic(auto)]

mod fault;
pub mod laws;
mod line;
mod piece;
mod text;
mod token;

pub use fault::ScanFault;
pub use text::scan;
pub use token::{Token, TokenKind};

/// The most bytes that a line has, without its newline.
pub const LONGEST_LINE: u32 = 512;

/// The largest number that a text can have, which is 2^63.
pub const LARGEST_NUMBER: u64 = 9_223_372_036_854_775_808;
