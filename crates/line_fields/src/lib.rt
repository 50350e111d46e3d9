//! What runs write, read again: lines cut into fields, the texts of single fields, and feeds.
//!
//! Whoever reads lines of runs reads them with this: a text is cut at its newlines and a line at its blanks,
//! one part after another, and a field is a name, a number, a word, or tells where a jump leads. Numbers and
//! words are read of the one text that each has.
//!
//! A feed is a text of lines as runs write them. Two kinds of lines count, those of entries into trusted code
//! and those of answers of code that isn't trusted, and the line after an entry that tells of its closure
//! pairs. docs/FORMATS.md has the lines and the rules.
#![tactic(auto)]

mod entry;
mod fault;
mod forms;
mod item;
pub mod laws;
mod left;
mod line;
mod marks;
mod number;
mod reading;
mod seen;
mod word;

pub use fault::FeedFault;
pub use forms::{Handed, is_text};
pub use left::Parts;
pub use marks::{behind, cut};
pub use number::{integer_in, number_in};
pub use reading::read_feed;
pub use word::{is_word, word_in};

/// The largest number of 32 bits.
pub const LAST_NATURAL: u64 = 4_294_967_295;

/// The largest integer of 64 bits.
pub const LAST_INTEGER: u64 = 9_223_372_036_854_775_807;
