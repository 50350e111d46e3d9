//! The sequences of the calling convention: the words of a call, of a return and of an entry, and
//! whether they stand in a component's code. Then the rules of the flow of trusted code, K1 to K10, as
//! definitions with their laws.
//!
//! A *site* is a call and the return that follows it. docs/RULES.md has what they do, and the rules in words.
#![tactic(auto)]

mod flow;
pub mod laws;
mod sequences;
mod standing;

pub use flow::{Flow, Row, Walk};
pub use sequences::{call_words, entry_words, return_words};
pub use standing::{is_entry, is_site, site_difference};

/// How many words a call has.
pub const CALL_WORDS: u32 = 16;

/// How many words a return has.
pub const RETURN_WORDS: u32 = 10;

/// How many words a site has: a call and its return.
pub const SITE_WORDS: u32 = CALL_WORDS + RETURN_WORDS;

/// How many words an entry has.
pub const ENTRY_WORDS: u32 = 20;
