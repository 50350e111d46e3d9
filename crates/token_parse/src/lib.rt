//! Modules with tokens, from their texts.
#![tactic(auto)]

mod language;
pub mod laws;
mod parse;

pub use language::Tokens;
pub use parse::parse_tokens;
pub use proc_grammar::ParseFault;
