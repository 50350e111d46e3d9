//! Whether the tokens of a module are spent once each: the typing of tokens.
#![tactic(auto)]

mod check;
mod fault;
pub mod laws;
mod tokens;

pub use check::check_tokens;
pub use fault::TokenFault;
