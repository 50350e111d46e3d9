//! What modules that are the same but for their places have in common, and that what is printed of a module
//! is parsed again.
#![tactic(auto)]

pub mod laws;
