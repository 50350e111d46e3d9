//! What sources in either language mean by their tokens: the laws of sources and the law of tokens, joined.
#![tactic(auto)]

pub mod laws;
