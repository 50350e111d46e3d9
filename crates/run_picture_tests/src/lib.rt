//! Tests of pictures, apart from them: a crate with tests is proved twice.
#![tactic(auto)]

#[cfg(test)]
mod tests;
