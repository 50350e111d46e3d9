//! Tests of the call of `stk_draw`, over files and a sink in memory.
#![tactic(auto)]

#[cfg(test)]
mod tests;
