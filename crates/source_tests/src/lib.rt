//! Tests of sources: what no row of `rows` shows, since `stk` prints nothing of it, or refuses it before.
#![tactic(auto)]

#[cfg(test)]
mod faults;
#[cfg(test)]
mod meanings;
#[cfg(test)]
mod rules;
#[cfg(test)]
mod token_places;
