//! Tests of linked parts and of their runs, which the built program doesn't show: lists of parts that no
//! words name, what a start tells by its calls, texts of faults, words that are set by hand, writes that
//! fail, and a debugger by its calls. What it does show are the tables of `rows`.
#![tactic(auto)]

#[cfg(test)]
mod by_hand;
#[cfg(test)]
mod debugger;
#[cfg(test)]
mod linking;
#[cfg(test)]
mod owners;
#[cfg(test)]
mod parts;
#[cfg(test)]
mod stages;
#[cfg(test)]
mod writes;
