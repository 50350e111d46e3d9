//! Tests of the machine, of regions of frames, of lots of seals, of component files and of rows of kinds,
//! which the built program doesn't show. What it does show is `rows/instructions.rows`,
//! `rows/file-faults.rows`, `rows/component-rules.rows` and `rows/flow-rules.rows`.
#![tactic(auto)]

#[cfg(test)]
mod by_hand;
#[cfg(test)]
mod faults;
#[cfg(test)]
mod kinds;
#[cfg(test)]
mod region;
#[cfg(test)]
mod seals;
#[cfg(test)]
mod spans;
