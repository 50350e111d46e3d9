//! Tests of the top call, over files and a sink in memory that fail, and of the machine that is kept: what a
//! built program doesn't show. What it does show are the tables of `rows`.
#![tactic(auto)]

#[cfg(test)]
mod call;
#[cfg(test)]
mod components;
#[cfg(test)]
mod faults;
#[cfg(test)]
mod images;
#[cfg(test)]
mod kept;
#[cfg(test)]
mod sources;
#[cfg(test)]
mod writes;
