//! Reading from left to right: readers and how they are joined, what a call that reads answers, and
//! the laws of reading what was spelled. It has no function.
#![tactic(auto)]
