//! Tests of words, of files and sinks, and of the tokens of texts: what no row of `rows` shows.
#![tactic(auto)]

#[cfg(test)]
mod files;
#[cfg(test)]
mod names;
#[cfg(test)]
mod nested;
#[cfg(test)]
mod tokens;
#[cfg(test)]
mod word_bytes;
#[cfg(test)]
mod words;
