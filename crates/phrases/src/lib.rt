//! Grammars as phrases of tokens, the readers that read them, and what it is that a reader reads just
//! what a phrase spells: for definitions and proofs, over tokens and faults of any kind.
#![tactic(auto)]
