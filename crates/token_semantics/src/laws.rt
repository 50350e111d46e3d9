//! What becomes of tokens. These functions do nothing; their contracts are the laws.
ghost use Rattle.token_semantics.specs.Law.{PlainAreAccepted, TokensAreSpent};

/// Accepted modules are never stuck, mean what their erasures mean, spend no right twice, and lose none of a
/// procedure that returns.
///
/// A module is accepted if its names are resolved and its tokens are typed, or if it has none. With every
/// stack, feed and fuel the modules tell the events, the end and the ticks that they tell without their
/// tokens. A procedure that ended by `return` or after its last statement got no number twice, by making it
/// or by its caller. Each that it got it spent once or handed on once, and never both, and it is spent: once,
/// by this procedure or another that ended.
#[tactic(auto, using(crate::proofs::Spent::tokens_are_spent))]
pub fn tokens_are_spent()
    ensures { TokensAreSpent }
{}

/// A plain module with resolved names is the erasure of an accepted one.
///
/// That has no tokens.
pub fn plain_modules_are_token_modules()
    ensures { PlainAreAccepted }
{}
