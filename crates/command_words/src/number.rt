//! Numbers among the words.
ghost use Rattle.std.specs.Prelude.{◌≡◌, ◌≤◌, ◌<◌, ◌^◌, IfSome};
ghost use Rattle.std.specs.Option.{option_map};
ghost use Rattle.command_words.specs.Number.{number_in, number_or, steps_in, size_in, seed_in};

use crate::{DEFAULT_STACK, DEFAULT_STEPS, GREATEST_SEED, GREATEST_STACK, MOST_STEPS};
use std::marker::Model;

/// How many steps a run makes at most, or the fuel of a meaning: 1 to [`MOST_STEPS`]. A contract
/// sees the number.
#[derive(Clone, Copy)]
pub struct Steps {
    number: u64,
}

impl Model for Steps {
    ghost use Rattle.std.specs.Prelude.{ℕ, ◌≤◌};
    ghost use Rattle.command_words.specs.declared.TheConstants.{MOST_STEPS};

    ghost Value = { ℕ };

    ghost view = { λ s. s.number };

    ghost invariant = { λ s. (1 ≤ s.number) × (s.number ≤ MOST_STEPS) };

    ghost inverse = { λ n. record { number = n } };
}

impl Steps {
    /// The number.
    pub fn number(self) -> u64
        ensures same { result ≡ self }
        ensures fits { (1 ≤ result) × (result ≤ MOST_STEPS) }
    {
        self.number
    }
}

/// The number that a generated load comes of: up to [`GREATEST_SEED`]. A contract sees it.
#[derive(Clone, Copy)]
pub struct Seed {
    number: u32,
}

impl Model for Seed {
    ghost use Rattle.std.specs.Prelude.{ℕ, ◌≤◌};
    ghost use Rattle.command_words.specs.declared.TheConstants.{GREATEST_SEED};

    ghost Value = { ℕ };

    ghost view = { λ s. s.number };

    ghost invariant = { λ s. s.number ≤ GREATEST_SEED };

    ghost inverse = { λ n. record { number = n } };
}

impl Seed {
    /// The number.
    pub fn number(self) -> u32
        ensures same { result ≡ self }
        ensures fits { result ≤ GREATEST_SEED }
    {
        self.number
    }
}

// Decimal digits alone that spell a number from `least` to `most`.
#[tactic(auto, unfolding(crate::specs::Number::number_in))]
fn number(word: &str, least: u64, most: u64) -> Option<u64>
    ensures is { result ≡ number_in least most word.now }
    ensures fits { IfSome result (λ n. (least ≤ n) × (n ≤ most)) }
{
    if word.starts_with('+') {
        return None;
    }
    let number = word.parse::<u64>().ok()?;
    if least <= number && number <= most {
        Some(number)
    } else {
        None
    }
}

// The number of an option, or `otherwise` where it isn't used.
fn number_or(word: Option<&str>, least: u64, most: u64, otherwise: u64) -> Option<u64>
    requires { (least ≤ otherwise) × (otherwise ≤ most) }
    ensures is { result ≡ number_or least most otherwise (option_map (λ w. w.now) word.entry) }
    ensures fits { IfSome result (λ n. (least ≤ n) × (n ≤ most)) }
{
    match word {
        Some(word) => number(word, least, most),
        None => Some(otherwise),
    }
}

/// The number of `--steps`.
pub(crate) fn steps_of(word: Option<&str>) -> Option<Steps>
    ensures { result ≡ steps_in (option_map (λ w. w.now) word.entry) }
{
    let number = number_or(word, 1, MOST_STEPS, DEFAULT_STEPS)?;
    Some(Steps { number })
}

/// The number of `--stack`.
pub(crate) fn size_of(word: Option<&str>) -> Option<u32>
    ensures { result ≡ size_in (option_map (λ w. w.now) word.entry) }
{
    let size = number_or(word, 0, GREATEST_STACK as u64, DEFAULT_STACK as u64)?;
    Some(size as u32)
}

/// The number of `--seed`, which must be used.
pub(crate) fn seed_of(word: Option<&str>) -> Option<Seed>
    ensures { result ≡ seed_in (option_map (λ w. w.now) word.entry) }
{
    let number = number(word?, 0, GREATEST_SEED as u64)?;
    Some(Seed {
        number: number as u32,
    })
}
