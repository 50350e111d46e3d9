//! The fields that only lines of traces have.
ghost use Rattle.std.specs.Prelude.{◌≡◌};
ghost use Rattle.std.specs.List.{list_all};
ghost use Rattle.cap_words.specs.Names.{is_name};
ghost use Rattle.line_fields.specs.Numbers.{number_in};
ghost use Rattle.line_fields.specs.Words.{is_word};
ghost use Rattle.line_fields.specs.Fields.{GivesAs, meant, tested};
ghost use Rattle.run_audit.specs.declared.TheConstants.{LAST_COUNT};
ghost use Rattle.run_audit.specs.Lines.{is_direction, is_number_of_cause, is_cause, is_address, words_left};

use crate::{LAST_CAUSE, LAST_COUNT};
use line_fields::{Parts, behind, integer_in, is_text, is_word, number_in};

// `in` or `out`.
fn is_direction(text: &[u8]) -> bool
    ensures { result ≡ is_direction text.now }
{
    is_text("in", text) || is_text("out", text)
}

/// The next field, which is a direction.
#[tactic(auto, unfolding(line_fields::specs::Fields::tested))]
pub(crate) fn direction<'a>(fields: &mut Parts<'a>) -> Option<&'a [u8]>
    ensures { GivesAs (λ t. t.now) result fields.new (tested is_direction fields.old) }
{
    let field = fields.part()?;
    if is_direction(field) {
        Some(field)
    } else {
        None
    }
}

fn is_number_of_cause(number: Option<u64>) -> bool
    ensures { result ≡ is_number_of_cause number }
{
    match number {
        Some(number) => number != 0,
        None => false,
    }
}

// `F1` to `F14`.
#[tactic(auto, unfolding(crate::specs::Lines::is_cause))]
fn is_cause(text: &[u8]) -> bool
    ensures { result ≡ is_cause text.now }
{
    match behind(b"F", text) {
        Some(number) => is_number_of_cause(number_in(number, LAST_CAUSE)),
        None => false,
    }
}

/// The next field, which is a cause of a failure.
#[tactic(auto, unfolding(line_fields::specs::Fields::tested))]
pub(crate) fn cause<'a>(fields: &mut Parts<'a>) -> Option<&'a [u8]>
    ensures { GivesAs (λ t. t.now) result fields.new (tested is_cause fields.old) }
{
    let field = fields.part()?;
    if is_cause(field) { Some(field) } else { None }
}

// An address, or `-`.
#[tactic(auto, unfolding(crate::specs::Lines::is_address))]
fn is_address(text: &[u8]) -> bool
    ensures { result ≡ is_address text.now }
{
    is_text("-", text) || integer_in(text).is_some()
}

/// The next field, which is an address or `-`.
#[tactic(auto, unfolding(line_fields::specs::Fields::tested))]
pub(crate) fn address<'a>(fields: &mut Parts<'a>) -> Option<&'a [u8]>
    ensures { GivesAs (λ t. t.now) result fields.new (tested is_address fields.old) }
{
    let field = fields.part()?;
    if is_address(field) { Some(field) } else { None }
}

/// The next field, which is a count of steps.
#[tactic(auto, unfolding(line_fields::specs::Fields::meant))]
pub(crate) fn count(fields: &mut Parts<'_>) -> Option<u64>
    ensures { GivesAs (λ n. n) result fields.new (meant (number_in LAST_COUNT) fields.old) }
{
    let field = fields.part()?;
    number_in(field, LAST_COUNT)
}

/// All the fields that are left, which are words.
#[tactic(auto, unfolding(crate::specs::Lines::words_left))]
pub(crate) fn words<'a>(fields: &mut Parts<'a>) -> Option<Parts<'a>>
    ensures { GivesAs (λ w. w) result fields.new (words_left fields.old) }
{
    let words = fields.again();
    while !fields.is_over() {
        let field = fields.part()?;
        if !is_word(field) {
            return None;
        }
    }
    Some(words)
}
