//! Linking.
ghost use Rattle.std.specs.Prelude.{◌≡◌, ◌<◌, ◌^◌, ℕ, List, length, map, slice_get, Some, None, OnOk};
ghost use Rattle.component_check.specs.Verdict.{check_from};
ghost use Rattle.linked_starts.specs.Pairs.{by_part, first_in, IsFirstBrokenIn};
ghost use Rattle.linked_starts.specs.Links.{l10, rules_l, rules_of_link, number_of, rule_at};
ghost use Rattle.lcm_machine.specs.Run.{Run};
ghost use Rattle.linked_starts.specs.Parts.{PartSeen, IsPart};
ghost use Rattle.linked_starts.specs.Linked.{Linked};
ghost use Rattle.linked_starts.specs.SealsApart.{PartsApart};
ghost use Rattle.linked_starts.specs.Start.{IsStart};
ghost use Rattle.linked_starts.specs.TrustedCode.{TrustedInCells};
ghost use Rattle.linked_starts.specs.Answer.{AnswersParts, AnswersPlaced};

use crate::part::Part;
use crate::placed::PlacedParts;
use crate::rules::LinkRule;
use crate::started::start_of;
use call_sequence::laws::{sequences_stand, sequences_stand_word_by_word};
use component_check::{Group, Rule};
use linked_starts::{LinkFault, PartPlace, RuleAt, Start};
use std::alloc::Global;

// The number of the rule that is tried so many-th.
fn number_of(tried: u8) -> u8
    ensures { result ≡ number_of tried }
{
    match tried {
        0 => 0,
        1 => 10,
        _ => tried - 1,
    }
}

// A rule that is broken.
fn told(tried: u8, at: PartPlace) -> RuleAt
    ensures { result ≡ rule_at tried at }
{
    RuleAt {
        rule: Rule {
            group: Group::L,
            number: number_of(tried),
        },
        part: at.part,
        place: at.place,
    }
}

fn try_rules(parts: &PlacedParts, stack: u32) -> Result<(), RuleAt>
    ensures { result ≡ check_from rule_at 2 (map by_part (rules_l parts.now stack)) }
{
    if let Some(at) = LinkRule::L1.first(parts, stack) {
        return Err(told(2, at));
    }
    if let Some(at) = LinkRule::L2.first(parts, stack) {
        return Err(told(3, at));
    }
    if let Some(at) = LinkRule::L3.first(parts, stack) {
        return Err(told(4, at));
    }
    if let Some(at) = LinkRule::L4.first(parts, stack) {
        return Err(told(5, at));
    }
    if let Some(at) = LinkRule::L5.first(parts, stack) {
        return Err(told(6, at));
    }
    if let Some(at) = LinkRule::L6.first(parts, stack) {
        return Err(told(7, at));
    }
    if let Some(at) = LinkRule::L7.first(parts, stack) {
        return Err(told(8, at));
    }
    if let Some(at) = LinkRule::L8.first(parts, stack) {
        return Err(told(9, at));
    }
    match LinkRule::L9.first(parts, stack) {
        Some(at) => Err(told(10, at)),
        None => Ok(()),
    }
}

// The first of the rules L1 to L9 that parts with room break, in the first part and at the first place
// there at which they break it.
fn check_links(parts: &PlacedParts, stack: u32) -> Result<(), RuleAt>
    requires { first_in (l10 parts.now) ≡ None }
    ensures first { IsFirstBrokenIn rule_at (rules_of_link parts.now stack) result }
    ensures linked { OnOk result (Linked parts.now stack) }
    ensures apart { OnOk result (PartsApart parts.now) }
    ensures kept { (k : ℕ) (p : PartSeen) → slice_get parts.now k ≡ Some p → IsPart p }
{
    parts.are_kept();
    try_rules(parts, stack)
}

// What stands in the code of trusted parts at a start. This does nothing; its contract is the law.
fn trusted_code_stands()
    ensures { (parts : List PartSeen) (size : ℕ) (s : Run)
        → ((k : ℕ) (p : PartSeen) → slice_get parts k ≡ Some p → IsPart p)
        → Linked parts size → IsStart parts size s → TrustedInCells parts s.maps }
{
    sequences_stand();
    sequences_stand_word_by_word();
}

// The same of parts that are placed.
fn link_placed(alloc: Global, parts: &PlacedParts, stack: u32) -> Result<Start, LinkFault>
    requires { first_in (l10 parts.now) ≡ None }
    ensures { AnswersPlaced parts.now stack result }
{
    check_links(parts, stack)?;
    trusted_code_stands();
    Ok(start_of(alloc, parts, stack)?)
}

/// The start of parts that are linked with a stack of this many words.
///
/// Movable parts are placed after the others and the stack, as docs/RULES.md says; the others stand
/// at their own numbers. Code and data stand at the bases that they have then, with the two halves of
/// what an import names in its slot; linear areas and the stack are integer 0. The registers pc and
/// data are the halves of the one shared export `main`, unsealed; stk is the linear capability over
/// the whole stack, at its end; all others are integer 0. docs/RULES.md has the rules that are asked
/// for first, L10 and then L1 to L9.
///
/// No seal is of two parts, and none is of two sites. No address of a linear area or of the stack is
/// held twice at the start, and what [`lcm_machine::LcmState::run`] ensures keeps it so in every
/// state that runs reach. In the code of trusted parts stand, word by word, the call and the return
/// of each site and the entry of each export, and the seal capability that calls load.
///
/// # Errors
///
/// [`LinkFault::Rule`] exactly where a rule is broken: the first that is, in the first part and at
/// the first place there. [`LinkFault::NoMemory`] where none is and memory was refused.
pub fn link(alloc: Global, parts: &[Part], stack: u32) -> Result<Start, LinkFault>
    requires { length parts.now < 2 ^ 32 }
    ensures { AnswersParts parts.now stack result }
{
    match PlacedParts::of(parts, stack) {
        Ok(placed) => link_placed(alloc, &placed, stack),
        Err(at) => Err(LinkFault::Rule(told(1, at))),
    }
}
