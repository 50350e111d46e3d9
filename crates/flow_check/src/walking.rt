//! The walk over the code: K5 to K10.
ghost use Rattle.std.specs.Prelude.{◌≡◌, ◌<◌, ◌≤◌, Some, None, length};
ghost use Rattle.component_file.specs.Limits.{IsComponent};
ghost use Rattle.component_check.specs.Rules.{is_at};
ghost use Rattle.call_sequence.specs.Kinds.{entry_row, clean_row};
ghost use Rattle.call_sequence.specs.Flow.{is_stk, flow};
ghost use Rattle.call_sequence.specs.Walk.{instr_in, instr_at, keep, comes_in, is_data, passes, site_ready};
ghost use Rattle.call_sequence.specs.Walk.{good_target, flow_of, after_flow, at_row, past, at_word, at_entry};
ghost use Rattle.call_sequence.specs.Walk.{at_end, next_from};
ghost use Rattle.call_sequence.specs.Verdict.{WalksTo, IsFirstOfFlow, flow_answer};

use crate::judging::flow_at;
use crate::kinds::{CLEAN_ROW, ENTRY_ROW, all_below_any, kind_of, row_below};
use crate::lists::check_lists;
use crate::places::{begins_entry, begins_site, declared};
use call_sequence::{ENTRY_WORDS, Flow, Row, SITE_WORDS, Walk};
use cap_words::Word;
use component_check::{Broken, Group, Rule};
use component_file::{Component, ComponentFields, Kind};
use lcm_isa::{Instr, Reg, decode};

fn instr_of(word: &Word) -> Option<Instr>
    ensures { result ≡ instr_in (Some word.now) }
{
    match word {
        Word::Int(z) => decode(*z),
        _ => None,
    }
}

#[tactic(auto, unfolding(call_sequence::specs::Walk::instr_at))]
fn instr_at(c: &ComponentFields, at: u32) -> Option<Instr>
    ensures { result ≡ instr_at c.now at }
{
    match c.code.as_slice().get(at as usize) {
        Some(word) => instr_of(word),
        None => None,
    }
}

// Goes on where the rule is kept.
#[tactic(auto, unfolding(call_sequence::specs::Walk::keep))]
fn keep(rule: u8, at: u32, kept: bool, next: Walk) -> Walk
    ensures { result ≡ keep rule at kept next }
{
    if kept { next } else { Walk::Broken(rule, at) }
}

// Whether a row that may be current is below another.
fn comes_in(current: Option<Row>, there: &Row) -> bool
    ensures { result ≡ comes_in current there.now }
{
    match current {
        None => true,
        Some(row) => row_below(&row, there),
    }
}

fn is_stk(kind: Kind) -> bool
    ensures { result ≡ is_stk kind }
{
    matches!(kind, Kind::Stk)
}

fn is_data(kind: Kind) -> bool
    ensures { result ≡ is_data kind }
{
    matches!(kind, Kind::DataCap)
}

// The registers that a call passes on as they are.
const PASSED: [Reg; 9] = [
    Reg::C1,
    Reg::C2,
    Reg::A0,
    Reg::A1,
    Reg::A2,
    Reg::A3,
    Reg::G0,
    Reg::G1,
    Reg::G2,
];

fn passes(row: &Row) -> bool
    ensures { result ≡ passes row.now }
{
    all_below_any(row, &PASSED)
}

#[tactic(auto, unfolding(call_sequence::specs::Walk::site_ready))]
fn site_ready(row: &Row) -> bool
    ensures { result ≡ site_ready row.now }
{
    if !is_stk(kind_of(row, Reg::Stk)) {
        return false;
    }
    if !is_data(kind_of(row, Reg::Dat)) {
        return false;
    }
    passes(row)
}

#[tactic(auto, unfolding(call_sequence::specs::Walk::good_target))]
fn good_target(c: &ComponentFields, row: &Row, to: u32) -> bool
    requires { IsComponent c.now }
    ensures { result ≡ good_target c.now row.now to }
{
    if c.fail_at == Some(to) {
        return true;
    }
    if row_below(row, &ENTRY_ROW) && begins_entry(c, to) {
        return true;
    }
    match declared(c, to) {
        None => false,
        Some(there) => row_below(row, &there),
    }
}

fn after_flow(c: &ComponentFields, at: u32, row: &Row, flow: Flow) -> Walk
    requires fits { IsComponent c.now }
    requires here { at < length c.now.code }
    ensures { result ≡ after_flow c.now at row.now flow }
{
    match flow {
        Flow::Breaks(rule) => Walk::Broken(rule, at),
        Flow::Flows(None, after) => Walk::Before(at + 1, after),
        Flow::Flows(Some(to), after) => {
            keep(7, at, good_target(c, row, to), Walk::Before(at + 1, after))
        }
    }
}

fn flow_of(instr: Option<Instr>, at: u32, row: Row) -> Flow
    ensures { result ≡ flow_of instr at row }
{
    match instr {
        None => Flow::Breaks(5),
        Some(instr) => flow_at(instr, at, row),
    }
}

// A word before which a row is current.
#[tactic(auto, unfolding(call_sequence::specs::Walk::at_row))]
fn at_row(c: &ComponentFields, at: u32, row: Row) -> Walk
    requires fits { IsComponent c.now }
    requires here { at < length c.now.code }
    ensures { result ≡ at_row c.now at row }
{
    if begins_site(c, at) {
        let next = Walk::Before(at + SITE_WORDS, Some(CLEAN_ROW));
        return keep(10, at, site_ready(&row), next);
    }
    after_flow(c, at, &row, flow_of(instr_at(c, at), at, row))
}

// A word before which no row is current.
#[tactic(auto, unfolding(call_sequence::specs::Walk::past))]
fn past(c: &ComponentFields, at: u32) -> Walk
    requires fits { IsComponent c.now }
    requires here { at < length c.now.code }
    ensures { result ≡ past c.now at }
{
    let size = if begins_site(c, at) { SITE_WORDS } else { 1 };
    Walk::Before(at + size, None)
}

// A word that isn't an entry's first.
#[tactic(auto, unfolding(call_sequence::specs::Walk::at_word))]
fn at_word(c: &ComponentFields, at: u32, declared: Option<Row>, current: Option<Row>) -> Walk
    requires fits { IsComponent c.now }
    requires here { at < length c.now.code }
    ensures { result ≡ at_word c.now at declared current }
{
    match (declared, current) {
        (Some(row), _) => {
            let kept = comes_in(current, &row);
            keep(8, at, kept, at_row(c, at, row))
        }
        (None, Some(row)) => at_row(c, at, row),
        (None, None) => past(c, at),
    }
}

/// One step of the walk, from an offset at which a row may be current.
#[tactic(auto, unfolding(call_sequence::specs::Walk::next_from))]
pub(crate) fn next_from(c: &ComponentFields, at: u32, current: Option<Row>) -> Walk
    requires { IsComponent c.now }
    ensures { result ≡ next_from c.now at current }
{
    let code_len = c.code.as_slice().len();
    if code_len <= at as usize {
        return match current {
            None => Walk::Ended,
            Some(_) => Walk::Broken(9, code_len as u32),
        };
    }
    if begins_entry(c, at) {
        let next = Walk::Before(at + ENTRY_WORDS, Some(CLEAN_ROW));
        return keep(8, at, comes_in(current, &ENTRY_ROW), next);
    }
    at_word(c, at, declared(c, at), current)
}

// Walks over the code.
fn check_walk(c: &ComponentFields) -> Result<(), Broken>
    requires { IsComponent c.now }
    ensures { WalksTo c.now result }
{
    let mut at = 0;
    let mut current: Option<Row> = None;
    'walk: loop {
        match next_from(c, at, current) {
            Walk::Before(next, row) => {
                at = next;
                current = row;
            }
            Walk::Ended => return Ok(()),
            Walk::Broken(number, place) => {
                let rule = Rule {
                    group: Group::K,
                    number,
                };
                return Err(Broken { rule, place });
            }
        }
    }
}

/// The first rule of the flow of its code that a trusted component breaks: of K1 to K4 the first in
/// their order, at its first place, and else the one of K5 to K10 that the walk over the code comes
/// to. A place is an offset in the code. `Ok` exactly where none is broken.
///
/// It is meant for components that keep C1 to C12 as trusted ones. It takes no memory.
pub fn check_flow(c: &Component) -> Result<(), Broken>
    ensures first { IsFirstOfFlow c.now result }
    // The same as a function.
    ensures is { result ≡ flow_answer c.now }
{
    check_lists(c)?;
    check_walk(c.fields())
}
