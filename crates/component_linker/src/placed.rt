//! Parts at the numbers at which they stand in memory and among the seals.
ghost use Rattle.std.specs.Prelude.{◌≡◌, ◌+◌, ◌<◌, ◌≤◌, ◌^◌, ℕ, length, slice_get, Some, None};
ghost use Rattle.std.specs.List.{list_all};
ghost use Rattle.component_file.specs.Limits.{IsComponent};
ghost use Rattle.component_check.specs.Places.{first_place};
ghost use Rattle.component_check.specs.Areas.{is_past_end};
ghost use Rattle.linked_starts.specs.Parts.{PartSeen, IsPart};
ghost use Rattle.linked_starts.specs.Placing.{moved, moved_word, moved_by, lowest_address, lowest_seal};
ghost use Rattle.linked_starts.specs.Placing.{areas_end_late, seals_end_late, points_in_range};
ghost use Rattle.linked_starts.specs.Placing.{points_too_far};
ghost use Rattle.linked_starts.specs.Standing.{move_of, settled, behind, behind_stack, past_fixed};
ghost use Rattle.linked_starts.specs.Standing.{free_of};
ghost use Rattle.linked_starts.specs.Standing.{placed_part, past, placed_from};
ghost use Rattle.linked_starts.specs.Answer.{Places};
ghost use Rattle.linked_starts.specs.Links.{room_test, l10, part_spans, trusted_sites};
ghost use Rattle.linked_starts.specs.Pairs.{first_in};
ghost use Rattle.linked_starts.specs.Regions.{span_of, is_stack_size, stack_span};
ghost use Rattle.linked_starts.specs.Start.{NamesAscend, stack_base_of};

use crate::part::Part;
use cap_words::{LAST_PLACE, LONGEST_STRETCH, SealRange, Word};
use component_file::{
    Area, Component, ComponentFields, Export, Import, MOST_EXPORTS, MOST_IMPORTS, MOST_SITES,
    MOST_WORDS,
};
use lcm_machine::Span;
use linked_starts::{Free, Move, PartPlace, Shift, moved_word};
use std::marker::Model;

/// Parts that are to be linked with a stack of some size. A contract sees the parts as they stand.
///
/// What the rules and the start take from a part, they take from here. There are such only of parts
/// that have room where they stand.
#[derive(Drop)]
pub(crate) struct PlacedParts<'a> {
    parts: &'a [Part],
    free: Free,
    stack: u32,
}

impl<'a> Model for PlacedParts<'a> {
    ghost use Rattle.std.specs.Prelude.{List, ℕ, Some, slice_get, ◌<◌, ◌≤◌, ◌^◌, ◌≡◌, length};
    ghost use Rattle.linked_starts.specs.Parts.{PartSeen, IsPart};
    ghost use Rattle.linked_starts.specs.Standing.{placed, free_of};

    ghost Value = { List PartSeen };

    ghost view = { λ p. placed p.parts.now p.stack };

    ghost invariant = { λ p.
        (length p.parts.now < 2 ^ 32)
        × (p.free ≡ free_of p.parts.now p.stack)
        × ((p.free.address ≤ 2 ^ 21) × (p.free.seal ≤ 2 ^ 21))
        × ((k : ℕ) (q : PartSeen) → slice_get (placed p.parts.now p.stack) k ≡ Some q → IsPart q) };
}

// The lowest address of a component.
fn lowest_address(c: &ComponentFields) -> u32
    ensures { result ≡ lowest_address c.now }
{
    let linear = if c.linear.count == 0 {
        c.code_base
    } else {
        c.linear.base
    };
    c.code_base.min(c.data_base.min(linear))
}

// The lowest seal of a component, its closure seal included.
fn lowest_seal(c: &ComponentFields) -> u32
    ensures { result ≡ lowest_seal c.now }
{
    let first = if c.seals.count() == 0 {
        c.closure
    } else {
        c.seals.base()
    };
    c.closure.min(first)
}

// How a component is moved to what is free, where it is movable.
fn move_of(free: Free, c: &ComponentFields) -> Option<Move>
    ensures { result ≡ move_of free c.now }
{
    if !c.movable {
        return None;
    }
    let addresses = Shift {
        from: lowest_address(c),
        to: free.address,
    };
    let seals = Shift {
        from: lowest_seal(c),
        to: free.seal,
    };
    Some(Move { addresses, seals })
}

// A part, moved so.
fn moved_part(c: &Component, trusted: bool, movement: Option<Move>) -> Placed<'_>
    requires { IsComponent (moved_by movement c.now) }
    ensures { result ≡ record { component = moved_by movement c.now; trusted = trusted } }
{
    let fields = c.fields();
    match movement {
        None => Placed {
            fields,
            trusted,
            closure: fields.closure,
            seals: SealRange::new(fields.seals.base(), fields.seals.count()),
            linear: fields.linear,
            code_base: fields.code_base,
            data_base: fields.data_base,
            movement,
        },
        Some(m) => {
            let seals = &fields.seals;
            let linear = &fields.linear;
            Placed {
                fields,
                trusted,
                closure: m.seals.number(fields.closure),
                seals: SealRange::new(m.seals.base(seals.base(), seals.count()), seals.count()),
                linear: Area {
                    base: m.addresses.base(linear.base, linear.count),
                    count: linear.count,
                },
                code_base: m.addresses.number(fields.code_base),
                data_base: m.addresses.number(fields.data_base),
                movement,
            }
        }
    }
}

// What is free after a part.
fn behind(part: &Placed<'_>) -> Free
    ensures is { result ≡ behind part.now.component }
    ensures small { (result.address ≤ 2 ^ 21) × (result.seal ≤ 2 ^ 21) }
{
    let code_end = part.code_base + part.code().len() as u32;
    let data_end = part.data_base + part.data_words().len() as u32;
    let linear_end = part.linear.base + part.linear.count;
    let seals_end = part.seals.base() + part.seals.count();
    Free {
        address: code_end.max(data_end.max(linear_end)) + 1,
        seal: (part.closure + 1).max(seals_end),
    }
}

impl<'a> PlacedParts<'a> {
    /// These parts with a stack of this size, where each has room; else the first that has none, and what
    /// it lacks.
    pub(crate) fn of(parts: &'a [Part], stack: u32) -> Result<PlacedParts<'a>, PartPlace>
        requires { length parts.now < 2 ^ 32 }
        ensures { Places parts.now stack result }
    {
        let free = free_of(parts, stack);
        match l10(parts, free) {
            Some(at) => Err(at),
            None => Ok(PlacedParts { parts, free, stack }),
        }
    }

    /// How many they are.
    pub(crate) fn len(&self) -> usize
        ensures is { result ≡ length self.now }
        ensures few { result < 2 ^ 32 }
    {
        self.parts.len()
    }

    /// Where the stack begins, as the first part says; 0 where there is none.
    pub(crate) fn stack_base(&self) -> u32
        ensures is { result ≡ stack_base_of self.now }
        ensures in_space { result ≤ LAST_PLACE }
    {
        if self.len() == 0 {
            return 0;
        }
        self.part(0).stack_base()
    }

    /// The stack's span, where there is a part and the stack may have so many words.
    pub(crate) fn stack_span(&self, words: u32) -> Option<Span>
        ensures { result ≡ stack_span self.now words }
    {
        if self.len() == 0 || !is_stack_size(words) {
            return None;
        }
        span(self.stack_base(), words as usize)
    }

    /// Each of them keeps what every part keeps. This does nothing; its contract is the fact.
    pub(crate) fn are_kept(&self)
        ensures { (k : ℕ) (p : PartSeen) → slice_get self.now k ≡ Some p → IsPart p }
    {
        let _stack = self.stack;
    }

    /// The part of an index.
    pub(crate) fn part(&self, index: usize) -> Placed<'a>
        requires { index < length self.now }
        ensures { slice_get self.now index ≡ Some result }
    {
        let parts = self.parts;
        part_from(parts, self.free, index)
    }
}

// What is free after the stack.
fn behind_stack(parts: &[Part], stack: u32) -> Free
    ensures is { result ≡ behind_stack (stack_span parts.now stack) }
    ensures small { (result.address ≤ 2 ^ 21) × (result.seal ≤ 2 ^ 21) }
{
    if parts.len() == 0 || !is_stack_size(stack) {
        return Free {
            address: 0,
            seal: 0,
        };
    }
    let base = parts[0].component().fields().stack_base;
    Free {
        address: base + stack - 1 + 2,
        seal: 0,
    }
}

fn past_fixed(free: Free, part: &Part) -> Free
    requires { (free.address ≤ 2 ^ 21) × (free.seal ≤ 2 ^ 21) }
    ensures is { result ≡ past_fixed free part.now }
    ensures small { (result.address ≤ 2 ^ 21) × (result.seal ≤ 2 ^ 21) }
{
    let component = part.component();
    if component.fields().movable {
        return free;
    }
    let behind = behind(&moved_part(component, part.trusted(), None));
    Free {
        address: free.address.max(behind.address),
        seal: free.seal.max(behind.seal),
    }
}

// What is free after the stack and the parts that aren't movable.
fn free_of(parts: &[Part], stack: u32) -> Free
    ensures is { result ≡ free_of parts.now stack }
    ensures small { (result.address ≤ 2 ^ 21) × (result.seal ≤ 2 ^ 21) }
{
    let mut free = behind_stack(parts, stack);
    for index in 0..parts.len() {
        free = past_fixed(free, &parts[index]);
    }
    free
}

// Whether it ends past the last address, or the last seal.
fn is_past_end(base: u32, count: u32) -> bool
    ensures { result ≡ is_past_end base count }
{
    count != 0 && base as u64 + count as u64 > LAST_PLACE as u64 + 1
}

fn areas_end_late(c: &ComponentFields, m: Move) -> bool
    requires limits { IsComponent c.now }
    requires small { m.addresses.to ≤ 2 ^ 22 }
    ensures { result ≡ areas_end_late (moved m c.now) }
{
    let s = m.addresses;
    let code = is_past_end(s.number(c.code_base), c.code.as_slice().len() as u32);
    let data = is_past_end(s.number(c.data_base), c.data_words.as_slice().len() as u32);
    let linear = is_past_end(s.base(c.linear.base, c.linear.count), c.linear.count);
    code || data || linear
}

fn seals_end_late(c: &ComponentFields, m: Move) -> bool
    requires limits { IsComponent c.now }
    requires small { m.seals.to ≤ 2 ^ 22 }
    ensures { result ≡ seals_end_late (moved m c.now) }
{
    let s = m.seals;
    let closure = s.number(c.closure) > LAST_PLACE;
    let seals = is_past_end(s.base(c.seals.base(), c.seals.count()), c.seals.count());
    closure || seals
}

// Whether the address or the current seal of a word, moved, is an integer of the machine.
fn point_in_range(word: &Word, m: Move) -> bool
    ensures { result ≡ points_in_range (moved_word m word.now) }
{
    match word {
        Word::Mem(c) => m.addresses.has_int(c.fields().addr),
        Word::Seal(c) => m.seals.has_int(c.fields().cur),
        Word::Int(_) => true,
        Word::Sealed(_, _) => true,
    }
}

fn points_in_range(words: &[Word], m: Move) -> bool
    ensures { result ≡ list_all (λ w. points_in_range (moved_word m w)) words.now }
{
    words.iter().all(|word| point_in_range(word, m))
}

// Whether the address or the current seal of some word, moved, is no integer of the machine.
fn points_too_far(c: &ComponentFields, m: Move) -> bool
    ensures { result ≡ points_too_far (moved m c.now) }
{
    if !points_in_range(c.code.as_slice(), m) {
        return true;
    }
    !points_in_range(c.data_words.as_slice(), m)
}

// What a part lacks where so much is free.
fn lacks_room(part: &Part, free: Free) -> Option<u32>
    requires { (free.address ≤ 2 ^ 21) × (free.seal ≤ 2 ^ 21) }
    ensures is { result ≡ first_place (room_test (placed_part free part.now)) }
    ensures kept { result ≡ None → IsPart (placed_part free part.now) }
{
    let fields = part.component().fields();
    let Some(m) = move_of(free, fields) else {
        return None;
    };
    if areas_end_late(fields, m) {
        return Some(0);
    }
    if seals_end_late(fields, m) {
        return Some(1);
    }
    if points_too_far(fields, m) {
        return Some(2);
    }
    None
}

// Rule L10: the first part that has no room where it is to stand.
fn l10(parts: &[Part], first: Free) -> Option<PartPlace>
    requires few { length parts.now < 2 ^ 32 }
    requires small { (first.address ≤ 2 ^ 21) × (first.seal ≤ 2 ^ 21) }
    ensures is { result ≡ first_in (l10 (placed_from first parts.now)) }
    ensures kept { result ≡ None
        → (k : ℕ) (q : PartSeen) → slice_get (placed_from first parts.now) k ≡ Some q → IsPart q }
{
    let mut free = first;
    for index in 0..parts.len() {
        let part = &parts[index];
        if let Some(place) = lacks_room(part, free) {
            return Some(PartPlace {
                part: index as u32,
                place,
            });
        }
        free = past(part, free);
    }
    None
}

// The part of an index, where so much is free before the first of them.
fn part_from(parts: &[Part], first: Free, index: usize) -> Placed<'_>
    requires within { index < length parts.now }
    requires small { (first.address ≤ 2 ^ 21) × (first.seal ≤ 2 ^ 21) }
    requires parts { (k : ℕ) (q : PartSeen) → slice_get (placed_from first parts.now) k ≡ Some q → IsPart q }
    ensures { slice_get (placed_from first parts.now) index ≡ Some result }
{
    let mut free = first;
    for k in 0..index {
        free = past(&parts[k], free);
    }
    placed_at(&parts[index], free)
}

// A part, where so much is free.
fn placed_at(part: &Part, free: Free) -> Placed<'_>
    requires { IsComponent (settled free part.now.component) }
    ensures { result ≡ placed_part free part.now }
{
    let component = part.component();
    moved_part(component, part.trusted(), move_of(free, component.fields()))
}

// What is free after it, where it is movable; else as much as before.
fn past(part: &Part, free: Free) -> Free
    requires fits { IsComponent (settled free part.now.component) }
    requires small { (free.address ≤ 2 ^ 21) × (free.seal ≤ 2 ^ 21) }
    ensures is { result ≡ past free part.now }
    ensures small { (result.address ≤ 2 ^ 21) × (result.seal ≤ 2 ^ 21) }
{
    if !part.component().fields().movable {
        return free;
    }
    behind(&placed_at(part, free))
}

/// Whether a stack may have so many words.
pub(crate) fn is_stack_size(words: u32) -> bool
    ensures { result ≡ is_stack_size words }
{
    2 <= words && words <= LONGEST_STRETCH
}

/// A part at the numbers at which it stands.
#[derive(Drop)]
pub(crate) struct Placed<'a> {
    fields: &'a ComponentFields,
    trusted: bool,
    closure: u32,
    seals: SealRange,
    linear: Area,
    code_base: u32,
    data_base: u32,
    movement: Option<Move>,
}

impl<'a> Model for Placed<'a> {
    ghost use Rattle.linked_starts.specs.Parts.{PartSeen};
    ghost use Rattle.linked_starts.specs.Placing.{words_at};
    ghost use Rattle.component_file.specs.Limits.{IsComponent};

    ghost Value = { PartSeen };

    ghost view = { λ p. record {
      component = record p.fields.now {
        closure = p.closure;
        seals = p.seals;
        linear = p.linear;
        code_base = p.code_base;
        code = words_at p.movement p.fields.now.code;
        data_base = p.data_base;
        data_words = words_at p.movement p.fields.now.data_words;
      };
      trusted = p.trusted;
    } };

    ghost invariant = { λ p. IsComponent (record p.fields.now {
      closure = p.closure;
      seals = p.seals;
      linear = p.linear;
      code_base = p.code_base;
      code = words_at p.movement p.fields.now.code;
      data_base = p.data_base;
      data_words = words_at p.movement p.fields.now.data_words;
    }) };
}

// So many addresses from a first one on; none are no span.
fn span(base: u32, count: usize) -> Option<Span>
    requires in_space { base ≤ LAST_PLACE }
    requires few { count ≤ LONGEST_STRETCH }
    ensures { result ≡ span_of base count }
{
    if count == 0 {
        return None;
    }
    let end = base + count as u32 - 1;
    Some(Span { base, end })
}

/// Words of a part at the numbers at which they stand. A contract sees the list of the words.
///
/// A part describes words and holds none: what stands in a machine's memory is made anew from
/// the description, so this doesn't double a linear word of any machine.
#[derive(Drop)]
pub(crate) struct Words<'a> {
    words: &'a [Word],
    movement: Option<Move>,
}

impl<'a> Model for Words<'a> {
    ghost use Rattle.std.specs.Prelude.{List};
    ghost use Rattle.cap_words.specs.declared.Word.{Word};
    ghost use Rattle.cap_words.specs.WordBytes.{WordFits, IsUnsealed};
    ghost use Rattle.component_file.specs.Limits.{Each};
    ghost use Rattle.linked_starts.specs.Placing.{words_at};

    ghost Value = { List Word };

    ghost view = { λ w. words_at w.movement w.words.now };

    ghost invariant = { λ w. Each (λ x. WordFits x × IsUnsealed x) (words_at w.movement w.words.now) };
}

impl<'a> Words<'a> {
    /// How many they are.
    pub(crate) fn len(&self) -> usize
        ensures { result ≡ length self.now }
    {
        self.words.len()
    }

    /// The word of an index, made anew.
    pub(crate) fn word(&self, index: usize) -> Word
        requires { index < length self.now }
        ensures { slice_get self.now index ≡ Some result }
    {
        let words = self.words;
        match self.movement {
            None => words[index].made_anew(),
            Some(m) => moved_word(&words[index], m),
        }
    }
}

impl<'a> Placed<'a> {
    /// Whether it is trusted.
    pub(crate) fn trusted(&self) -> bool
        ensures { result ≡ self.now.trusted }
    {
        self.trusted
    }

    /// The address of its first code word.
    pub(crate) fn code_base(&self) -> u32
        ensures is { result ≡ self.now.component.code_base }
        ensures in_space { result ≤ LAST_PLACE }
    {
        self.code_base
    }

    /// Its code words.
    pub(crate) fn code(&self) -> Words<'a>
        ensures is { result ≡ self.now.component.code }
        ensures some { 1 ≤ length result }
        ensures few { length result ≤ MOST_WORDS }
    {
        Words {
            words: self.fields.code.as_slice(),
            movement: self.movement,
        }
    }

    /// The address of its first data word.
    pub(crate) fn data_base(&self) -> u32
        ensures is { result ≡ self.now.component.data_base }
        ensures in_space { result ≤ LAST_PLACE }
    {
        self.data_base
    }

    /// Its data words.
    pub(crate) fn data_words(&self) -> Words<'a>
        ensures is { result ≡ self.now.component.data_words }
        ensures some { 1 ≤ length result }
        ensures few { length result ≤ MOST_WORDS }
    {
        Words {
            words: self.fields.data_words.as_slice(),
            movement: self.movement,
        }
    }

    /// Its name.
    pub(crate) fn name(&self) -> &'a [u8]
        ensures { result.now ≡ self.now.component.name }
    {
        self.fields.name.as_slice()
    }

    /// The address at which it says that the stack begins.
    pub(crate) fn stack_base(&self) -> u32
        ensures is { result ≡ self.now.component.stack_base }
        ensures in_space { result ≤ LAST_PLACE }
    {
        self.fields.stack_base
    }

    /// The seal of its entries.
    pub(crate) fn closure(&self) -> u32
        ensures { result ≡ self.now.component.closure }
    {
        self.closure
    }

    /// The seals of its return points.
    pub(crate) fn seals(&self) -> &SealRange
        ensures { result.now ≡ self.now.component.seals }
    {
        &self.seals
    }

    /// The spans of its code, its data and its linear area. An empty linear area has none.
    pub(crate) fn spans(&self) -> [Option<Span>; 3]
        ensures { result ≡ part_spans self.now }
    {
        let code = span(self.code_base, self.code().len());
        let words = span(self.data_base, self.data_words().len());
        let linear = span(self.linear.base, self.linear.count as usize);
        [code, words, linear]
    }

    /// What it wants to call.
    pub(crate) fn imports(&self) -> &'a [Import]
        ensures is { result.now ≡ self.now.component.imports }
        ensures few { length result.now ≤ MOST_IMPORTS }
    {
        self.fields.imports.as_slice()
    }

    /// What it lets others call.
    pub(crate) fn exports(&self) -> &'a [Export]
        ensures is { result.now ≡ self.now.component.exports }
        ensures ascend { NamesAscend result.now }
        ensures few { length result.now ≤ MOST_EXPORTS }
    {
        self.fields.exports.as_slice()
    }

    /// The offsets in its code of its calls, as it declares them.
    pub(crate) fn sites(&self) -> &'a [u32]
        ensures is { result.now ≡ self.now.component.sites }
        ensures few { length result.now ≤ MOST_SITES }
    {
        self.fields.sites.as_slice()
    }

    /// How many sites it has that count: a trusted part's.
    pub(crate) fn trusted_sites(&self) -> usize
        ensures is { result ≡ trusted_sites self.now }
        ensures few { result ≤ MOST_SITES }
    {
        if !self.trusted {
            return 0;
        }
        self.fields.sites.as_slice().len()
    }
}
