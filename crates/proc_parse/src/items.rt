//! Imports, globals and the header.
ghost use Rattle.std.specs.Prelude.{◌≡◌, true, nat_le, ◌<◌, ◌≤◌, codes, IfOk, OnOk, Ok};
ghost use Rattle.proc_parse.specs.Answers.{GivesAs, Gives};
ghost use Rattle.proc_parse.specs.Parts.{imported, global_form, header_numbers};
ghost use Rattle.proc_language.specs.declared.TheConstants.{MOST_ITEMS};
ghost use Rattle.proc_grammar.specs.Grammar.{is_initial, is_length, is_return_count, signed, one_more};
ghost use Rattle.proc_grammar.specs.Lexemes.{word, words_of};
ghost use Rattle.proc_grammar.specs.Reader.{many};
ghost use Rattle.proc_grammar.specs.Reading.{full, next_num, next_field, next_length, next_minus};
ghost use Rattle.proc_grammar.specs.Reading.{next_initial, next_movable};
ghost use Rattle.proc_grammar.specs.Reading.{next_import, next_global, next_header};

use crate::cursor::TokenCursor;
use cap_words::LAST_PLACE;
use proc_grammar::{Language, ModuleHeader, ParseFault};
use proc_language::{Global, Import, LONGEST_ARRAY, MOST_ITEMS, MOST_REGISTERS, MOST_SEALS, Name};
use std::alloc::Global as Heap;

// 2^63, the first number above those of 64 bits with a sign.
const BEYOND_I64: u64 = 9_223_372_036_854_775_808;

/// The imports.
pub fn imports<L: Language>(
    alloc: Heap,
    tokens: &mut TokenCursor<'_, '_>,
) -> Result<Vec<Import>, ParseFault>
    ensures { GivesAs (λ v. v.items) result tokens.new
        (many full (word (codes "import")) one_more
        (next_import (words_of L.made.tokens) true) 0 tokens.old) }
{
    let mut imports = Vec::new(alloc);
    while tokens.is_word(b"import") {
        let next = import::<L>(alloc, tokens, imports.len() as u32)?;
        imports.push(next)?;
    }
    Ok(imports)
}

/// The globals.
pub fn globals<L: Language>(
    alloc: Heap,
    tokens: &mut TokenCursor<'_, '_>,
) -> Result<Vec<Global>, ParseFault>
    ensures { GivesAs (λ v. v.items) result tokens.new
        (many full (word (codes "global")) one_more
        (next_global (words_of L.made.tokens) true) 0 tokens.old) }
{
    let mut globals = Vec::new(alloc);
    while tokens.is_word(b"global") {
        let next = global::<L>(alloc, tokens, globals.len() as u32)?;
        globals.push(next)?;
    }
    Ok(globals)
}

// What an import calls.
struct ImportTarget {
    name: Name,
    arity: u32,
}

// What stands behind the dot of an import.
#[tactic(auto, unfolding(crate::specs::Parts::imported))]
fn imported<L: Language>(
    alloc: Heap,
    tokens: &mut TokenCursor<'_, '_>,
) -> Result<ImportTarget, ParseFault>
    ensures { Gives result tokens.new (imported (words_of L.made.tokens) tokens.old) }
{
    let name = tokens.name::<L>(alloc)?;
    tokens.sign(b'/')?;
    let arity = tokens.up_to(MOST_REGISTERS)?;
    tokens.sign(b';')?;
    Ok(ImportTarget { name, arity })
}

/// The import after so many.
pub fn import<L: Language>(
    alloc: Heap,
    tokens: &mut TokenCursor<'_, '_>,
    count: u32,
) -> Result<Import, ParseFault>
    ensures exact { Gives result tokens.new (next_import (words_of L.made.tokens) true count tokens.old) }
    ensures few { OnOk result (count < MOST_ITEMS) }
{
    let at = tokens.fitting_word(b"import", count < MOST_ITEMS)?;
    let part = tokens.name::<L>(alloc)?;
    tokens.sign(b'.')?;
    let ImportTarget { name, arity } = imported::<L>(alloc, tokens)?;
    Ok(Import {
        at,
        part,
        name,
        arity,
    })
}

// The length of an array.
#[tactic(auto, unfolding(proc_grammar::specs::Reading::next_num, phrases::specs::Reading::one, phrases::specs::Reading::case_next))]
fn array_length(tokens: &mut TokenCursor<'_, '_>) -> Result<u32, ParseFault>
    ensures { Gives result tokens.new (next_num true is_length tokens.old) }
{
    let Some((number, at)) = tokens.take_number() else {
        return Err(ParseFault::Expected(tokens.place()));
    };
    if number < 1 || number > u64::from(LONGEST_ARRAY) {
        return Err(ParseFault::Range(at));
    }
    Ok(number as u32)
}

#[tactic(auto, unfolding(proc_grammar::specs::Reading::next_length, phrases::specs::Reading::case_next))]
fn length(tokens: &mut TokenCursor<'_, '_>) -> Result<Option<u32>, ParseFault>
    ensures { Gives result tokens.new (next_length true tokens.old) }
{
    if tokens.take_sign(b'[').is_none() {
        return Ok(None);
    }
    let length = array_length(tokens)?;
    tokens.sign(b']')?;
    Ok(Some(length))
}

// Whether a `-` stands next. If so, it is taken.
#[tactic(auto, unfolding(proc_grammar::specs::Reading::next_minus, phrases::specs::Reading::case_next))]
fn minus(tokens: &mut TokenCursor<'_, '_>) -> bool
    ensures { next_minus true tokens.old ≡ Ok (result, tokens.new) }
{
    tokens.take_sign(b'-').is_some()
}

// A number that with its sign is one of 64 bits.
#[tactic(auto, unfolding(proc_grammar::specs::Reading::next_num, phrases::specs::Reading::one, phrases::specs::Reading::case_next))]
fn magnitude(tokens: &mut TokenCursor<'_, '_>, negative: bool) -> Result<u64, ParseFault>
    ensures exact { Gives result tokens.new (next_num true (is_initial negative) tokens.old) }
    ensures within { IfOk result (λ n. is_initial negative n ≡ true) }
{
    let Some((number, at)) = tokens.take_number() else {
        return Err(ParseFault::Expected(tokens.place()));
    };
    if is_initial(negative, number) {
        Ok(number)
    } else {
        Err(ParseFault::Range(at))
    }
}

fn is_initial(negative: bool, number: u64) -> bool
    ensures { result ≡ is_initial negative number }
{
    if negative {
        number <= BEYOND_I64
    } else {
        number < BEYOND_I64
    }
}

fn signed(negative: bool, number: u64) -> i64
    requires { is_initial negative number ≡ true }
    ensures { result ≡ signed negative number }
{
    if !negative {
        return number as i64;
    }
    if number == BEYOND_I64 {
        i64::MIN
    } else {
        -(number as i64)
    }
}

#[tactic(auto, unfolding(proc_grammar::specs::Reading::next_initial, phrases::specs::Reading::case_next))]
fn initial(tokens: &mut TokenCursor<'_, '_>) -> Result<Option<i64>, ParseFault>
    ensures { Gives result tokens.new (next_initial true tokens.old) }
{
    if tokens.take_sign(b'=').is_none() {
        return Ok(None);
    }
    let negative = minus(tokens);
    let number = magnitude(tokens, negative)?;
    Ok(Some(signed(negative, number)))
}

// What stands behind the name of a global: its length and its first value, where they are told.
#[tactic(auto, unfolding(crate::specs::Parts::global_form))]
fn global_form(tokens: &mut TokenCursor<'_, '_>) -> Result<(Option<u32>, Option<i64>), ParseFault>
    ensures { Gives result tokens.new (global_form tokens.old) }
{
    let length = length(tokens)?;
    let initial = initial(tokens)?;
    tokens.sign(b';')?;
    Ok((length, initial))
}

/// The global after so many.
fn global<L: Language>(
    alloc: Heap,
    tokens: &mut TokenCursor<'_, '_>,
    count: u32,
) -> Result<Global, ParseFault>
    ensures exact { Gives result tokens.new (next_global (words_of L.made.tokens) true count tokens.old) }
    ensures few { OnOk result (count < MOST_ITEMS) }
{
    let at = tokens.fitting_word(b"global", count < MOST_ITEMS)?;
    let name = tokens.name::<L>(alloc)?;
    let (length, initial) = global_form(tokens)?;
    Ok(Global {
        at,
        name,
        length,
        initial,
    })
}

/// A field of the header: a word, and an address or a seal.
#[tactic(auto, unfolding(proc_grammar::specs::Reading::next_field))]
fn field(tokens: &mut TokenCursor<'_, '_>, word: &[u8]) -> Result<u32, ParseFault>
    ensures { Gives result tokens.new (next_field true word.now tokens.old) }
{
    tokens.word(word)?;
    tokens.up_to(LAST_PLACE)
}

#[tactic(auto, unfolding(proc_grammar::specs::Reading::next_num, phrases::specs::Reading::one, phrases::specs::Reading::case_next))]
fn return_count(tokens: &mut TokenCursor<'_, '_>, first: u32) -> Result<u32, ParseFault>
    ensures { Gives result tokens.new (next_num true (is_return_count first) tokens.old) }
{
    let Some((number, at)) = tokens.take_number() else {
        return Err(ParseFault::Expected(tokens.place()));
    };
    if number > u64::from(MOST_SEALS) || u64::from(first) + number > u64::from(LAST_PLACE) + 1 {
        return Err(ParseFault::Range(at));
    }
    Ok(number as u32)
}

#[tactic(auto, unfolding(proc_grammar::specs::Reading::next_movable, phrases::specs::Reading::case_next))]
fn movable(tokens: &mut TokenCursor<'_, '_>) -> bool
    ensures { next_movable true tokens.old ≡ Ok (result, tokens.new) }
{
    tokens.take_word(b"movable").is_some()
}

// What stands behind the name of a header.
struct HeaderNumbers {
    code: u32,
    data_base: u32,
    closure: u32,
    returns: u32,
    return_count: u32,
    stack: u32,
    movable: bool,
}

#[tactic(auto, unfolding(crate::specs::Parts::header_numbers))]
fn header_numbers(tokens: &mut TokenCursor<'_, '_>) -> Result<HeaderNumbers, ParseFault>
    ensures { Gives result tokens.new (header_numbers tokens.old) }
{
    let code = field(tokens, b"code")?;
    let data_base = field(tokens, b"data")?;
    let closure = field(tokens, b"closure")?;
    let returns = field(tokens, b"returns")?;
    let return_count = return_count(tokens, returns)?;
    let stack = field(tokens, b"stack")?;
    let movable = movable(tokens);
    tokens.sign(b';')?;
    Ok(HeaderNumbers {
        code,
        data_base,
        closure,
        returns,
        return_count,
        stack,
        movable,
    })
}

/// What stands before the items.
pub fn header<L: Language>(
    alloc: Heap,
    tokens: &mut TokenCursor<'_, '_>,
) -> Result<ModuleHeader, ParseFault>
    ensures { Gives result tokens.new (next_header (words_of L.made.tokens) true tokens.old) }
{
    let at = tokens.word(b"module")?;
    let name = tokens.name::<L>(alloc)?;
    let numbers = header_numbers(tokens)?;
    let HeaderNumbers {
        code,
        data_base,
        closure,
        returns,
        return_count,
        stack,
        movable,
    } = numbers;
    Ok(ModuleHeader {
        at,
        name,
        code,
        data_base,
        closure,
        returns,
        return_count,
        stack,
        movable,
    })
}
