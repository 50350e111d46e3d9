//! Expressions.
ghost use Rattle.std.specs.Prelude.{◌≡◌, true, false, nat_lt, nat_le, ◌<◌, ◌≤◌, ◌+◌, IfOk, OnOk, IfErr, Ok};
ghost use Rattle.std.specs.Prelude.{is_some};
ghost use Rattle.proc_grammar.specs.declared.fault.ParseFault.TheVariants.{NoMemory};
ghost use Rattle.proc_parse.specs.Answers.{GivesAs, Gives, GivesBy};
ghost use Rattle.proc_language.specs.declared.TheConstants.{MOST_REGISTERS};
ghost use Rattle.proc_grammar.specs.Grammar.{operated};
ghost use Rattle.proc_grammar.specs.Reading.{full, next_expr, inner_expr, next_sum, next_term};
ghost use Rattle.proc_grammar.specs.Reading.{next_args, next_arg, token_arg, expr_with, name_term};
ghost use Rattle.proc_parse.specs.Loops.{bracketed};
ghost use Rattle.proc_grammar.specs.Reading.{number_term, arg_proc};
ghost use Rattle.proc_grammar.specs.Reader.{Input};

use crate::cursor::TokenCursor;
use cap_words::Items;
use proc_grammar::{Language, ParseFault};
use proc_language::{LARGEST_LITERAL, MOST_REGISTERS, MOST_TERMS, Name, Op};
use std::alloc::Global;

// The operation on both.
fn operation<L: Language>(
    alloc: Global,
    op: Op,
    left: L::Expr,
    right: L::Expr,
) -> Result<L::Expr, ParseFault>
    ensures ok { IfOk result (λ e. e ≡ operated L.made op left right) }
    ensures fails { IfErr result (λ e. e ≡ NoMemory) }
{
    let at = L::place_of(&left);
    Ok(L::op_of(alloc, at, op, left, right)?)
}

// The element of this array at this index.
fn element<L: Language>(alloc: Global, name: Name, index: L::Expr) -> Result<L::Expr, ParseFault>
    ensures ok { IfOk result (λ e. e ≡ L.made.element name.at name index) }
    ensures fails { IfErr result (λ e. e ≡ NoMemory) }
{
    Ok(L::element_of(alloc, name.at, name, index)?)
}

/// An expression inside which `room` brackets may be opened. Unless it `fits`, its first token is one
/// too many.
#[cycle(expr)]
#[tactic(auto, unfolding(proc_grammar::specs::Reading::expr_with, proc_grammar::specs::Reading::next_comparison, phrases::specs::Reading::case_next))]
fn expr<L: Language>(
    alloc: Global,
    tokens: &mut TokenCursor<'_, '_>,
    room: u32,
    fits: bool,
) -> Result<L::Expr, ParseFault>
    ensures exact { Gives result tokens.new
        (expr_with L.made true full room (inner_expr L.made true full room) fits tokens.old) }
    ensures within { OnOk result (fits ≡ true) }
{
    let left = sum::<L>(alloc, tokens, room, fits)?;
    let Some(op) = tokens.take_comparing() else {
        return Ok(left);
    };
    let right = sum::<L>(alloc, tokens, room, true)?;
    operation::<L>(alloc, op, left, right)
}

/// An expression inside which `room` brackets may be opened.
pub fn whole<L: Language>(
    alloc: Global,
    tokens: &mut TokenCursor<'_, '_>,
    room: u32,
) -> Result<L::Expr, ParseFault>
    ensures { Gives result tokens.new (next_expr L.made true full room true tokens.old) }
{
    expr::<L>(alloc, tokens, room, true)
}

#[cycle(expr)]
#[tactic(auto, unfolding(proc_grammar::specs::Reading::next_sum))]
fn sum<L: Language>(
    alloc: Global,
    tokens: &mut TokenCursor<'_, '_>,
    room: u32,
    fits: bool,
) -> Result<L::Expr, ParseFault>
    ensures exact { Gives result tokens.new
        (next_sum L.made true full room (inner_expr L.made true full room) fits tokens.old) }
    ensures within { OnOk result (fits ≡ true) }
{
    let mut sum = term::<L>(alloc, tokens, room, fits)?;
    let mut count: u32 = 1;
    loop {
        match tokens.take_adding() {
            None => return Ok(sum),
            Some(op) => {
                let right = term::<L>(alloc, tokens, room, count < MOST_TERMS)?;
                sum = operation::<L>(alloc, op, sum, right)?;
                count += 1;
            }
        }
    }
}

#[cycle(expr)]
#[tactic(auto, unfolding(proc_grammar::specs::Reading::next_term, proc_grammar::specs::Reading::number_term, proc_grammar::specs::Reading::bracket_term, crate::specs::Loops::bracketed, phrases::specs::Reading::case_next))]
fn term<L: Language>(
    alloc: Global,
    tokens: &mut TokenCursor<'_, '_>,
    room: u32,
    fits: bool,
) -> Result<L::Expr, ParseFault>
    ensures exact { Gives result tokens.new
        (next_term L.made true full room (inner_expr L.made true full room) fits tokens.old) }
    ensures within { OnOk result (fits ≡ true) }
{
    if let Some((number, at)) = tokens.take_number() {
        return number_term::<L>(number, at, fits);
    }
    match tokens.take_sign(b'(') {
        Some(at) => bracketed::<L>(alloc, tokens, room, fits, at, b')'),
        None => name_term::<L>(alloc, tokens, room, fits),
    }
}

#[tactic(auto, unfolding(proc_grammar::specs::Reading::number_term))]
fn number_term<L: Language>(number: u64, at: u32, fits: bool) -> Result<L::Expr, ParseFault>
    ensures exact { (i : Input) → Gives result i (number_term
        L.made true full 0 (inner_expr L.made true full 0) fits (record { value = number; at = at }) i) }
    ensures within { OnOk result (fits ≡ true) }
{
    if number > u64::from(LARGEST_LITERAL) {
        return Err(ParseFault::Range(at));
    }
    if !fits {
        return Err(ParseFault::TooMany(at));
    }
    Ok(L::number_of(at, number as u32))
}

/// An expression after the opening bracket at this place, and the closing one. Unless it `fits`, the
/// bracket is one too many.
#[cycle(expr)]
#[tactic(auto, unfolding(crate::specs::Loops::bracketed))]
pub(crate) fn bracketed<L: Language>(
    alloc: Global,
    tokens: &mut TokenCursor<'_, '_>,
    room: u32,
    fits: bool,
    at: u32,
    end: u8,
) -> Result<L::Expr, ParseFault>
    ensures exact { Gives result tokens.new (bracketed L.made room fits end at tokens.old) }
    ensures within { OnOk result (fits ≡ true) }
{
    if !fits || room == 0 {
        return Err(ParseFault::TooMany(at));
    }
    let e = expr::<L>(alloc, tokens, room - 1, true)?;
    tokens.sign(end)?;
    Ok(e)
}

// A variable, an element or a call.
#[cycle(expr)]
#[tactic(auto, unfolding(proc_grammar::specs::Reading::name_term))]
fn name_term<L: Language>(
    alloc: Global,
    tokens: &mut TokenCursor<'_, '_>,
    room: u32,
    fits: bool,
) -> Result<L::Expr, ParseFault>
    ensures exact { Gives result tokens.new
        (name_term L.made true full room (inner_expr L.made true full room) fits tokens.old) }
    ensures within { OnOk result (fits ≡ true) }
{
    let name = tokens.fitting_name::<L>(alloc, fits)?;
    if let Some(at) = tokens.take_sign(b'[') {
        let index = bracketed::<L>(alloc, tokens, room, true, at, b']')?;
        return element::<L>(alloc, name, index);
    }
    if let Some(at) = tokens.take_sign(b'(') {
        let args = Items::of(args::<L>(alloc, tokens, room, at)?);
        return Ok(L::call_of(name.at, name, args));
    }
    Ok(L::var_of(name.at, name))
}

/// What stands after the bracket of a call at this place.
#[cycle(expr)]
#[tactic(auto, unfolding(proc_grammar::specs::Reading::next_args, phrases::specs::Reading::case_next))]
pub fn args<L: Language>(
    alloc: Global,
    tokens: &mut TokenCursor<'_, '_>,
    room: u32,
    at: u32,
) -> Result<Vec<L::Arg>, ParseFault>
    ensures { GivesAs (λ v. v.items) result tokens.new
        (next_args L.made true full room (inner_expr L.made true full room) at tokens.old) }
{
    if room == 0 {
        return Err(ParseFault::TooMany(at));
    }
    let mut args = Vec::new(alloc);
    if tokens.take_sign(b')').is_some() {
        return Ok(args);
    }
    let mut used = 0;
    loop {
        let next = arg::<L>(alloc, tokens, room, used)?;
        used += L::registers_of(&next);
        args.push(next)?;
        if tokens.take_sign(b',').is_none() {
            tokens.sign(b')')?;
            return Ok(args);
        }
    }
}

// An argument after others that take so many registers.
#[cycle(expr)]
#[tactic(auto, unfolding(proc_grammar::specs::Reading::next_arg))]
fn arg<L: Language>(
    alloc: Global,
    tokens: &mut TokenCursor<'_, '_>,
    room: u32,
    used: u32,
) -> Result<L::Arg, ParseFault>
    requires room { 0 < room }
    requires used { used ≤ MOST_REGISTERS }
    ensures exact { Gives result tokens.new
        (next_arg L.made true full room (inner_expr L.made true full room) used tokens.old) }
    ensures few { IfOk result (λ a. used + L.made.registers a ≤ MOST_REGISTERS) }
{
    if let Some(_) = tokens.take_token_word::<L>(b"token") {
        return token_arg::<L>(alloc, tokens);
    }
    if let Some(at) = tokens.take_word(b"proc") {
        return proc_arg::<L>(alloc, tokens, used, at);
    }
    let e = expr::<L>(alloc, tokens, room - 1, used < MOST_REGISTERS)?;
    Ok(L::value_of(e))
}

// A token as an argument, after `token`.
#[tactic(auto, unfolding(proc_grammar::specs::Reading::token_arg))]
fn token_arg<L: Language>(
    alloc: Global,
    tokens: &mut TokenCursor<'_, '_>,
) -> Result<L::Arg, ParseFault>
    requires { is_some L.made.tokens ≡ true }
    ensures exact { GivesBy L.made.tokens result tokens.new
        (λ makes. token_arg L.made true full makes tokens.old) }
    ensures none { IfOk result (λ a. L.made.registers a ≡ 0) }
{
    let name = tokens.name::<L>(alloc)?;
    Ok(L::token_arg_of(name).unwrap())
}

// A procedure as an argument, after the `proc` at this place.
#[tactic(auto, unfolding(proc_grammar::specs::Reading::arg_proc))]
fn proc_arg<L: Language>(
    alloc: Global,
    tokens: &mut TokenCursor<'_, '_>,
    used: u32,
    at: u32,
) -> Result<L::Arg, ParseFault>
    requires { used ≤ MOST_REGISTERS }
    ensures exact { Gives result tokens.new
        (arg_proc L.made true full 0 (inner_expr L.made true full 0) used at tokens.old) }
    ensures few { IfOk result (λ a. used + L.made.registers a ≤ MOST_REGISTERS) }
{
    if used + 1 >= MOST_REGISTERS {
        return Err(ParseFault::TooMany(at));
    }
    let name = tokens.name::<L>(alloc)?;
    Ok(L::pass_of(name))
}
