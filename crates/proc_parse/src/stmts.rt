//! Statements.
ghost use Rattle.std.specs.Prelude.{◌≡◌, true, ◌<◌, Ok, is_some, if◌then◌else◌};
ghost use Rattle.proc_parse.specs.Answers.{GivesAs, Gives, GivesBy};
ghost use Rattle.proc_parse.specs.Parts.{ended_value};
ghost use Rattle.proc_grammar.specs.Reading.{full, next_stmts, inner_stmts, stmts_with, next_stmt};
ghost use Rattle.proc_grammar.specs.Reading.{plain_stmt};
ghost use Rattle.proc_grammar.specs.Reading.{next_block, if_behind, while_behind};
ghost use Rattle.proc_grammar.specs.Reading.{return_behind, halt_behind, set_behind};
ghost use Rattle.proc_grammar.specs.Reading.{token_behind};
ghost use Rattle.proc_grammar.specs.Reading.{set_at_behind, calls_behind, name_stmt};

use crate::cursor::TokenCursor;
use crate::exprs::{args, bracketed, whole};
use cap_words::Items;
use proc_grammar::{Language, ParseFault};
use proc_language::Name;
use std::alloc::Global;

/// The statements that stand here, inside which `room` brackets may be opened.
#[cycle(stmt)]
#[tactic(auto, unfolding(proc_grammar::specs::Reading::stmts_with))]
fn stmts<L: Language>(
    alloc: Global,
    tokens: &mut TokenCursor<'_, '_>,
    room: u32,
) -> Result<Vec<L::Stmt>, ParseFault>
    ensures { GivesAs (λ v. v.items) result tokens.new
        (stmts_with L.made true full room (inner_stmts L.made true full room) tokens.old) }
{
    let mut stmts = Vec::new(alloc);
    while tokens.starts_stmt::<L>() {
        let next = stmt::<L>(alloc, tokens, room)?;
        stmts.push(next)?;
    }
    Ok(stmts)
}

/// The statements of a body, inside which `room` brackets may be opened.
pub fn whole_body<L: Language>(
    alloc: Global,
    tokens: &mut TokenCursor<'_, '_>,
    room: u32,
) -> Result<Vec<L::Stmt>, ParseFault>
    ensures { GivesAs (λ v. v.items) result tokens.new (next_stmts L.made true full room tokens.old) }
{
    stmts::<L>(alloc, tokens, room)
}

#[cycle(stmt)]
#[tactic(auto, unfolding(proc_grammar::specs::Reading::next_stmt))]
fn stmt<L: Language>(
    alloc: Global,
    tokens: &mut TokenCursor<'_, '_>,
    room: u32,
) -> Result<L::Stmt, ParseFault>
    ensures { Gives result tokens.new
        (next_stmt L.made true full room (inner_stmts L.made true full room) tokens.old) }
{
    if let Some(at) = tokens.take_token_word::<L>(b"make") {
        return token_stmt::<L>(alloc, tokens, at, true);
    }
    if let Some(at) = tokens.take_token_word::<L>(b"spend") {
        return token_stmt::<L>(alloc, tokens, at, false);
    }
    plain_stmt::<L>(alloc, tokens, room)
}

// After `make` or `spend`: a token is filled, or spent.
#[tactic(auto, unfolding(proc_grammar::specs::Reading::token_behind))]
fn token_stmt<L: Language>(
    alloc: Global,
    tokens: &mut TokenCursor<'_, '_>,
    at: u32,
    fills: bool,
) -> Result<L::Stmt, ParseFault>
    requires { is_some L.made.tokens ≡ true }
    ensures { GivesBy L.made.tokens result tokens.new
        (λ makes. token_behind L.made true full (if fills then makes.make else makes.spend) at tokens.old) }
{
    let name = tokens.name::<L>(alloc)?;
    let end = tokens.sign(b';')?;
    let made = if fills {
        L::make_of(at, end, name)
    } else {
        L::spend_of(at, end, name)
    };
    Ok(made.unwrap())
}

// A statement that has to do with no token.
#[cycle(stmt)]
#[tactic(auto, unfolding(proc_grammar::specs::Reading::plain_stmt, phrases::specs::Reading::case_next))]
fn plain_stmt<L: Language>(
    alloc: Global,
    tokens: &mut TokenCursor<'_, '_>,
    room: u32,
) -> Result<L::Stmt, ParseFault>
    ensures { Gives result tokens.new
        (plain_stmt L.made true full room (inner_stmts L.made true full room) tokens.old) }
{
    if let Some(at) = tokens.take_word(b"if") {
        return if_stmt::<L>(alloc, tokens, room, at);
    }
    if let Some(at) = tokens.take_word(b"while") {
        return while_stmt::<L>(alloc, tokens, room, at);
    }
    if let Some(at) = tokens.take_word(b"return") {
        return return_stmt::<L>(alloc, tokens, room, at);
    }
    if let Some(at) = tokens.take_word(b"halt") {
        return halt_stmt::<L>(alloc, tokens, room, at);
    }
    name_stmt::<L>(alloc, tokens, room)
}

// What stands in curly brackets, and the place of the closing one.
#[derive(Drop)]
struct Braced<S: Drop> {
    stmts: Items<S>,
    end: u32,
}

#[cycle(stmt)]
#[tactic(auto, unfolding(proc_grammar::specs::Reading::next_block))]
fn block<L: Language>(
    alloc: Global,
    tokens: &mut TokenCursor<'_, '_>,
    room: u32,
) -> Result<Braced<L::Stmt>, ParseFault>
    ensures { GivesAs (λ b. (b.stmts, b.end)) result tokens.new
        (next_block L.made true full room (inner_stmts L.made true full room) tokens.old) }
{
    let at = tokens.sign(b'{')?;
    if room == 0 {
        return Err(ParseFault::TooMany(at));
    }
    let stmts = Items::of(stmts::<L>(alloc, tokens, room - 1)?);
    let end = tokens.sign(b'}')?;
    Ok(Braced { stmts, end })
}

#[cycle(stmt)]
fn if_stmt<L: Language>(
    alloc: Global,
    tokens: &mut TokenCursor<'_, '_>,
    room: u32,
    at: u32,
) -> Result<L::Stmt, ParseFault>
    ensures { Gives result tokens.new
        (if_behind L.made true full room (inner_stmts L.made true full room) at tokens.old) }
{
    let condition = whole::<L>(alloc, tokens, room)?;
    let body = block::<L>(alloc, tokens, room)?;
    if tokens.take_word(b"else").is_none() {
        return Ok(L::if_then_of(at, body.end, condition, body.stmts));
    }
    let other = block::<L>(alloc, tokens, room)?;
    Ok(L::if_else_of(at, other.end, condition, body.stmts, other.stmts))
}

#[cycle(stmt)]
fn while_stmt<L: Language>(
    alloc: Global,
    tokens: &mut TokenCursor<'_, '_>,
    room: u32,
    at: u32,
) -> Result<L::Stmt, ParseFault>
    ensures { Gives result tokens.new
        (while_behind L.made true full room (inner_stmts L.made true full room) at tokens.old) }
{
    let condition = whole::<L>(alloc, tokens, room)?;
    let body = block::<L>(alloc, tokens, room)?;
    Ok(L::while_of(at, body.end, condition, body.stmts))
}

// An expression, and the place of the semicolon that ends it.
struct Ended<E: Drop> {
    value: E,
    end: u32,
}

#[tactic(auto, unfolding(crate::specs::Parts::ended_value))]
fn ended_value<L: Language>(
    alloc: Global,
    tokens: &mut TokenCursor<'_, '_>,
    room: u32,
) -> Result<Ended<L::Expr>, ParseFault>
    ensures { GivesAs (λ v. (v.value, v.end)) result tokens.new (ended_value L.made room tokens.old) }
{
    let value = whole::<L>(alloc, tokens, room)?;
    let end = tokens.sign(b';')?;
    Ok(Ended { value, end })
}

fn return_stmt<L: Language>(
    alloc: Global,
    tokens: &mut TokenCursor<'_, '_>,
    room: u32,
    at: u32,
) -> Result<L::Stmt, ParseFault>
    ensures { Gives result tokens.new
        (return_behind L.made true full room (inner_stmts L.made true full room) at tokens.old) }
{
    let Ended { value, end } = ended_value::<L>(alloc, tokens, room)?;
    Ok(L::return_of(at, end, value))
}

fn halt_stmt<L: Language>(
    alloc: Global,
    tokens: &mut TokenCursor<'_, '_>,
    room: u32,
    at: u32,
) -> Result<L::Stmt, ParseFault>
    ensures { Gives result tokens.new
        (halt_behind L.made true full room (inner_stmts L.made true full room) at tokens.old) }
{
    let Ended { value, end } = ended_value::<L>(alloc, tokens, room)?;
    Ok(L::halt_of(at, end, value))
}

// A statement that begins with a name.
fn name_stmt<L: Language>(
    alloc: Global,
    tokens: &mut TokenCursor<'_, '_>,
    room: u32,
) -> Result<L::Stmt, ParseFault>
    ensures { Gives result tokens.new
        (name_stmt L.made true full room (inner_stmts L.made true full room) tokens.old) }
{
    let name = tokens.name::<L>(alloc)?;
    if tokens.take_sign(b'=').is_some() {
        return set::<L>(alloc, tokens, room, name);
    }
    if let Some(bracket) = tokens.take_sign(b'[') {
        return set_at::<L>(alloc, tokens, room, name, bracket);
    }
    let bracket = tokens.sign(b'(')?;
    call::<L>(alloc, tokens, room, name, bracket)
}

fn set<L: Language>(
    alloc: Global,
    tokens: &mut TokenCursor<'_, '_>,
    room: u32,
    name: Name,
) -> Result<L::Stmt, ParseFault>
    ensures { Gives result tokens.new
        (set_behind L.made true full room (inner_stmts L.made true full room) name tokens.old) }
{
    let at = name.at;
    let Ended { value, end } = ended_value::<L>(alloc, tokens, room)?;
    Ok(L::set_of(at, end, name, value))
}

fn set_at<L: Language>(
    alloc: Global,
    tokens: &mut TokenCursor<'_, '_>,
    room: u32,
    name: Name,
    bracket: u32,
) -> Result<L::Stmt, ParseFault>
    ensures { Gives result tokens.new
        (set_at_behind L.made true full room
        (inner_stmts L.made true full room) name bracket tokens.old) }
{
    let at = name.at;
    let index = bracketed::<L>(alloc, tokens, room, true, bracket, b']')?;
    tokens.sign(b'=')?;
    let Ended { value, end } = ended_value::<L>(alloc, tokens, room)?;
    Ok(L::set_at_of(at, end, name, index, value))
}

#[tactic(auto, unfolding(proc_grammar::specs::Reading::calls_behind))]
fn call<L: Language>(
    alloc: Global,
    tokens: &mut TokenCursor<'_, '_>,
    room: u32,
    name: Name,
    bracket: u32,
) -> Result<L::Stmt, ParseFault>
    ensures { Gives result tokens.new
        (calls_behind L.made true full room
        (inner_stmts L.made true full room) name bracket tokens.old) }
{
    let at = name.at;
    let args = Items::of(args::<L>(alloc, tokens, room, bracket)?);
    let end = tokens.sign(b';')?;
    Ok(L::do_call_of(at, end, name, args))
}
