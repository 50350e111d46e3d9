//! Procedures.
ghost use Rattle.std.specs.Prelude.{◌≡◌, true, codes, ◌<◌, ◌≤◌, ◌+◌, IfOk, OnOk, Ok, sum_by, is_some};
ghost use Rattle.proc_parse.specs.Answers.{GivesAs, Gives};
ghost use Rattle.proc_parse.specs.Loops.{procs_list};
ghost use Rattle.proc_parse.specs.Parts.{proc_inner};
ghost use Rattle.proc_language.specs.declared.TheConstants.{MOST_ITEMS, MOST_REGISTERS, MOST_LOCALS};
ghost use Rattle.proc_language.specs.declared.TheConstants.{MOST_TOKENS};
ghost use Rattle.proc_grammar.specs.Lexemes.{a_local};
ghost use Rattle.proc_grammar.specs.Reader.{many};
ghost use Rattle.proc_grammar.specs.Grammar.{behind_param, behind_local, none_taken, room_in_body};
ghost use Rattle.proc_parse.specs.Answers.{AreFew, GivesBy};
ghost use Rattle.proc_grammar.specs.Reading.{full, arity_behind, next_param, some_params};
ghost use Rattle.proc_grammar.specs.Reading.{next_params, next_local, plain_param, token_param};
ghost use Rattle.proc_grammar.specs.Reading.{plain_local, token_local};
ghost use Rattle.proc_grammar.specs.Reading.{next_stmts, proc_behind, next_proc};

use crate::cursor::TokenCursor;
use crate::stmts::whole_body;
use cap_words::Items;
use proc_grammar::{Language, ParseFault, Taken};
use proc_language::{MOST_BRACKETS, MOST_ITEMS, MOST_LOCALS, MOST_REGISTERS, MOST_TOKENS, Name};
use std::alloc::Global;

const NONE_TAKEN: Taken = Taken {
    slots: 0,
    tokens: 0,
};

// The number of registers after the `/` of a callback that is a parameter after so many registers.
#[tactic(auto, unfolding(proc_grammar::specs::Reading::arity_behind))]
fn callback<L: Language>(
    tokens: &mut TokenCursor<'_, '_>,
    name: Name,
    used: u32,
) -> Result<L::Param, ParseFault>
    requires { used ≤ MOST_REGISTERS }
    ensures exact { Gives result tokens.new (arity_behind L.made true full name used tokens.old) }
    ensures slots { IfOk result (λ p. used + L.made.param_registers p ≤ MOST_REGISTERS) }
    ensures tokens { IfOk result (λ p. L.made.param_tokens p ≡ 0) }
{
    if used + 1 >= MOST_REGISTERS {
        return Err(ParseFault::TooMany(name.at));
    }
    let arity = tokens.up_to(MOST_REGISTERS)?;
    Ok(L::callback_of(name, arity))
}

// A parameter that is no token, after others that take so many registers.
fn plain_param<L: Language>(
    alloc: Global,
    tokens: &mut TokenCursor<'_, '_>,
    used: u32,
) -> Result<L::Param, ParseFault>
    requires { used ≤ MOST_REGISTERS }
    ensures exact { Gives result tokens.new (plain_param L.made true full used tokens.old) }
    ensures slots { IfOk result (λ p. used + L.made.param_registers p ≤ MOST_REGISTERS) }
    ensures tokens { IfOk result (λ p. L.made.param_tokens p ≡ 0) }
{
    let name = tokens.fitting_name::<L>(alloc, used < MOST_REGISTERS)?;
    if tokens.take_sign(b'/').is_some() {
        return callback::<L>(tokens, name, used);
    }
    Ok(L::param_of(name))
}

// A parameter that is a token, after `token` and so many other tokens.
fn token_param<L: Language>(
    alloc: Global,
    tokens: &mut TokenCursor<'_, '_>,
    held: u32,
) -> Result<L::Param, ParseFault>
    requires { is_some L.made.tokens ≡ true }
    ensures exact { GivesBy L.made.tokens result tokens.new
        (λ makes. token_param L.made true full held makes tokens.old) }
    ensures slots { IfOk result (λ p. L.made.param_registers p ≡ 0) }
    ensures tokens { IfOk result (λ p. held + L.made.param_tokens p ≤ MOST_TOKENS) }
{
    let name = tokens.fitting_name::<L>(alloc, held < MOST_TOKENS)?;
    Ok(L::token_param_of(name).unwrap())
}

// A parameter after others that take so much.
#[tactic(auto, unfolding(proc_grammar::specs::Reading::next_param))]
fn param<L: Language>(
    alloc: Global,
    tokens: &mut TokenCursor<'_, '_>,
    used: Taken,
) -> Result<L::Param, ParseFault>
    requires { AreFew MOST_REGISTERS used }
    ensures exact { Gives result tokens.new (next_param L.made true full used tokens.old) }
    ensures few { IfOk result (λ p. AreFew MOST_REGISTERS (behind_param L.made used p)) }
{
    match tokens.take_token_word::<L>(b"token") {
        Some(_) => token_param::<L>(alloc, tokens, used.tokens),
        None => plain_param::<L>(alloc, tokens, used.slots),
    }
}

// What is taken after a parameter.
fn behind_param<L: Language>(used: Taken, param: &L::Param) -> Taken
    requires { AreFew MOST_REGISTERS (behind_param L.made used param.now) }
    ensures { result ≡ behind_param L.made used param.now }
{
    Taken {
        slots: used.slots + L::param_registers_of(param),
        tokens: used.tokens + L::param_tokens_of(param),
    }
}

// Parameters, and how many tokens they are.
#[derive(Drop)]
struct ParamList<P: Drop> {
    params: Vec<P>,
    tokens: u32,
}

// The parameters up to the closing bracket; there is one at least.
fn some_params<L: Language>(
    alloc: Global,
    tokens: &mut TokenCursor<'_, '_>,
) -> Result<ParamList<L::Param>, ParseFault>
    ensures exact { GivesAs (λ p. p.params.items) result tokens.new
        (some_params L.made true full tokens.old) }
    ensures count { IfOk result (λ p. p.tokens ≡ sum_by L.made.param_tokens p.params.items) }
    ensures few { IfOk result (λ p. p.tokens ≤ MOST_TOKENS) }
{
    let mut params = Vec::new(alloc);
    let mut used = NONE_TAKEN;
    loop {
        let next = param::<L>(alloc, tokens, used)?;
        used = behind_param::<L>(used, &next);
        params.push(next)?;
        if tokens.take_sign(b',').is_none() {
            tokens.sign(b')')?;
            let tokens = used.tokens;
            return Ok(ParamList { params, tokens });
        }
    }
}

// The list of parameters in its brackets.
#[tactic(auto, unfolding(proc_grammar::specs::Reading::next_params, phrases::specs::Reading::case_next))]
fn params<L: Language>(
    alloc: Global,
    tokens: &mut TokenCursor<'_, '_>,
) -> Result<ParamList<L::Param>, ParseFault>
    ensures exact { GivesAs (λ p. p.params.items) result tokens.new
        (next_params L.made true full tokens.old) }
    ensures count { IfOk result (λ p. p.tokens ≡ sum_by L.made.param_tokens p.params.items) }
    ensures few { IfOk result (λ p. p.tokens ≤ MOST_TOKENS) }
{
    tokens.sign(b'(')?;
    if tokens.take_sign(b')').is_some() {
        let params = Vec::new(alloc);
        return Ok(ParamList { params, tokens: 0 });
    }
    some_params::<L>(alloc, tokens)
}

// A local that is no token, after so many.
fn plain_local<L: Language>(
    alloc: Global,
    tokens: &mut TokenCursor<'_, '_>,
    count: u32,
) -> Result<L::Local, ParseFault>
    ensures exact { Gives result tokens.new (plain_local L.made true full count tokens.old) }
    ensures slots { IfOk result (λ x. count + L.made.local_count x ≤ MOST_LOCALS) }
    ensures tokens { IfOk result (λ x. L.made.local_tokens x ≡ 0) }
{
    tokens.fitting_word(b"local", count < MOST_LOCALS)?;
    let name = tokens.name::<L>(alloc)?;
    tokens.sign(b';')?;
    Ok(L::local_of(name))
}

// A local that is a token, after `token` and so many other tokens.
fn token_local<L: Language>(
    alloc: Global,
    tokens: &mut TokenCursor<'_, '_>,
    held: u32,
) -> Result<L::Local, ParseFault>
    requires { is_some L.made.tokens ≡ true }
    ensures exact { GivesBy L.made.tokens result tokens.new
        (λ makes. token_local L.made true full held makes tokens.old) }
    ensures slots { IfOk result (λ x. L.made.local_count x ≡ 0) }
    ensures tokens { IfOk result (λ x. held + L.made.local_tokens x ≤ MOST_TOKENS) }
{
    let name = tokens.fitting_name::<L>(alloc, held < MOST_TOKENS)?;
    tokens.sign(b';')?;
    Ok(L::token_local_of(name).unwrap())
}

// A local after what takes so much.
#[tactic(auto, unfolding(proc_grammar::specs::Reading::next_local))]
fn local<L: Language>(
    alloc: Global,
    tokens: &mut TokenCursor<'_, '_>,
    used: Taken,
) -> Result<L::Local, ParseFault>
    requires { AreFew MOST_LOCALS used }
    ensures exact { Gives result tokens.new (next_local L.made true full used tokens.old) }
    ensures few { IfOk result (λ x. AreFew MOST_LOCALS (behind_local L.made used x)) }
{
    match tokens.take_token_word::<L>(b"token") {
        Some(_) => token_local::<L>(alloc, tokens, used.tokens),
        None => plain_local::<L>(alloc, tokens, used.slots),
    }
}

// What is taken after a local.
fn behind_local<L: Language>(used: Taken, local: &L::Local) -> Taken
    requires { AreFew MOST_LOCALS (behind_local L.made used local.now) }
    ensures { result ≡ behind_local L.made used local.now }
{
    Taken {
        slots: used.slots + L::local_count_of(local),
        tokens: used.tokens + L::local_tokens_of(local),
    }
}

// The locals after parameters that are so many tokens.
fn locals<L: Language>(
    alloc: Global,
    tokens: &mut TokenCursor<'_, '_>,
    held: u32,
) -> Result<Vec<L::Local>, ParseFault>
    requires { held ≤ MOST_TOKENS }
    ensures { GivesAs (λ v. v.items) result tokens.new
        (many full (a_local L.made.tokens) (behind_local L.made) (next_local L.made true full)
        (record { slots = 0; tokens = held }) tokens.old) }
{
    let mut used = Taken {
        slots: 0,
        tokens: held,
    };
    let mut locals = Vec::new(alloc);
    while tokens.starts_local::<L>() {
        let next = local::<L>(alloc, tokens, used)?;
        used = behind_local::<L>(used, &next);
        locals.push(next)?;
    }
    Ok(locals)
}

// What stands in the brackets of a procedure, and the place of the closing one.
struct ProcInner<V: Drop, S: Drop> {
    locals: Items<V>,
    body: Items<S>,
    end: u32,
}

// The brackets of a procedure whose parameters are so many tokens.
#[tactic(auto, unfolding(crate::specs::Parts::proc_inner))]
fn proc_inner<L: Language>(
    alloc: Global,
    tokens: &mut TokenCursor<'_, '_>,
    held: u32,
) -> Result<ProcInner<L::Local, L::Stmt>, ParseFault>
    requires { held ≤ MOST_TOKENS }
    ensures { GivesAs (λ p. ((p.locals, p.body), p.end)) result tokens.new
        (proc_inner L.made held tokens.old) }
{
    tokens.sign(b'{')?;
    let locals = Items::of(locals::<L>(alloc, tokens, held)?);
    let body = Items::of(whole_body::<L>(alloc, tokens, MOST_BRACKETS - 1)?);
    let end = tokens.sign(b'}')?;
    Ok(ProcInner { locals, body, end })
}

// A procedure after its `proc`.
fn behind_proc<L: Language>(
    alloc: Global,
    tokens: &mut TokenCursor<'_, '_>,
    at: u32,
    shared: bool,
) -> Result<L::Proc, ParseFault>
    ensures { Gives result tokens.new (proc_behind L.made true full room_in_body at shared tokens.old) }
{
    let name = tokens.name::<L>(alloc)?;
    let ParamList {
        params,
        tokens: held,
    } = params::<L>(alloc, tokens)?;
    let ProcInner { locals, body, end } = proc_inner::<L>(alloc, tokens, held)?;
    let params = Items::of(params);
    Ok(L::proc_of(at, end, shared, name, params, locals, body))
}

// The procedure after so many.
#[tactic(auto, unfolding(proc_grammar::specs::Reading::next_proc, phrases::specs::Reading::case_next))]
fn proc<L: Language>(
    alloc: Global,
    tokens: &mut TokenCursor<'_, '_>,
    count: u32,
) -> Result<L::Proc, ParseFault>
    ensures exact { Gives result tokens.new (next_proc L.made true full room_in_body count tokens.old) }
    ensures few { OnOk result (count < MOST_ITEMS) }
{
    if let Some(at) = tokens.take_word(b"export") {
        if count >= MOST_ITEMS {
            return Err(ParseFault::TooMany(at));
        }
        tokens.word(b"proc")?;
        return behind_proc::<L>(alloc, tokens, at, true);
    }
    let at = tokens.fitting_word(b"proc", count < MOST_ITEMS)?;
    behind_proc::<L>(alloc, tokens, at, false)
}

/// The procedures.
pub fn procs<L: Language>(
    alloc: Global,
    tokens: &mut TokenCursor<'_, '_>,
) -> Result<Vec<L::Proc>, ParseFault>
    ensures { GivesAs (λ v. v.items) result tokens.new (procs_list L.made tokens.old) }
{
    let mut procs = Vec::new(alloc);
    loop {
        let next = proc::<L>(alloc, tokens, procs.len() as u32)?;
        procs.push(next)?;
        if !tokens.starts_proc() {
            return Ok(procs);
        }
    }
}
