//! The first rule of tokens that a module breaks.
ghost use Rattle.std.specs.Prelude.{◌≡◌, ◌↔◌, IsOk, Ok, Some};
ghost use Rattle.token_language.specs.View.{args_of};
ghost use Rattle.token_language.specs.StmtView.{block_of};
ghost use Rattle.token_language.specs.Tokens.{tokens_of};
ghost use Rattle.token_check.specs.Walk.{expr_walk, args_walk, stmt_walk, block_walk, proc_walk, procs_walk};
ghost use Rattle.token_check.specs.Walk.{module_walk, walk_on, guarded_walk};
ghost use Rattle.token_check.specs.Typing.{IsTyped};

use crate::fault::TokenFault;
use crate::tokens::{Full, at_first, comes_back, emptied, filled, joined, let_go, token_at};
use token_language::{
    TokenArg, TokenExpr, TokenExprKind, TokenModule, TokenProc, TokenStmt, TokenStmtKind,
};

/// Whether each token is spent once: the first rule that is broken, in the order of evaluation. It
/// takes no memory.
pub fn check_tokens(m: &TokenModule) -> Result<(), TokenFault>
    ensures typed { IsOk result ↔ IsTyped m.now }
    ensures exact { result ≡ module_walk m.now }
{
    procs(m.fields().procs.as_slice())
}

fn procs(list: &[TokenProc]) -> Result<(), TokenFault>
    ensures { result ≡ procs_walk list.now }
{
    match list.split_first() {
        None => Ok(()),
        Some((p, rest)) => {
            procedure(p)?;
            procs(rest)
        }
    }
}

fn procedure(p: &TokenProc) -> Result<Option<Full>, TokenFault>
    ensures { result ≡ proc_walk p.now }
{
    match block(p, p.body.as_slice(), Some(at_first(p)))? {
        None => Ok(None),
        Some(full) => let_go(p.end, full),
    }
}

#[cycle(expr)]
fn expr(p: &TokenProc, e: &TokenExpr, full: Full) -> Result<Full, TokenFault>
    ensures { result ≡ expr_walk (tokens_of p.now) e.now full }
{
    match &e.kind {
        TokenExprKind::Number(_) | TokenExprKind::Var(_) => Ok(full),
        TokenExprKind::Element(_, index) => expr(p, index, full),
        TokenExprKind::Call(call) => args(p, call.args.as_slice(), full),
        TokenExprKind::Op(_, left, right) => {
            let full = expr(p, left, full)?;
            expr(p, right, full)
        }
    }
}

#[cycle(expr)]
fn args(p: &TokenProc, list: &[TokenArg], full: Full) -> Result<Full, TokenFault>
    ensures { result ≡ args_walk (tokens_of p.now) (args_of list.now) full }
{
    match list.split_first() {
        None => Ok(full),
        Some((TokenArg::Value(e), rest)) => {
            let full = expr(p, e, full)?;
            args(p, rest, full)
        }
        Some((TokenArg::Proc(_), rest)) => args(p, rest, full),
        Some((TokenArg::Token(x), rest)) => {
            let full = emptied(token_at(p, x), x.at, full)?;
            args(p, rest, full)
        }
    }
}

// What stands after a statement, where something does.
fn goes_on(walked: Result<Full, TokenFault>) -> Result<Option<Full>, TokenFault>
    ensures { result ≡ walk_on walked (λ full. Ok (Some full)) }
{
    Ok(Some(walked?))
}

// The tokens after a condition, and after what it guards.
#[cycle(stmt)]
fn guarded(
    p: &TokenProc,
    c: &TokenExpr,
    body: &[TokenStmt],
    full: Full,
) -> Result<(Full, Option<Full>), TokenFault>
    ensures { result ≡ guarded_walk (tokens_of p.now) c.now (block_of body.now) full }
{
    let tested = expr(p, c, full)?;
    let after = block(p, body, Some(tested))?;
    Ok((tested, after))
}

#[cycle(stmt)]
fn statement(p: &TokenProc, s: &TokenStmt, full: Full) -> Result<Option<Full>, TokenFault>
    ensures { result ≡ stmt_walk (tokens_of p.now) s.now full }
{
    match &s.kind {
        TokenStmtKind::Set(_, e) => goes_on(expr(p, e, full)),
        TokenStmtKind::SetAt(_, index, e) => {
            let full = expr(p, index, full)?;
            goes_on(expr(p, e, full))
        }
        TokenStmtKind::Call(call) => goes_on(args(p, call.args.as_slice(), full)),
        TokenStmtKind::If(c, body, None) => {
            let (tested, after) = guarded(p, c, body.as_slice(), full)?;
            joined(s.end, after, Some(tested))
        }
        TokenStmtKind::If(c, body, Some(other)) => {
            let (tested, after) = guarded(p, c, body.as_slice(), full)?;
            let after_other = block(p, other.as_slice(), Some(tested))?;
            joined(s.end, after, after_other)
        }
        TokenStmtKind::While(c, body) => {
            let (tested, after) = guarded(p, c, body.as_slice(), full)?;
            comes_back(s.end, full, tested, after)
        }
        TokenStmtKind::Return(e) | TokenStmtKind::Halt(e) => {
            let full = expr(p, e, full)?;
            let_go(s.end, full)
        }
        TokenStmtKind::Make(x) => goes_on(filled(token_at(p, x), x.at, full)),
        TokenStmtKind::Spend(x) => goes_on(emptied(token_at(p, x), x.at, full)),
    }
}

#[cycle(stmt)]
fn block(
    p: &TokenProc,
    stmts: &[TokenStmt],
    before: Option<Full>,
) -> Result<Option<Full>, TokenFault>
    ensures { result ≡ block_walk (tokens_of p.now) (block_of stmts.now) before }
{
    let mut after = before;
    for s in stmts {
        match after {
            None => {
                return Err(TokenFault::Dead(s.at));
            }
            Some(full) => {
                after = statement(p, s, full)?;
            }
        }
    }
    Ok(after)
}
