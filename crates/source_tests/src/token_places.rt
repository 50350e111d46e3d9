//! The places in the tree of a module with tokens, worked out by hand. Faults show some of them alone.
use proc_grammar::ParseFault;
use std::alloc::Global;
use std::process::Abort;
use std::test::Fail;
use token_language::{
    TokenArg, TokenExprKind, TokenLocal, TokenModuleFields, TokenParam, TokenProc, TokenStmt,
    TokenStmtKind,
};
use token_parse::parse_tokens;

// Its places, and what is told of it: a letter, and the place of the name or the value in it.
fn stmt_told(stmt: &TokenStmt) -> (u32, u32, u8, u32) {
    let (letter, place) = match &stmt.kind {
        TokenStmtKind::Make(name) => (b'm', name.at),
        TokenStmtKind::Spend(name) => (b's', name.at),
        TokenStmtKind::Set(name, _) => (b'=', name.at),
        TokenStmtKind::If(value, _, _) => (b'i', value.at),
        TokenStmtKind::While(value, _) => (b'w', value.at),
        TokenStmtKind::Return(value) => (b'r', value.at),
        TokenStmtKind::Halt(value) => (b'h', value.at),
        _ => (b'-', 0),
    };
    (stmt.at, stmt.end, letter, place)
}

fn stmts_are(rt: &impl Abort, stmts: &[TokenStmt], wanted: &[(u32, u32, u8, u32)]) {
    assert_eq!(rt; stmts.len(), wanted.len());
    for (stmt, wanted) in stmts.iter().zip(wanted) {
        assert!(rt; stmt_told(stmt) == *wanted);
    }
}

fn params_are(rt: &impl Abort, params: &[TokenParam], wanted: &[(bool, u32)]) {
    assert_eq!(rt; params.len(), wanted.len());
    for (param, wanted) in params.iter().zip(wanted) {
        let told = match param {
            TokenParam::Plain(plain) => (false, plain.name.at),
            TokenParam::Token(name) => (true, name.at),
        };
        assert!(rt; told == *wanted);
    }
}

fn locals_are(rt: &impl Abort, locals: &[TokenLocal], wanted: &[(bool, u32)]) {
    assert_eq!(rt; locals.len(), wanted.len());
    for (local, wanted) in locals.iter().zip(wanted) {
        let told = match local {
            TokenLocal::Plain(name) => (false, name.at),
            TokenLocal::Token(name) => (true, name.at),
        };
        assert!(rt; told == *wanted);
    }
}

// A letter for each argument, and its place.
fn args_are(rt: &impl Abort, args: &[TokenArg], wanted: &[(u8, u32)]) {
    assert_eq!(rt; args.len(), wanted.len());
    for (arg, wanted) in args.iter().zip(wanted) {
        let told = match arg {
            TokenArg::Value(value) => (b'v', value.at),
            TokenArg::Proc(name) => (b'p', name.at),
            TokenArg::Token(name) => (b't', name.at),
        };
        assert!(rt; told == *wanted);
    }
}

const TREE: &[u8] = b"module k code 1 data 2 closure 3 returns 4 1 stack 5;
proc use(token t, n) { spend t; if n { return n; } else { } while n { } }
export proc main() { local x; token t; make t; halt use(token t, 5, proc g); }";

// The procedure at which a token is spent.
fn use_is(rt: &impl Abort, proc: &TokenProc) {
    assert!(rt; (proc.at, proc.end, proc.shared) == (54, 126, false));
    params_are(rt, proc.params.as_slice(), &[(true, 69), (false, 72)]);
    locals_are(rt, proc.locals.as_slice(), &[]);
    stmts_are(
        rt,
        proc.body.as_slice(),
        &[
            (77, 84, b's', 83),
            (86, 112, b'i', 89),
            (114, 124, b'w', 120),
        ],
    );
}

fn halt_is(rt: &impl Abort, stmt: &TokenStmt) {
    let TokenStmtKind::Halt(value) = &stmt.kind else {
        return assert!(rt; false);
    };
    let TokenExprKind::Call(call) = &value.kind else {
        return assert!(rt; false);
    };
    args_are(
        rt,
        call.args.as_slice(),
        &[(b't', 190), (b'v', 193), (b'p', 201)],
    );
}

// The one at which it is made and handed over.
fn main_is(rt: &impl Abort, proc: &TokenProc) {
    assert!(rt; (proc.at, proc.end, proc.shared) == (128, 205, true));
    params_are(rt, proc.params.as_slice(), &[]);
    locals_are(rt, proc.locals.as_slice(), &[(false, 155), (true, 164)]);
    stmts_are(
        rt,
        proc.body.as_slice(),
        &[(167, 173, b'm', 172), (175, 203, b'h', 180)],
    );
    for stmt in proc.body.as_slice().iter().skip(1) {
        halt_is(rt, stmt);
    }
}

fn tree_is(rt: &impl Abort, fields: &TokenModuleFields) {
    let [first, second] = fields.procs.as_slice() else {
        return assert!(rt; false);
    };
    use_is(rt, first);
    main_is(rt, second);
}

fn tree_is_read(rt: &impl Abort, alloc: Global) -> Result<(), ParseFault> {
    let module = parse_tokens(alloc, TREE)?;
    tree_is(rt, module.fields());
    Ok(())
}

#[test]
fn places_of_what_is_read(rt: HostRuntime) -> Result<(), Fail> {
    tree_is_read(&rt, rt.alloc())?;
    Ok(())
}
