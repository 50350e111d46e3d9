//! The language of tokens, of the grammar.
ghost use Rattle.std.specs.Prelude.{◌≡◌};
ghost use Rattle.std.specs.Str.{bytes_eq};
ghost use Rattle.token_parse.specs.TokenTrees.{token_trees};

use cap_words::Items;
use proc_grammar::{Language, ModuleHeader};
use proc_language::{Global, Import, Name, Op, Param, is_reserved};
use std::alloc::{AllocError, Global as Heap};
use token_language::{
    TokenArg, TokenCall, TokenExpr, TokenExprKind, TokenLocal, TokenModuleFields, TokenParam,
    TokenProc, TokenStmt, TokenStmtKind,
};

fn is_same(word: &[u8], text: &[u8]) -> bool
    ensures { result ≡ bytes_eq word.now text.now }
{
    word == text
}

/// The language of tokens.
pub struct Tokens {}

impl Language for Tokens {
    ghost use Rattle.token_parse.specs.TokenTrees.{token_trees};

    type Expr = TokenExpr;

    type Arg = TokenArg;

    type Stmt = TokenStmt;

    type Param = TokenParam;

    type Local = TokenLocal;

    type Proc = TokenProc;

    type Module = TokenModuleFields;

    ghost made = { token_trees };

    fn has_tokens() -> bool {
        true
    }

    fn is_reserved(text: &[u8]) -> bool {
        is_same(b"token", text)
            || is_same(b"make", text)
            || is_same(b"spend", text)
            || is_reserved(text)
    }

    fn number_of(at: u32, value: u32) -> TokenExpr {
        TokenExpr {
            at,
            kind: TokenExprKind::Number(value),
        }
    }

    fn var_of(at: u32, name: Name) -> TokenExpr {
        TokenExpr {
            at,
            kind: TokenExprKind::Var(name),
        }
    }

    fn element_of(
        alloc: Heap,
        at: u32,
        name: Name,
        index: TokenExpr,
    ) -> Result<TokenExpr, AllocError> {
        let index = Box::new(alloc, index)?;
        Ok(TokenExpr {
            at,
            kind: TokenExprKind::Element(name, index),
        })
    }

    fn call_of(at: u32, name: Name, args: Items<TokenArg>) -> TokenExpr
        ensures { result ≡ token_trees.call at name args }
    {
        TokenExpr {
            at,
            kind: TokenExprKind::Call(TokenCall { name, args }),
        }
    }

    fn op_of(
        alloc: Heap,
        at: u32,
        op: Op,
        left: TokenExpr,
        right: TokenExpr,
    ) -> Result<TokenExpr, AllocError> {
        let (left, right) = (Box::new(alloc, left)?, Box::new(alloc, right)?);
        Ok(TokenExpr {
            at,
            kind: TokenExprKind::Op(op, left, right),
        })
    }

    fn place_of(e: &TokenExpr) -> u32 {
        e.at
    }

    fn value_of(e: TokenExpr) -> TokenArg {
        TokenArg::Value(e)
    }

    fn pass_of(name: Name) -> TokenArg {
        TokenArg::Proc(name)
    }

    fn token_arg_of(name: Name) -> Option<TokenArg> {
        Some(TokenArg::Token(name))
    }

    fn registers_of(arg: &TokenArg) -> u32 {
        match arg {
            TokenArg::Value(_) => 1,
            TokenArg::Proc(_) => 2,
            TokenArg::Token(_) => 0,
        }
    }

    fn set_of(at: u32, end: u32, name: Name, value: TokenExpr) -> TokenStmt {
        TokenStmt {
            at,
            end,
            kind: TokenStmtKind::Set(name, value),
        }
    }

    fn set_at_of(at: u32, end: u32, name: Name, index: TokenExpr, value: TokenExpr) -> TokenStmt {
        TokenStmt {
            at,
            end,
            kind: TokenStmtKind::SetAt(name, index, value),
        }
    }

    fn do_call_of(at: u32, end: u32, name: Name, args: Items<TokenArg>) -> TokenStmt
        ensures { result ≡ token_trees.do_call at end name args }
    {
        TokenStmt {
            at,
            end,
            kind: TokenStmtKind::Call(TokenCall { name, args }),
        }
    }

    fn if_then_of(at: u32, end: u32, condition: TokenExpr, body: Items<TokenStmt>) -> TokenStmt
        ensures { result ≡ token_trees.if_then at end condition body }
    {
        TokenStmt {
            at,
            end,
            kind: TokenStmtKind::If(condition, body, None),
        }
    }

    fn if_else_of(
        at: u32,
        end: u32,
        condition: TokenExpr,
        body: Items<TokenStmt>,
        other: Items<TokenStmt>,
    ) -> TokenStmt
        ensures { result ≡ token_trees.if_else at end condition body other }
    {
        TokenStmt {
            at,
            end,
            kind: TokenStmtKind::If(condition, body, Some(other)),
        }
    }

    fn while_of(at: u32, end: u32, condition: TokenExpr, body: Items<TokenStmt>) -> TokenStmt
        ensures { result ≡ token_trees.while at end condition body }
    {
        TokenStmt {
            at,
            end,
            kind: TokenStmtKind::While(condition, body),
        }
    }

    fn return_of(at: u32, end: u32, value: TokenExpr) -> TokenStmt {
        TokenStmt {
            at,
            end,
            kind: TokenStmtKind::Return(value),
        }
    }

    fn halt_of(at: u32, end: u32, value: TokenExpr) -> TokenStmt {
        TokenStmt {
            at,
            end,
            kind: TokenStmtKind::Halt(value),
        }
    }

    fn make_of(at: u32, end: u32, name: Name) -> Option<TokenStmt> {
        Some(TokenStmt {
            at,
            end,
            kind: TokenStmtKind::Make(name),
        })
    }

    fn spend_of(at: u32, end: u32, name: Name) -> Option<TokenStmt> {
        Some(TokenStmt {
            at,
            end,
            kind: TokenStmtKind::Spend(name),
        })
    }

    fn param_of(name: Name) -> TokenParam {
        TokenParam::Plain(Param { name, arity: None })
    }

    fn callback_of(name: Name, arity: u32) -> TokenParam {
        TokenParam::Plain(Param {
            name,
            arity: Some(arity),
        })
    }

    fn token_param_of(name: Name) -> Option<TokenParam> {
        Some(TokenParam::Token(name))
    }

    fn param_registers_of(param: &TokenParam) -> u32 {
        match param {
            TokenParam::Plain(plain) if plain.arity.is_some() => 2,
            TokenParam::Plain(_) => 1,
            TokenParam::Token(_) => 0,
        }
    }

    fn param_tokens_of(param: &TokenParam) -> u32 {
        match param {
            TokenParam::Plain(_) => 0,
            TokenParam::Token(_) => 1,
        }
    }

    fn local_of(name: Name) -> TokenLocal {
        TokenLocal::Plain(name)
    }

    fn token_local_of(name: Name) -> Option<TokenLocal> {
        Some(TokenLocal::Token(name))
    }

    fn local_count_of(local: &TokenLocal) -> u32 {
        match local {
            TokenLocal::Plain(_) => 1,
            TokenLocal::Token(_) => 0,
        }
    }

    fn local_tokens_of(local: &TokenLocal) -> u32 {
        match local {
            TokenLocal::Plain(_) => 0,
            TokenLocal::Token(_) => 1,
        }
    }

    fn proc_of(
        at: u32,
        end: u32,
        shared: bool,
        name: Name,
        params: Items<TokenParam>,
        locals: Items<TokenLocal>,
        body: Items<TokenStmt>,
    ) -> TokenProc
        ensures { result ≡ token_trees.proc at end shared name params locals body }
    {
        TokenProc {
            at,
            end,
            shared,
            name,
            params,
            locals,
            body,
        }
    }

    fn module_of(
        header: ModuleHeader,
        imports: Items<Import>,
        globals: Items<Global>,
        procs: Items<TokenProc>,
    ) -> TokenModuleFields
        ensures { result ≡ token_trees.module_of header imports globals procs }
    {
        TokenModuleFields {
            at: header.at,
            name: header.name,
            code: header.code,
            data_base: header.data_base,
            closure: header.closure,
            returns: header.returns,
            return_count: header.return_count,
            stack: header.stack,
            movable: header.movable,
            imports,
            globals,
            procs,
        }
    }
}
