//! The language itself, of this grammar.
ghost use Rattle.std.specs.Prelude.{◌≡◌, IfOk};
ghost use Rattle.proc_grammar.specs.PlainTrees.{plain_trees};

use crate::header::ModuleHeader;
use crate::language::Language;
use cap_words::Items;
use proc_language::{
    Arg, Call, Expr, ExprKind, Global, Import, ModuleFields, Name, Op, Param, Proc, Stmt, StmtKind,
};
use std::alloc::{AllocError, Global as Heap};

fn boxed(alloc: Heap, e: Expr) -> Result<Box<Expr>, AllocError>
    ensures { IfOk result (λ b. b.value ≡ e) }
{
    Ok(Box::new(alloc, e)?)
}

/// The language itself.
pub struct Plain {}

impl Language for Plain {
    ghost use Rattle.proc_grammar.specs.PlainTrees.{plain_trees};

    type Expr = Expr;

    type Arg = Arg;

    type Stmt = Stmt;

    type Param = Param;

    type Local = Name;

    type Proc = Proc;

    type Module = ModuleFields;

    ghost made = { plain_trees };

    fn has_tokens() -> bool {
        false
    }

    fn is_reserved(text: &[u8]) -> bool {
        proc_language::is_reserved(text)
    }

    fn number_of(at: u32, value: u32) -> Expr {
        Expr {
            at,
            kind: ExprKind::Number(value),
        }
    }

    fn var_of(at: u32, name: Name) -> Expr {
        Expr {
            at,
            kind: ExprKind::Var(name),
        }
    }

    fn element_of(alloc: Heap, at: u32, name: Name, index: Expr) -> Result<Expr, AllocError> {
        let index = boxed(alloc, index)?;
        Ok(Expr {
            at,
            kind: ExprKind::Element(name, index),
        })
    }

    fn call_of(at: u32, name: Name, args: Items<Arg>) -> Expr
        ensures { result ≡ plain_trees.call at name args }
    {
        Expr {
            at,
            kind: ExprKind::Call(Call { name, args }),
        }
    }

    fn op_of(alloc: Heap, at: u32, op: Op, left: Expr, right: Expr) -> Result<Expr, AllocError> {
        let (left, right) = (boxed(alloc, left)?, boxed(alloc, right)?);
        Ok(Expr {
            at,
            kind: ExprKind::Op(op, left, right),
        })
    }

    fn place_of(e: &Expr) -> u32 {
        e.at
    }

    fn value_of(e: Expr) -> Arg {
        Arg::Value(e)
    }

    fn pass_of(name: Name) -> Arg {
        Arg::Proc(name)
    }

    fn token_arg_of(_name: Name) -> Option<Arg> {
        None
    }

    fn registers_of(arg: &Arg) -> u32 {
        match arg {
            Arg::Value(_) => 1,
            Arg::Proc(_) => 2,
        }
    }

    fn set_of(at: u32, _end: u32, name: Name, value: Expr) -> Stmt {
        Stmt {
            at,
            kind: StmtKind::Set(name, value),
        }
    }

    fn set_at_of(at: u32, _end: u32, name: Name, index: Expr, value: Expr) -> Stmt {
        Stmt {
            at,
            kind: StmtKind::SetAt(name, index, value),
        }
    }

    fn do_call_of(at: u32, _end: u32, name: Name, args: Items<Arg>) -> Stmt
        ensures { result ≡ plain_trees.do_call at _end name args }
    {
        Stmt {
            at,
            kind: StmtKind::Call(Call { name, args }),
        }
    }

    fn if_then_of(at: u32, _end: u32, condition: Expr, body: Items<Stmt>) -> Stmt
        ensures { result ≡ plain_trees.if_then at _end condition body }
    {
        Stmt {
            at,
            kind: StmtKind::If(condition, body, None),
        }
    }

    fn if_else_of(
        at: u32,
        _end: u32,
        condition: Expr,
        body: Items<Stmt>,
        other: Items<Stmt>,
    ) -> Stmt
        ensures { result ≡ plain_trees.if_else at _end condition body other }
    {
        Stmt {
            at,
            kind: StmtKind::If(condition, body, Some(other)),
        }
    }

    fn while_of(at: u32, _end: u32, condition: Expr, body: Items<Stmt>) -> Stmt
        ensures { result ≡ plain_trees.while at _end condition body }
    {
        Stmt {
            at,
            kind: StmtKind::While(condition, body),
        }
    }

    fn return_of(at: u32, _end: u32, value: Expr) -> Stmt {
        Stmt {
            at,
            kind: StmtKind::Return(value),
        }
    }

    fn halt_of(at: u32, _end: u32, value: Expr) -> Stmt {
        Stmt {
            at,
            kind: StmtKind::Halt(value),
        }
    }

    fn make_of(_at: u32, _end: u32, _name: Name) -> Option<Stmt> {
        None
    }

    fn spend_of(_at: u32, _end: u32, _name: Name) -> Option<Stmt> {
        None
    }

    fn param_of(name: Name) -> Param {
        Param { name, arity: None }
    }

    fn callback_of(name: Name, arity: u32) -> Param {
        Param {
            name,
            arity: Some(arity),
        }
    }

    fn token_param_of(_name: Name) -> Option<Param> {
        None
    }

    fn param_registers_of(param: &Param) -> u32 {
        match param.arity {
            None => 1,
            Some(_) => 2,
        }
    }

    fn param_tokens_of(_param: &Param) -> u32 {
        0
    }

    fn local_of(name: Name) -> Name {
        name
    }

    fn token_local_of(_name: Name) -> Option<Name> {
        None
    }

    fn local_count_of(_local: &Name) -> u32 {
        1
    }

    fn local_tokens_of(_local: &Name) -> u32 {
        0
    }

    fn proc_of(
        at: u32,
        _end: u32,
        shared: bool,
        name: Name,
        params: Items<Param>,
        locals: Items<Name>,
        body: Items<Stmt>,
    ) -> Proc
        ensures { result ≡ plain_trees.proc at _end shared name params locals body }
    {
        Proc {
            at,
            shared,
            name,
            params,
            locals,
            body,
        }
    }

    fn module_of(
        header: ModuleHeader,
        imports: Items<Import>,
        globals: Items<Global>,
        procs: Items<Proc>,
    ) -> ModuleFields
        ensures { result ≡ plain_trees.module_of header imports globals procs }
    {
        ModuleFields {
            at: header.at,
            name: header.name,
            code: header.code,
            data_base: header.data_base,
            closure: header.closure,
            returns: header.returns,
            return_count: header.return_count,
            stack: header.stack,
            movable: header.movable,
            imports,
            globals,
            procs,
        }
    }
}
