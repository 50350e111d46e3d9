//! The tree of a module.
ghost use Rattle.std.specs.Prelude.{◌≡◌};

use cap_words::Items;
use std::marker::Model;

/// A name, and the place of its first byte.
#[derive(Drop)]
pub struct Name {
    /// Its bytes.
    pub text: Items<u8>,
    /// Its place.
    pub at: u32,
}

/// What stands between two operands.
#[derive(Clone, Copy)]
pub enum Op {
    /// `+`
    Plus,
    /// `-`
    Minus,
    /// `<`
    Less,
    /// `==`
    Equal,
}

/// An expression.
#[cycle(expr)]
#[derive(Drop)]
pub struct Expr {
    /// The place of its first token.
    pub at: u32,
    /// What it is.
    pub kind: ExprKind,
}

/// What an expression is.
#[cycle(expr)]
#[derive(Drop)]
pub enum ExprKind {
    /// A number.
    Number(u32),
    /// A variable.
    Var(Name),
    /// An element of an array.
    Element(Name, Box<Expr>),
    /// The value of a call.
    Call(Call),
    /// Two operands, and what stands between them.
    Op(Op, Box<Expr>, Box<Expr>),
}

/// A call.
#[cycle(expr)]
#[derive(Drop)]
pub struct Call {
    /// What is called.
    pub name: Name,
    /// What it is given.
    pub args: Items<Arg>,
}

/// An argument of a call.
#[cycle(expr)]
#[derive(Drop)]
pub enum Arg {
    /// The value of an expression.
    Value(Expr),
    /// `proc` and a name: what a callback calls.
    Proc(Name),
}

impl Model for Expr {
    ghost use Rattle.proc_language.specs.Tree.{Expr, size_of};
    ghost use Rattle.proc_language.specs.Codes.{coded_expr};

    ghost Value = { Expr };

    ghost coded = { coded_expr };

    ghost use Rattle.proc_language.specs.View.{expr_at};

    ghost view = { λ e. expr_at e.at e.kind };

    ghost size = { size_of };

    ghost use Rattle.proc_language.specs.Deep.{depth_le-size};

    ghost size_decreases = { λ e h. depth_le-size e.at e.kind };
}

/// A statement.
#[cycle(stmt)]
#[derive(Drop)]
pub struct Stmt {
    /// The place of its first token.
    pub at: u32,
    /// What it is.
    pub kind: StmtKind,
}

/// What a statement is.
#[cycle(stmt)]
#[derive(Drop)]
pub enum StmtKind {
    /// A variable is set.
    Set(Name, Expr),
    /// An element of an array is set: the index, and the value.
    SetAt(Name, Expr, Expr),
    /// A call whose value isn't used.
    Call(Call),
    /// What is done where the condition holds, and what where it doesn't.
    If(Expr, Items<Stmt>, Option<Items<Stmt>>),
    /// What is done as long as the condition holds.
    While(Expr, Items<Stmt>),
    /// The procedure ends with a value.
    Return(Expr),
    /// The program ends with a value.
    Halt(Expr),
}

impl Model for Stmt {
    ghost use Rattle.proc_language.specs.Tree.{Stmt, stmt_size};
    ghost use Rattle.proc_language.specs.Codes.{coded_stmt};

    ghost Value = { Stmt };

    ghost coded = { coded_stmt };

    ghost use Rattle.proc_language.specs.StmtView.{stmt_at};

    ghost view = { λ s. stmt_at s.at s.kind };

    ghost size = { stmt_size };

    ghost use Rattle.proc_language.specs.StmtDeep.{depth_le-stmt_size};

    ghost size_decreases = { λ s h. depth_le-stmt_size s.at s.kind };
}
