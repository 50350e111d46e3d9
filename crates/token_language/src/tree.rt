//! The tree of a module with tokens.
ghost use Rattle.std.specs.Prelude.{◌≡◌};

use cap_words::Items;
use proc_language::{Name, Op};
use std::marker::Model;

/// An expression.
#[cycle(expr)]
#[derive(Drop)]
pub struct TokenExpr {
    /// The place of its first token.
    pub at: u32,
    /// What it is.
    pub kind: TokenExprKind,
}

/// What an expression is.
#[cycle(expr)]
#[derive(Drop)]
pub enum TokenExprKind {
    /// A number.
    Number(u32),
    /// A variable.
    Var(Name),
    /// An element of an array.
    Element(Name, Box<TokenExpr>),
    /// The value of a call.
    Call(TokenCall),
    /// Two operands, and what stands between them.
    Op(Op, Box<TokenExpr>, Box<TokenExpr>),
}

/// A call.
#[cycle(expr)]
#[derive(Drop)]
pub struct TokenCall {
    /// What is called.
    pub name: Name,
    /// What it is given.
    pub args: Items<TokenArg>,
}

/// An argument of a call.
#[cycle(expr)]
#[derive(Drop)]
pub enum TokenArg {
    /// The value of an expression.
    Value(TokenExpr),
    /// `proc` and a name: what a callback calls.
    Proc(Name),
    /// `token` and a name: a token that is handed over.
    Token(Name),
}

impl Model for TokenExpr {
    ghost use Rattle.token_language.specs.Tree.{Expr, size_of};
    ghost use Rattle.token_language.specs.Codes.{coded_expr};

    ghost Value = { Expr };

    ghost coded = { coded_expr };

    ghost use Rattle.token_language.specs.View.{expr_at};

    ghost view = { λ e. expr_at e.at e.kind };

    ghost size = { size_of };

    ghost use Rattle.token_language.specs.Deep.{depth_le-size};

    ghost size_decreases = { λ e h. depth_le-size e.at e.kind };
}

/// A statement.
#[cycle(stmt)]
#[derive(Drop)]
pub struct TokenStmt {
    /// The place of its first token.
    pub at: u32,
    /// The place of its last token: a semicolon, or a closing bracket.
    pub end: u32,
    /// What it is.
    pub kind: TokenStmtKind,
}

/// What a statement is.
#[cycle(stmt)]
#[derive(Drop)]
pub enum TokenStmtKind {
    /// A variable is set.
    Set(Name, TokenExpr),
    /// An element of an array is set: the index, and the value.
    SetAt(Name, TokenExpr, TokenExpr),
    /// A call whose value isn't used.
    Call(TokenCall),
    /// What is done where the condition holds, and what where it doesn't.
    If(TokenExpr, Items<TokenStmt>, Option<Items<TokenStmt>>),
    /// What is done as long as the condition holds.
    While(TokenExpr, Items<TokenStmt>),
    /// The procedure ends with a value.
    Return(TokenExpr),
    /// The program ends with a value.
    Halt(TokenExpr),
    /// A token is filled.
    Make(Name),
    /// A token is emptied.
    Spend(Name),
}

impl Model for TokenStmt {
    ghost use Rattle.token_language.specs.Tree.{Stmt, stmt_size};
    ghost use Rattle.token_language.specs.Codes.{coded_stmt};

    ghost Value = { Stmt };

    ghost coded = { coded_stmt };

    ghost use Rattle.token_language.specs.StmtView.{stmt_at};

    ghost view = { λ s. stmt_at s.at s.end s.kind };

    ghost size = { stmt_size };

    ghost use Rattle.token_language.specs.StmtDeep.{depth_le-stmt_size};

    ghost size_decreases = { λ s h. depth_le-stmt_size s.at s.end s.kind };
}
