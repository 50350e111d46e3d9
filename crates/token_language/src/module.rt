//! What a module with tokens is.
ghost use Rattle.std.specs.Prelude.{◌≡◌};

use crate::tree::TokenStmt;
use cap_words::Items;
use proc_language::{Global, Import, Name, Param};
use std::marker::Model;

/// A parameter of a procedure.
#[derive(Drop)]
pub enum TokenParam {
    /// One that takes registers.
    Plain(Param),
    /// A token, which takes none.
    Token(Name),
}

/// What a procedure has of its own.
#[derive(Drop)]
pub enum TokenLocal {
    /// A variable.
    Plain(Name),
    /// A token.
    Token(Name),
}

/// A procedure.
#[derive(Drop)]
pub struct TokenProc {
    /// The place of `export` or `proc`.
    pub at: u32,
    /// The place of its closing bracket.
    pub end: u32,
    /// Whether other parts may import it.
    pub shared: bool,
    /// Its name.
    pub name: Name,
    /// What it is given.
    pub params: Items<TokenParam>,
    /// Its variables and tokens.
    pub locals: Items<TokenLocal>,
    /// What it does.
    pub body: Items<TokenStmt>,
}

/// What a module with tokens is made of. It may break the limits; a [`TokenModule`] keeps them.
#[derive(Drop)]
pub struct TokenModuleFields {
    /// The place of `module`.
    pub at: u32,
    /// The part's name.
    pub name: Name,
    /// The address of the first code word.
    pub code: u32,
    /// The address of the first data word.
    pub data_base: u32,
    /// The seal of the part's entries.
    pub closure: u32,
    /// The first seal of the part's return points.
    pub returns: u32,
    /// How many such seals there are.
    pub return_count: u32,
    /// The address at which the stack begins.
    pub stack: u32,
    /// Whether the part may be placed elsewhere.
    pub movable: bool,
    /// What it wants to call.
    pub imports: Items<Import>,
    /// Its variables and arrays.
    pub globals: Items<Global>,
    /// Its procedures.
    pub procs: Items<TokenProc>,
}

/// A module with tokens. A contract sees its fields.
///
/// Without its tokens it keeps the limits of a plain module, and each of its procedures has at most
/// [`MOST_TOKENS`](proc_language::MOST_TOKENS) tokens.
#[derive(Drop)]
pub struct TokenModule {
    fields: TokenModuleFields,
}

impl Model for TokenModule {
    ghost use Rattle.token_language.specs.declared.module.TokenModuleFields.{TokenModuleFields};
    ghost use Rattle.std.specs.Coded.{codes};
    ghost use Rattle.token_language.specs.Codes.{coded_stmt};

    ghost Value = { TokenModuleFields };

    ghost coded = { Prim.hlevel (codes, coded_stmt) };

    ghost use Rattle.token_language.specs.Limits.{IsTokenModule};

    ghost view = { λ m. m.fields };

    ghost invariant = { λ m. IsTokenModule m.fields };
}

impl TokenModule {
    ghost use Rattle.token_language.specs.Limits.{IsTokenModule};

    /// The module of these fields, which must keep the limits. It takes no memory.
    pub fn of(fields: TokenModuleFields) -> TokenModule
        requires { IsTokenModule fields }
        ensures { result ≡ fields }
    {
        TokenModule { fields }
    }

    /// Its fields, to read.
    pub fn fields(&self) -> &TokenModuleFields
        ensures same { result.now ≡ self.now }
        ensures within_limits { IsTokenModule result.now }
    {
        &self.fields
    }

    /// Its fields. It takes no memory.
    pub fn into_fields(self) -> TokenModuleFields
        ensures same { result ≡ self }
        ensures within_limits { IsTokenModule result }
    {
        let TokenModule { fields } = self;
        fields
    }
}
