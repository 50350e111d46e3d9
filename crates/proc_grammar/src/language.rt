//! What a language of this grammar makes of what is read.
ghost use Rattle.std.specs.Prelude.{◌≡◌, IfOk, IfSome, option_map, is_some};
ghost use Rattle.proc_grammar.specs.Makes.{Actions};
ghost use Rattle.proc_grammar.specs.Lexemes.{taken, words_of};

use crate::header::ModuleHeader;
use cap_words::Items;
use proc_language::{Global, Import, Name, Op};
use std::alloc::{AllocError, Global as Heap};

/// A language of this grammar: its trees, and what they are made of. A first place is that of the first
/// token; where there are two, the second is that of the last one.
pub trait Language {
    /// An expression.
    type Expr: Drop;

    /// An argument.
    type Arg: Drop;

    /// A statement.
    type Stmt: Drop;

    /// A parameter.
    type Param: Drop;

    /// A local.
    type Local: Drop;

    /// A procedure.
    type Proc: Drop;

    /// A module.
    type Module: Drop;

    ghost made: { Actions Self.Expr Self.Arg Self.Stmt Self.Param Self.Local Self.Proc Self.Module };

    /// Whether the language has tokens.
    fn has_tokens() -> bool
        ensures { result ≡ is_some made.tokens };

    /// Whether this is a reserved word of the language.
    fn is_reserved(text: &[u8]) -> bool
        ensures { result ≡ taken (words_of made.tokens) text.now };

    /// A number.
    fn number_of(at: u32, value: u32) -> Self::Expr
        ensures { result ≡ made.number at value };

    /// A variable.
    fn var_of(at: u32, name: Name) -> Self::Expr
        ensures { result ≡ made.var at name };

    /// An element of an array.
    fn element_of(
        alloc: Heap,
        at: u32,
        name: Name,
        index: Self::Expr,
    ) -> Result<Self::Expr, AllocError>
        ensures { IfOk result (λ e. e ≡ made.element at name index) };

    /// The value of a call.
    fn call_of(at: u32, name: Name, args: Items<Self::Arg>) -> Self::Expr
        ensures { result ≡ made.call at name args };

    /// Two operands, and what stands between them.
    fn op_of(
        alloc: Heap,
        at: u32,
        op: Op,
        left: Self::Expr,
        right: Self::Expr,
    ) -> Result<Self::Expr, AllocError>
        ensures { IfOk result (λ e. e ≡ made.op at op left right) };

    /// The place of an expression's first token.
    fn place_of(e: &Self::Expr) -> u32
        ensures { result ≡ made.place e.now };

    /// An argument that is a value. It takes one register.
    fn value_of(e: Self::Expr) -> Self::Arg
        ensures is { result ≡ made.value e }
        ensures takes { made.registers result ≡ 1 };

    /// An argument that is a procedure. It takes two registers.
    fn pass_of(name: Name) -> Self::Arg
        ensures is { result ≡ made.pass name }
        ensures takes { made.registers result ≡ 2 };

    /// An argument that is a token, where the language has tokens. It takes no register.
    fn token_arg_of(name: Name) -> Option<Self::Arg>
        ensures is { result ≡ option_map (λ makes. makes.arg name) made.tokens }
        ensures takes { IfSome result (λ a. made.registers a ≡ 0) };

    /// How many registers an argument takes.
    fn registers_of(arg: &Self::Arg) -> u32
        ensures { result ≡ made.registers arg.now };

    /// A variable is set.
    fn set_of(at: u32, end: u32, name: Name, value: Self::Expr) -> Self::Stmt
        ensures { result ≡ made.set at end name value };

    /// An element of an array is set.
    fn set_at_of(at: u32, end: u32, name: Name, index: Self::Expr, value: Self::Expr) -> Self::Stmt
        ensures { result ≡ made.set_at at end name index value };

    /// A call whose value isn't used.
    fn do_call_of(at: u32, end: u32, name: Name, args: Items<Self::Arg>) -> Self::Stmt
        ensures { result ≡ made.do_call at end name args };

    /// What is done where the condition holds.
    fn if_then_of(at: u32, end: u32, condition: Self::Expr, body: Items<Self::Stmt>) -> Self::Stmt
        ensures { result ≡ made.if_then at end condition body };

    /// What is done where the condition holds, and what where it doesn't.
    fn if_else_of(
        at: u32,
        end: u32,
        condition: Self::Expr,
        body: Items<Self::Stmt>,
        other: Items<Self::Stmt>,
    ) -> Self::Stmt
        ensures { result ≡ made.if_else at end condition body other };

    /// What is done as long as the condition holds.
    fn while_of(at: u32, end: u32, condition: Self::Expr, body: Items<Self::Stmt>) -> Self::Stmt
        ensures { result ≡ made.while at end condition body };

    /// The procedure ends with a value.
    fn return_of(at: u32, end: u32, value: Self::Expr) -> Self::Stmt
        ensures { result ≡ made.return at end value };

    /// The program ends with a value.
    fn halt_of(at: u32, end: u32, value: Self::Expr) -> Self::Stmt
        ensures { result ≡ made.halt at end value };

    /// A token is filled, where the language has tokens.
    fn make_of(at: u32, end: u32, name: Name) -> Option<Self::Stmt>
        ensures { result ≡ option_map (λ makes. makes.make at end name) made.tokens };

    /// A token is spent, where the language has tokens.
    fn spend_of(at: u32, end: u32, name: Name) -> Option<Self::Stmt>
        ensures { result ≡ option_map (λ makes. makes.spend at end name) made.tokens };

    /// A parameter. It takes one register.
    fn param_of(name: Name) -> Self::Param
        ensures is { result ≡ made.param name }
        ensures takes { made.param_registers result ≡ 1 }
        ensures tokens { made.param_tokens result ≡ 0 };

    /// A callback, by how many registers a call of it hands over. It takes two registers.
    fn callback_of(name: Name, arity: u32) -> Self::Param
        ensures is { result ≡ made.callback name arity }
        ensures takes { made.param_registers result ≡ 2 }
        ensures tokens { made.param_tokens result ≡ 0 };

    /// A parameter that is a token, where the language has tokens. It takes no register.
    fn token_param_of(name: Name) -> Option<Self::Param>
        ensures is { result ≡ option_map (λ makes. makes.param name) made.tokens }
        ensures takes { IfSome result (λ p. made.param_registers p ≡ 0) }
        ensures tokens { IfSome result (λ p. made.param_tokens p ≡ 1) };

    /// How many registers a parameter takes.
    fn param_registers_of(param: &Self::Param) -> u32
        ensures { result ≡ made.param_registers param.now };

    /// How many tokens a parameter is.
    fn param_tokens_of(param: &Self::Param) -> u32
        ensures { result ≡ made.param_tokens param.now };

    /// A local.
    fn local_of(name: Name) -> Self::Local
        ensures is { result ≡ made.local name }
        ensures takes { made.local_count result ≡ 1 }
        ensures tokens { made.local_tokens result ≡ 0 };

    /// A local that is a token, where the language has tokens. It counts as no local.
    fn token_local_of(name: Name) -> Option<Self::Local>
        ensures is { result ≡ option_map (λ makes. makes.local name) made.tokens }
        ensures takes { IfSome result (λ x. made.local_count x ≡ 0) }
        ensures tokens { IfSome result (λ x. made.local_tokens x ≡ 1) };

    /// As how many locals one counts.
    fn local_count_of(local: &Self::Local) -> u32
        ensures { result ≡ made.local_count local.now };

    /// How many tokens a local is.
    fn local_tokens_of(local: &Self::Local) -> u32
        ensures { result ≡ made.local_tokens local.now };

    /// A procedure.
    fn proc_of(
        at: u32,
        end: u32,
        shared: bool,
        name: Name,
        params: Items<Self::Param>,
        locals: Items<Self::Local>,
        body: Items<Self::Stmt>,
    ) -> Self::Proc
        ensures { result ≡ made.proc at end shared name params locals body };

    /// A module.
    fn module_of(
        header: ModuleHeader,
        imports: Items<Import>,
        globals: Items<Global>,
        procs: Items<Self::Proc>,
    ) -> Self::Module
        ensures { result ≡ made.module_of header imports globals procs };
}
