//! From a text to its module and its component.
ghost use Rattle.std.specs.Prelude.{◌≡◌, ◌<◌, ◌^◌, [], IfOk, length};
ghost use Rattle.readers.specs.Answers.{AnswersUnlessRefused};
ghost use Rattle.readers.specs.Readers.{told_by};
ghost use Rattle.proc_parse.specs.Text.{parsed_text};
ghost use Rattle.proc_names.specs.NameFaults.{name_faults};
ghost use Rattle.token_parse.specs.Text.{parsed_text as parsed_tokens};
ghost use Rattle.proc_sources.specs.declared.fault.SourceFault.TheVariants.{Text, Size};
ghost use Rattle.proc_sources.specs.Sources.{is_refusal, text_fault, compile_answer, plain_in};
ghost use Rattle.proc_sources.specs.Sources.{without_tokens, erased_in, module_in, sourced};

use crate::fault::SourceFault;
use component_file::Component;
use proc_compiler::{CompileFault, compile};
use proc_grammar::ParseFault;
use proc_language::{Dialect, Module};
use proc_names::resolve;
use proc_parse::parse;
use std::alloc::Global;
use token_check::check_tokens;
use token_language::{TokenModule, erase, resolve_tokens};
use token_parse::parse_tokens;

// A fault of a text, or that memory was refused.
fn text_fault(fault: ParseFault) -> SourceFault
    ensures { result ≡ text_fault fault }
{
    match fault {
        ParseFault::NoMemory => SourceFault::NoMemory,
        fault => SourceFault::Text(fault),
    }
}

// The module that a text spells.
fn parsed(alloc: Global, text: &[u8]) -> Result<Module, SourceFault>
    requires { length text.now < 2 ^ 32 }
    ensures { AnswersUnlessRefused is_refusal result (told_by Text (parsed_text text.now)) }
{
    match parse(alloc, text) {
        Ok(module) => Ok(module),
        Err(fault) => Err(text_fault(fault)),
    }
}

// The module that a text without tokens spells.
#[tactic(auto, unfolding(crate::specs::Sources::plain_in))]
fn plain_module(alloc: Global, text: &[u8]) -> Result<Module, SourceFault>
    requires { length text.now < 2 ^ 32 }
    ensures exact { AnswersUnlessRefused is_refusal result (plain_in text.now) }
    ensures fine { IfOk result (λ m. name_faults m ≡ []) }
{
    let module = parsed(alloc, text)?;
    match resolve(&module) {
        Ok(()) => Ok(module),
        Err(fault) => Err(SourceFault::Name(fault)),
    }
}

// The module with tokens that a text spells.
fn tokens_parsed(alloc: Global, text: &[u8]) -> Result<TokenModule, SourceFault>
    requires { length text.now < 2 ^ 32 }
    ensures { AnswersUnlessRefused is_refusal result (told_by Text (parsed_tokens text.now)) }
{
    match parse_tokens(alloc, text) {
        Ok(module) => Ok(module),
        Err(fault) => Err(text_fault(fault)),
    }
}

// What is left of a module without its tokens, where its names are resolved and its tokens are spent once
// each.
fn without_tokens(alloc: Global, m: &TokenModule) -> Result<Module, SourceFault>
    ensures exact { AnswersUnlessRefused is_refusal result (without_tokens m.now) }
    ensures fine { IfOk result (λ erased. name_faults erased ≡ []) }
{
    if let Err(fault) = resolve_tokens(m) {
        return Err(SourceFault::Name(fault));
    }
    if let Err(fault) = check_tokens(m) {
        return Err(SourceFault::Token(fault));
    }
    match erase(alloc, m) {
        Ok(erased) => Ok(erased),
        Err(_) => Err(SourceFault::NoMemory),
    }
}

// What is left of the module of a text without its tokens.
#[tactic(auto, using(crate::proofs::Modules::erased_steps))]
fn erased_module(alloc: Global, text: &[u8]) -> Result<Module, SourceFault>
    requires { length text.now < 2 ^ 32 }
    ensures exact { AnswersUnlessRefused is_refusal result (erased_in text.now) }
    ensures fine { IfOk result (λ m. name_faults m ≡ []) }
{
    let module = tokens_parsed(alloc, text)?;
    without_tokens(alloc, &module)
}

/// The module that a text in this language spells, whose names are resolved; of a text with tokens what is
/// left of it without them.
///
/// A fault is the first: of the text, of its names, or of its tokens. `NoMemory` may come for any text.
pub fn module_of(alloc: Global, dialect: Dialect, text: &[u8]) -> Result<Module, SourceFault>
    requires { length text.now < 2 ^ 32 }
    // Which module, or which fault.
    ensures exact { AnswersUnlessRefused is_refusal result (module_in dialect text.now) }
    ensures fine { IfOk result (λ m. name_faults m ≡ []) }
{
    match dialect {
        Dialect::Plain => plain_module(alloc, text),
        Dialect::Tokens => erased_module(alloc, text),
    }
}

// The component of a module whose names are resolved.
fn compiled(alloc: Global, m: &Module) -> Result<Component, SourceFault>
    requires { name_faults m.now ≡ [] }
    ensures { AnswersUnlessRefused is_refusal result (told_by Size (compile_answer m.now)) }
{
    match compile(alloc, m) {
        Ok(component) => Ok(component),
        Err(CompileFault::NoMemory) => Err(SourceFault::NoMemory),
        Err(fault) => Err(SourceFault::Size(fault)),
    }
}

/// The component of the module that a text in this language spells.
///
/// A fault is the first: of the text, of its names, of its tokens, or of the size of what it is compiled
/// to. `NoMemory` may come for any text.
#[tactic(auto, unfolding(crate::specs::Sources::sourced))]
pub fn component_of(alloc: Global, dialect: Dialect, text: &[u8]) -> Result<Component, SourceFault>
    requires { length text.now < 2 ^ 32 }
    // Which component, or which fault.
    ensures { AnswersUnlessRefused is_refusal result (sourced dialect text.now) }
{
    let module = module_of(alloc, dialect, text)?;
    compiled(alloc, &module)
}
