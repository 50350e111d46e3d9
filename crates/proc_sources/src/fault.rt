//! Why a source is refused.
ghost use Rattle.std.specs.Prelude.{◌≡◌};
ghost use Rattle.proc_sources.specs.declared.fault.SourceFault.TheVariants.{Text, Name, Token, Size};

use proc_compiler::CompileFault;
use proc_grammar::ParseFault;
use proc_names::NameFault;
use token_check::TokenFault;

/// What is wrong with a source, or that memory was refused.
#[derive(Clone, Copy)]
pub enum SourceFault {
    /// The text spells no module.
    Text(ParseFault),
    /// A name leads to nothing that fits its use.
    Name(NameFault),
    /// A token isn't spent just once.
    Token(TokenFault),
    /// The module has no component: too many words, or fewer return seals than calls.
    Size(CompileFault),
    /// Memory was refused.
    NoMemory,
}
