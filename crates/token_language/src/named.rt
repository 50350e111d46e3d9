//! The names of procedures, and of what they have of their own.
ghost use Rattle.std.specs.Prelude.{◌≡◌};

use crate::module::{TokenLocal, TokenParam, TokenProc};
use proc_language::Name;
use proc_names::Named;

impl Named for TokenProc {
    ghost name_of = { λ p. p.name };

    fn name(&self) -> &Name {
        &self.name
    }
}

impl Named for TokenParam {
    ghost use Rattle.token_language.specs.Tokens.{param_name};

    ghost name_of = { param_name };

    fn name(&self) -> &Name {
        match self {
            TokenParam::Plain(q) => &q.name,
            TokenParam::Token(x) => x,
        }
    }
}

impl Named for TokenLocal {
    ghost use Rattle.token_language.specs.Tokens.{local_name};

    ghost name_of = { local_name };

    fn name(&self) -> &Name {
        match self {
            TokenLocal::Plain(x) => x,
            TokenLocal::Token(x) => x,
        }
    }
}
