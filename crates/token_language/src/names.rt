//! Names, once more.
ghost use Rattle.std.specs.Prelude.{◌≡◌, ◌++◌, IfOk};
ghost use Rattle.token_language.specs.Fronts.{at_most_one};

use cap_words::Items;
use proc_language::Name;
use std::alloc::{AllocError, Global};

/// The same name.
pub(crate) fn name(alloc: Global, x: &Name) -> Result<Name, AllocError>
    ensures { IfOk result (λ y. y ≡ x.now) }
{
    let mut text = Vec::new(alloc);
    text.extend_from_slice(x.text.as_slice())?;
    Ok(Name {
        text: Items::of(text),
        at: x.at,
    })
}

/// Puts what there is after the others.
pub(crate) fn add<T: Drop>(list: &mut Vec<T>, next: Option<T>) -> Result<(), AllocError>
    ensures { IfOk result (λ _. list.new.items ≡ list.old.items ++ at_most_one next) }
{
    if let Some(x) = next {
        list.push(x)?;
    }
    Ok(())
}
