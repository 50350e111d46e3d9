//! What has a name, and the first that has it.
ghost use Rattle.std.specs.Prelude.{◌≡◌};
ghost use Rattle.proc_names.specs.Names.{same, index_of};

use proc_language::{Global, Import, Name, Param, Proc};

/// What has a name.
pub trait Named {
    ghost use Rattle.proc_language.specs.declared.tree.Name.{Name};

    /// Its name.
    ghost name_of: { Self → Name };

    /// Its name.
    fn name(&self) -> &Name
        ensures { result.now ≡ name_of self.now };
}

/// By the name after the dot, under which it is called.
impl Named for Import {
    ghost name_of = { λ i. i.name };

    fn name(&self) -> &Name {
        &self.name
    }
}

impl Named for Global {
    ghost name_of = { λ g. g.name };

    fn name(&self) -> &Name {
        &self.name
    }
}

impl Named for Proc {
    ghost name_of = { λ p. p.name };

    fn name(&self) -> &Name {
        &self.name
    }
}

impl Named for Param {
    ghost name_of = { λ q. q.name };

    fn name(&self) -> &Name {
        &self.name
    }
}

impl Named for Name {
    ghost name_of = { λ x. x };

    fn name(&self) -> &Name {
        self
    }
}

/// Whether two names have the same bytes.
pub fn same(x: &Name, y: &Name) -> bool
    ensures { result ≡ same x.now y.now }
{
    x.text.as_slice() == y.text.as_slice()
}

/// The index of the first item that has the name.
pub fn index_of<T: Named>(items: &[T], x: &Name) -> Option<usize>
    ensures { result ≡ index_of T.name_of items.now x.now }
{
    items.iter().position(|item| same(item.name(), x))
}
