//! Names that stand twice.
ghost use Rattle.std.specs.Prelude.{◌≡◌, ◌++◌, map, not};
ghost use Rattle.proc_names.specs.declared.fault.NameFault.TheVariants.{Twice};
ghost use Rattle.proc_names.specs.Faults.{first, unless};
ghost use Rattle.proc_names.specs.Names.{same};
ghost use Rattle.proc_names.specs.NameFaults.{again, twice, names_of_items, own_names};

use crate::fault::{NameFault, earlier};
use crate::named::{Named, same};
use proc_language::{Global, Import, Name, Proc};

// The first item that has the name again.
#[tactic(auto, using(crate::proofs::FirstLemmas::firsts))]
fn again<T: Named>(x: &Name, items: &[T]) -> Option<NameFault>
    ensures { result ≡ first (again x.now (map T.name_of items.now)) }
{
    let mut found = None;
    for item in items {
        found = earlier(found, met(x, item.name()));
    }
    found
}

fn met(x: &Name, y: &Name) -> Option<NameFault>
    ensures { result ≡ first (unless (not (same x.now y.now)) (Twice y.now.at)) }
{
    if same(x, y) {
        Some(NameFault::Twice(y.at))
    } else {
        None
    }
}

/// Where a name stands that an item before has: the first such place.
pub fn twice<T: Named>(items: &[T]) -> Option<NameFault>
    ensures { result ≡ first (twice (map T.name_of items.now)) }
{
    let mut found = None;
    let mut rest = items;
    while let Some((item, behind)) = rest.split_first() {
        found = earlier(found, again(item.name(), behind));
        rest = behind;
    }
    found
}

/// Where a name stands that an item before has, in two lists one after the other: the first such place.
pub fn twice_in_two<T: Named, U: Named>(items: &[T], others: &[U]) -> Option<NameFault>
    ensures { result ≡ first (twice (map T.name_of items.now ++ map U.name_of others.now)) }
{
    let mut found = None;
    let mut rest = items;
    while let Some((item, behind)) = rest.split_first() {
        let here = earlier(again(item.name(), behind), again(item.name(), others));
        found = earlier(found, here);
        rest = behind;
    }
    earlier(found, twice(others))
}

/// Where the name of an item of a module stands that one before has: the first such place.
pub fn items_twice<P: Named>(
    imports: &[Import],
    globals: &[Global],
    procs: &[P],
) -> Option<NameFault>
    ensures { result ≡ first (twice (names_of_items P.name_of imports.now globals.now procs.now)) }
{
    let mut found = None;
    let mut rest = imports;
    while let Some((item, behind)) = rest.split_first() {
        let here = earlier(
            again(&item.name, behind),
            earlier(again(&item.name, globals), again(&item.name, procs)),
        );
        found = earlier(found, here);
        rest = behind;
    }
    earlier(found, twice_in_two(globals, procs))
}

pub(crate) fn own_twice(p: &Proc) -> Option<NameFault>
    ensures { result ≡ first (twice (own_names p.now)) }
{
    twice_in_two(p.params.as_slice(), p.locals.as_slice())
}
