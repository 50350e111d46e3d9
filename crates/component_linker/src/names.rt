//! Who is meant by names.
ghost use Rattle.std.specs.Prelude.{◌≡◌, ◌<◌, option_map, find};
ghost use Rattle.std.specs.Option.{option_copied};
ghost use Rattle.linked_starts.specs.Start.{same_name, NamesAscend, exported_by, part_named};
ghost use Rattle.linked_starts.specs.Start.{imported, is_main};
ghost use Rattle.linked_starts.specs.Start.{main_of};

use crate::placed::{Placed, PlacedParts};
use component_file::{Export, Import};
use std::marker::Model;

/// An export, and the part that has it.
#[derive(Drop)]
pub(crate) struct Exported<'a> {
    /// The part.
    pub(crate) part: Placed<'a>,
    /// Its export.
    pub(crate) export: &'a Export,
}

impl<'a> Model for Exported<'a> {
    ghost use Rattle.linked_starts.specs.Start.{Exported as ExportedSeen};

    ghost Value = { ExportedSeen };

    ghost view = { λ x. record { part = x.part; export = x.export.now } };
}

/// The name of the export at which a program starts.
const MAIN: &str = "main";

/// The first part of a name.
pub(crate) fn part_named<'a>(parts: &PlacedParts<'a>, name: &[u8]) -> Option<Placed<'a>>
    ensures { result ≡ part_named parts.now name.now }
{
    for index in 0..parts.len() {
        let part = parts.part(index);
        if part.name() == name {
            return Some(part);
        }
    }
    None
}

// The export of a name. Exports stand in the order of their names, so it is found by halving.
fn export_named<'a>(exports: &'a [Export], name: &[u8]) -> Option<&'a Export>
    requires { NamesAscend exports.now }
    ensures { option_copied result ≡ find (λ e. same_name e.name name.now) exports.now }
{
    match exports.binary_search_by(|export| export.name.as_slice().cmp(name)) {
        Ok(place) => Some(&exports[place]),
        Err(_) => None,
    }
}

// The export of a part, where it is one.
fn with_part<'a>(part: Placed<'a>, export: Option<&'a Export>) -> Option<Exported<'a>>
    ensures { result ≡ option_map (exported_by part.entry) (option_copied export.entry) }
{
    match export {
        Some(export) => Some(Exported { part, export }),
        None => None,
    }
}

/// What an import names, where it is there.
pub(crate) fn imported<'a>(parts: &PlacedParts<'a>, import: &Import) -> Option<Exported<'a>>
    ensures { result ≡ imported parts.now import.now }
{
    let part = part_named(parts, import.part.as_slice())?;
    let export = export_named(part.exports(), import.name.as_slice());
    with_part(part, export)
}

/// Whether it is shared under the name main.
pub(crate) fn is_main(export: &Export) -> bool
    ensures { result ≡ is_main export.now }
{
    export.shared && export.name.as_slice() == MAIN.as_bytes()
}

// The first export that is shared under the name main.
fn main_export<'a>(exports: &'a [Export]) -> Option<&'a Export>
    ensures { option_copied result ≡ find is_main exports.now }
{
    exports.iter().find(|export| is_main(export))
}

/// The first export that is shared under the name main, where there is one.
pub(crate) fn main_of<'a>(parts: &PlacedParts<'a>) -> Option<Exported<'a>>
    ensures { result ≡ main_of parts.now }
{
    for index in 0..parts.len() {
        let part = parts.part(index);
        let export = main_export(part.exports());
        if let Some(main) = with_part(part, export) {
            return Some(main);
        }
    }
    None
}
