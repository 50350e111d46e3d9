//! The items after the data of a text.
ghost use Rattle.std.specs.Prelude.{◌≡◌, nat_lt, OnOk, option_map};
ghost use Rattle.std.specs.Option.{option_copied};
ghost use Rattle.component_file.specs.Limits.{ascends, name_lt};
ghost use Rattle.assembler.specs.Tables.{tables_seen, no_tables, has_room, with_import, with_export};
ghost use Rattle.assembler.specs.Tables.{with_site, with_row, first_out_of_order};

use asm_fields::ItemKind;
use component_file::{Export, Import, KindRow, MOST_EXPORTS, MOST_IMPORTS, MOST_ROWS, MOST_SITES};
use std::alloc::{AllocError, Global};

/// The items after the data of a text, in their order. An offset that was written as a label is that of
/// the label, and 0 where there is none.
#[derive(Drop)]
pub struct Tables {
    /// What the part wants to call.
    pub imports: Vec<Import>,
    /// What the part lets others call.
    pub exports: Vec<Export>,
    /// The offsets of the part's own calls.
    pub sites: Vec<u32>,
    /// Where the code is said to have the instruction `fail` to which checks jump.
    pub fail_at: Option<u32>,
    /// Where the code is said to have the seal capability over the return seals.
    pub literal_at: Option<u32>,
    /// The kinds of registers at offsets.
    pub rows: Vec<KindRow>,
    /// The place of the first item that doesn't stand after the one before it in its table: slots,
    /// names and offsets must rise.
    pub out_of_order: Option<u32>,
}

fn name_lt(a: &[u8], b: &[u8]) -> bool
    ensures { result ≡ name_lt a.now b.now }
{
    a.cmp(b).is_lt()
}

// Whether a number stands rightly after the one before it.
fn rises(before: Option<u32>, number: u32) -> bool
    ensures { result ≡ ascends nat_lt before number }
{
    match before {
        Some(before) => before < number,
        None => true,
    }
}

// Whether an export of this name stands rightly after the one before it.
fn name_rises(before: Option<&Export>, name: &[u8]) -> bool
    ensures { result ≡ ascends name_lt (option_map (λ b. b.name) (option_copied before.entry)) name.now }
{
    match before {
        Some(export) => name_lt(export.name.as_slice(), name),
        None => true,
    }
}

// The place of the first item out of order, where one more came at this place.
fn first_out_of_order(before: Option<u32>, in_order: bool, at: u32) -> Option<u32>
    ensures { result ≡ first_out_of_order before in_order at }
{
    match before {
        Some(before) => Some(before),
        None if in_order => None,
        None => Some(at),
    }
}

impl Tables {
    // No items. It takes no memory.
    pub(crate) fn new(alloc: Global) -> Tables
        ensures { tables_seen result ≡ no_tables }
    {
        Tables {
            imports: Vec::new(alloc),
            exports: Vec::new(alloc),
            sites: Vec::new(alloc),
            fail_at: None,
            literal_at: None,
            rows: Vec::new(alloc),
            out_of_order: None,
        }
    }

    // Whether one more item of its kind may come.
    pub(crate) fn has_room(&self, item: ItemKind) -> bool
        ensures { result ≡ has_room item (tables_seen self.now) }
    {
        match item {
            ItemKind::Import => self.imports.len() < usize::from(MOST_IMPORTS),
            ItemKind::Export => self.exports.len() < usize::from(MOST_EXPORTS),
            ItemKind::Site => self.sites.len() < usize::from(MOST_SITES),
            ItemKind::Row => self.rows.len() < MOST_ROWS as usize,
            _ => true,
        }
    }

    // Notes whether the item that stands at this place is in order.
    fn note(&mut self, at: u32, in_order: bool)
        ensures { self.new ≡ record self.old {
          out_of_order = first_out_of_order self.old.out_of_order in_order at;
        } }
    {
        self.out_of_order = first_out_of_order(self.out_of_order, in_order, at);
    }

    pub(crate) fn push_import(&mut self, at: u32, import: Import) -> Result<(), AllocError>
        ensures { OnOk result (tables_seen self.new ≡ with_import at import (tables_seen self.old)) }
    {
        let in_order = rises(self.imports.last().map(|b| b.slot), import.slot);
        self.imports.push(import)?;
        self.note(at, in_order);
        Ok(())
    }

    pub(crate) fn push_export(&mut self, at: u32, export: Export) -> Result<(), AllocError>
        ensures { OnOk result (tables_seen self.new ≡ with_export at export (tables_seen self.old)) }
    {
        let in_order = name_rises(self.exports.last(), export.name.as_slice());
        self.exports.push(export)?;
        self.note(at, in_order);
        Ok(())
    }

    pub(crate) fn push_site(&mut self, at: u32, site: u32) -> Result<(), AllocError>
        ensures { OnOk result (tables_seen self.new ≡ with_site at site (tables_seen self.old)) }
    {
        let in_order = rises(self.sites.last().copied(), site);
        self.sites.push(site)?;
        self.note(at, in_order);
        Ok(())
    }

    pub(crate) fn push_row(&mut self, at: u32, row: KindRow) -> Result<(), AllocError>
        ensures { OnOk result (tables_seen self.new ≡ with_row at row (tables_seen self.old)) }
    {
        let in_order = rises(self.rows.last().map(|b| b.offset), row.offset);
        self.rows.push(row)?;
        self.note(at, in_order);
        Ok(())
    }
}
