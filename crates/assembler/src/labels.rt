//! The labels of a text.
ghost use Rattle.std.specs.Prelude.{◌≡◌, ◌<◌, [], ◌∷◌, ◌++◌, None, OnOk, OnErr, IfSome};
ghost use Rattle.assembler.specs.Labels.{label_of, is_in, offset_of};

use cap_words::LONGEST_STRETCH;
use indexmap::IndexMap;
use std::alloc::{AllocError, Global};
use std::marker::Model;

/// A section of a text that has labels.
#[derive(Clone, Copy)]
pub enum Section {
    /// The code.
    Code,
    /// The data.
    Data,
}

/// Where a label stands.
#[derive(Clone, Copy)]
pub struct Label {
    /// The section in which it stands.
    pub section: Section,
    /// Before which word of the section it stands, counted from 0.
    pub offset: u32,
}

/// The labels of a text, as far as it was read. A contract sees each with its name, in the order of
/// the text.
#[derive(Drop)]
pub struct Labels<'a> {
    table: IndexMap<&'a [u8], Label>,
}

impl<'a> Model for Labels<'a> {
    ghost use Rattle.std.specs.Prelude.{List, ℕ, map};
    ghost use Rattle.assembler.specs.declared.labels.Label.{Label};
    ghost use Rattle.assembler.specs.Labels.{AreWithin};

    ghost Value = { List (List ℕ × Label) };

    ghost view = { λ l. map (λ e. (e.0.now, e.1)) l.table.entries };

    ghost invariant = { λ l. AreWithin (map (λ e. (e.0.now, e.1)) l.table.entries) };
}

fn is_in(label: Label, section: Section) -> bool
    ensures { result ≡ is_in section label }
{
    label.section == section
}

impl<'a> Labels<'a> {
    /// No labels. It takes no memory.
    pub fn new(alloc: Global) -> Labels<'a>
        ensures { result ≡ [] }
    {
        Labels {
            table: IndexMap::new(alloc),
        }
    }

    /// The label of this name.
    pub fn find(&self, name: &[u8]) -> Option<Label>
        ensures is { result ≡ label_of name.now self.now }
        ensures within { IfSome result (λ l. l.offset < LONGEST_STRETCH) }
    {
        self.table.get(name).copied()
    }

    /// The offset of the label of this name, where it stands in this section.
    pub fn offset_of(&self, section: Section, name: &[u8]) -> Option<u32>
        ensures is { result ≡ offset_of section name.now self.now }
        ensures within { IfSome result (λ n. n < LONGEST_STRETCH) }
    {
        match self.find(name) {
            Some(label) if is_in(label, section) => Some(label.offset),
            _ => None,
        }
    }

    /// Adds a label whose name is new. Where memory is refused, nothing changes.
    pub fn add(&mut self, name: &'a [u8], label: Label) -> Result<(), AllocError>
        requires new { label_of name.now self.old ≡ None }
        requires within { label.offset < LONGEST_STRETCH }
        ensures ok { OnOk result (self.new ≡ self.old ++ (name.now, label) ∷ []) }
        ensures err { OnErr result (self.new ≡ self.old) }
    {
        self.table.insert(name, label)?;
        Ok(())
    }
}
