//! References to labels, and the words of code that wait for them.
ghost use Rattle.std.specs.Prelude.{◌≡◌, ◌<◌, ◌≤◌, ℕ, length, slice_get, [], ◌∷◌, ◌++◌};
ghost use Rattle.std.specs.Prelude.{Some, None, OnOk, OnErr};
ghost use Rattle.std.specs.List.{AllByRecursion};
ghost use Rattle.assembler.specs.References.{value_of, user_word, user_place, word_resolved, IsReady};
ghost use Rattle.assembler.specs.References.{AreReady};
ghost use Rattle.assembler.specs.References.{resolved, Resolves, HasOwn, WaitsForNone};
ghost use Rattle.asm_fields.specs.Instrs.{last_seen};
ghost use Rattle.assembler.specs.Draft.{reference_of};

use crate::fixup::Fixup;
use crate::labels::{Labels, Section};
use asm_fields::Last;
use cap_words::{LONGEST_STRETCH, Word};
use std::alloc::{AllocError, Global};
use std::marker::Model;

/// A reference to a label that the text doesn't have in the section that is meant.
#[derive(Clone, Copy)]
pub struct MissingLabel {
    /// The place of the reference in the text.
    pub at: u32,
}

// Who refers to a label: a word of code, or a table, at this place of the text.
enum User {
    Word(Fixup),
    Table(u32),
}

struct Reference<'a> {
    user: User,
    section: Section,
    name: &'a [u8],
}

/// The references to labels, in the order of the text. They must be spent, by `resolve` or by `give_up`.
pub struct References<'a> {
    list: Vec<Reference<'a>>,
}

impl<'a> Model for References<'a> {
    ghost use Rattle.std.specs.Prelude.{List, map};
    ghost use Rattle.assembler.specs.References.{Reference, user_word, user_place};

    ghost Value = { List Reference };

    ghost view = { λ r. map (λ x. record {
      word = user_word x.user;
      at = user_place x.user;
      section = x.section;
      name = x.name.now;
    }) r.list.items };
}

impl User {
    fn place(&self) -> u32
        ensures { result ≡ user_place self.now }
    {
        match self {
            User::Word(fixup) => fixup.label_at,
            User::Table(at) => *at,
        }
    }

    // Spends it.
    fn give_up(self) {
        match self {
            User::Word(fixup) => fixup.give_up(),
            User::Table(_) => {}
        }
    }

    // Gives a word of code what it waits for.
    fn resolve(self, section: Section, offset: u32, code: &mut Vec<Word>)
        requires ready { IsReady code.old.items (user_word self) }
        requires few { length code.old.items ≤ LONGEST_STRETCH }
        requires within { offset < LONGEST_STRETCH }
        ensures { code.new.items ≡ word_resolved (user_word self) section offset code.old.items }
    {
        match self {
            User::Word(fixup) => {
                let value = value_of(fixup.word, section, offset);
                fixup.patch(code, value);
            }
            User::Table(_) => {}
        }
    }
}

// What the word at an offset of the code gets from a label.
fn value_of(word: u32, section: Section, offset: u32) -> i32
    requires word { word < LONGEST_STRETCH }
    requires offset { offset < LONGEST_STRETCH }
    ensures { result ≡ value_of word section offset }
{
    match section {
        Section::Code => offset as i32 + 1 - word as i32,
        Section::Data => offset as i32,
    }
}

impl<'a> References<'a> {
    /// No references. It takes no memory.
    pub fn new(alloc: Global) -> References<'a>
        ensures { result ≡ [] }
    {
        References {
            list: Vec::new(alloc),
        }
    }

    fn push(&mut self, user: User, section: Section, name: &'a [u8]) -> Result<(), AllocError>
        ensures ok { OnOk result (self.new ≡ self.old ++ record {
          word = user_word user;
          at = user_place user;
          section = section;
          name = name.now;
        } ∷ []) }
        ensures err { OnErr result (self.new ≡ self.old) }
    {
        let reference = Reference {
            user,
            section,
            name,
        };
        match self.list.push(reference) {
            Ok(()) => Ok(()),
            Err(failed) => {
                let Reference {
                    user,
                    section: _,
                    name: _,
                } = failed.value;
                user.give_up();
                Err(AllocError)
            }
        }
    }

    // Adds the reference of a word of code, whose label has its sign at this place of the text.
    fn push_word(
        &mut self,
        word: u32,
        at: u32,
        section: Section,
        name: &'a [u8],
    ) -> Result<(), AllocError>
        ensures ok { OnOk result (self.new ≡ self.old ++
            record { word = Some word; at = at; section = section; name = name.now } ∷ []) }
        ensures err { OnErr result (self.new ≡ self.old) }
    {
        let fixup = Fixup { word, label_at: at };
        self.push(User::Word(fixup), section, name)
    }

    /// Adds the reference, if any, that the last operand makes of the instruction at a word of code: the
    /// distance of a code label from the word before, or the offset of a data label. Where memory is
    /// refused, nothing changes.
    pub fn push_last(&mut self, word: u32, last: Last<'a>) -> Result<(), AllocError>
        ensures ok { OnOk result (self.new ≡ self.old ++ reference_of word (last_seen last.entry)) }
        ensures err { OnErr result (self.new ≡ self.old) }
    {
        match last {
            Last::Plain(_) => Ok(()),
            Last::Code(at, name) => self.push_word(word, at, Section::Code, name),
            Last::Data(at, name) => self.push_word(word, at, Section::Data, name),
        }
    }

    /// Adds the reference of a table, at this place of the text. Where memory is refused, nothing
    /// changes.
    pub fn push_table(
        &mut self,
        at: u32,
        section: Section,
        name: &'a [u8],
    ) -> Result<(), AllocError>
        ensures ok { OnOk result (self.new ≡ self.old ++
            record { word = None; at = at; section = section; name = name.now } ∷ []) }
        ensures err { OnErr result (self.new ≡ self.old) }
    {
        self.push(User::Table(at), section, name)
    }

    /// Spends them, where the text has a fault. It takes no memory.
    pub fn give_up(self) {
        let References { mut list } = self;
        while let Some(reference) = list.pop() {
            let Reference {
                user,
                section: _,
                name: _,
            } = reference;
            user.give_up();
        }
        list.destroy_empty();
    }

    /// Gives each word that waits for a label what it waits for, or tells the first reference whose
    /// label isn't there; then some words may have got theirs. It takes no memory.
    #[tactic(auto, unfolding(crate::specs::References::resolved))]
    pub fn resolve(self, labels: &Labels<'_>, code: &mut Vec<Word>) -> Result<(), MissingLabel>
        requires ready { AreReady 0 code.old.items self }
        requires few { length code.old.items ≤ LONGEST_STRETCH }
        ensures exact { Resolves result code.new.items (resolved labels.now self.entry code.old.items) }
        // Each word that waits gets what its own reference says, and no other word changes.
        ensures own { OnOk result
            (AllByRecursion (HasOwn labels.now code.old.items code.new.items) self.entry) }
        ensures others { OnOk result ((k : ℕ) → WaitsForNone k self.entry →
            slice_get code.new.items k ≡ slice_get code.old.items k) }
        ensures as_many { OnOk result (length code.new.items ≡ length code.old.items) }
    {
        let References { mut list } = self;
        list.reverse();
        while let Some(reference) = list.pop() {
            let Reference {
                user,
                section,
                name,
            } = reference;
            match labels.offset_of(section, name) {
                Some(offset) => user.resolve(section, offset, code),
                None => {
                    let at = user.place();
                    user.give_up();
                    References { list }.give_up();
                    return Err(MissingLabel { at });
                }
            }
        }
        list.destroy_empty();
        Ok(())
    }
}
