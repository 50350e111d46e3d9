//! What lines show of a machine.
ghost use Rattle.std.specs.Prelude.{◌≡◌, None, Some, option_map, MatchOption};
ghost use Rattle.cap_words.specs.Text.{word_text_of};
ghost use Rattle.cap_words.specs.Face.{opened_of, OpenedInOrder};
ghost use Rattle.lcm_isa.specs.declared.Reg.TheVariants.{Pc};
ghost use Rattle.run_lines.specs.EndLines.{address_in};

use arrayvec::ArrayString;
use cap_words::{Opened, Word, word_text};
use lcm_isa::Reg;
use lcm_machine::LcmState;
use overlay_machine::{OWord, Overlay};

/// A machine whose words can be shown, as the plain words that they are or stand for.
pub trait Shown {
    ghost use Rattle.run_lines.specs.Views.{View};

    // the words that it shows
    ghost view: { Self → View };

    /// The text of a register's word.
    fn text(&self, r: Reg) -> ArrayString<128>
        ensures { result.bytes ≡ word_text_of ((view self.now).reg r) };

    /// The seal and the content of a register's word, where it is a sealed one.
    fn opened(&self, r: Reg) -> Option<Opened>
        ensures is { result ≡ opened_of ((view self.now).reg r) }
        ensures in_order { OpenedInOrder result };

    /// pc's address, where pc holds a memory capability.
    fn pc(&self) -> Option<i64>
        ensures { result ≡ address_in ((view self.now).reg Pc) };

    /// The text of the word at an address, where there is one.
    fn text_at(&self, at: u32) -> Option<ArrayString<128>>
        ensures { MatchOption result
            ((view self.now).cell at ≡ None)
            (λ t. option_map word_text_of ((view self.now).cell at) ≡ Some t.bytes) };
}

impl Shown for LcmState {
    ghost use Rattle.run_lines.specs.Views.{view_of};

    ghost view = { λ s. view_of s.maps };

    fn text(&self, r: Reg) -> ArrayString<128> {
        word_text(self.reg(r))
    }

    fn opened(&self, r: Reg) -> Option<Opened> {
        self.reg(r).opened()
    }

    fn pc(&self) -> Option<i64> {
        match self.reg(Reg::Pc) {
            Word::Mem(cap) => Some(cap.fields().addr),
            _ => None,
        }
    }

    fn text_at(&self, at: u32) -> Option<ArrayString<128>> {
        if self.has_cell(at) {
            Some(word_text(self.cell(at)))
        } else {
            None
        }
    }
}

impl Shown for Overlay {
    ghost use Rattle.run_lines.specs.Views.{overlay_view};

    ghost view = { λ o. overlay_view o };

    fn text(&self, r: Reg) -> ArrayString<128> {
        self.flat_text(self.reg(r))
    }

    fn opened(&self, r: Reg) -> Option<Opened> {
        self.flat_opened(self.reg(r))
    }

    #[tactic(auto, unfolding(overlay_machine::specs::Flat::flat))]
    fn pc(&self) -> Option<i64> {
        match self.reg(Reg::Pc) {
            OWord::Plain(Word::Mem(cap)) => Some(cap.fields().addr),
            _ => None,
        }
    }

    fn text_at(&self, at: u32) -> Option<ArrayString<128>> {
        match self.word_at(at) {
            Some(word) => Some(self.flat_text(word)),
            None => None,
        }
    }
}
