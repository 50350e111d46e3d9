//! What a call line and its ret line tell.
ghost use Rattle.std.specs.Prelude.{◌≡◌};
ghost use Rattle.run_audit.specs.Told.{is_wide, is_below, same_site, same_range, same_words, same_told};

use line_fields::Parts;
use std::marker::Model;

/// What a call line and its ret line tell of a frame: the name of a part, a site of it, the first and the
/// last address of a range, and the words. A contract sees the texts of the words.
#[derive(Drop)]
pub struct FrameLine<'a> {
    pub(crate) part: &'a [u8],
    pub(crate) site: u32,
    pub(crate) base: u32,
    pub(crate) last: u32,
    pub(crate) words: Parts<'a>,
}

impl<'a> Model for FrameLine<'a> {
    ghost use Rattle.run_audit.specs.Told.{ToldSeen};

    ghost Value = { ToldSeen };

    ghost view = { λ t. record {
      part = t.part.now;
      site = t.site;
      base = t.base;
      last = t.last;
      words = t.words;
    } };
}

// Whether these are the same words.
fn are_same(words: &Parts<'_>, others: &Parts<'_>) -> bool
    ensures { result ≡ same_words words.now others.now }
{
    let mut ours = words.again();
    let mut theirs = others.again();
    while let Some(word) = ours.part() {
        match theirs.part() {
            Some(other) if word == other => {}
            _ => return false,
        }
    }
    theirs.is_over()
}

impl<'a> FrameLine<'a> {
    /// Whether there is a word for each address of its range, which has none where it ends right below its
    /// base.
    pub(crate) fn is_wide(&self) -> bool
        ensures { result ≡ is_wide self.now }
    {
        let last = u64::from(self.last);
        let mut address = u64::from(self.base);
        let mut words = self.words.again();
        while !words.is_over() {
            if address > last || words.part().is_none() {
                return false;
            }
            address += 1;
        }
        address == last + 1
    }

    /// Whether its range lies below that of another.
    pub(crate) fn is_below(&self, other: &FrameLine<'_>) -> bool
        ensures { result ≡ is_below self.now other.now }
    {
        self.last < other.base
    }

    fn is_same_site(&self, other: &FrameLine<'_>) -> bool
        ensures { result ≡ same_site self.now other.now }
    {
        self.part == other.part && self.site == other.site
    }

    fn is_same_range(&self, other: &FrameLine<'_>) -> bool
        ensures { result ≡ same_range self.now other.now }
    {
        self.base == other.base && self.last == other.last
    }

    /// Whether both tell the same.
    pub(crate) fn is_same(&self, other: &FrameLine<'_>) -> bool
        ensures { result ≡ same_told self.now other.now }
    {
        if !self.is_same_site(other) {
            return false;
        }
        if !self.is_same_range(other) {
            return false;
        }
        are_same(&self.words, &other.words)
    }
}
