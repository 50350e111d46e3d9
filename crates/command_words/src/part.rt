//! Part words and image words.
ghost use Rattle.std.specs.Prelude.{◌≡◌, ◌≤◌, length, IfOk, IfSome, nat_eq};
ghost use Rattle.std.specs.Option.{option_map};
ghost use Rattle.std.specs.List.{ends_with};
ghost use Rattle.command_words.specs.Part.{mark_in, ending_in, has_tokens, may_be, part_in, parts_in};
ghost use Rattle.command_words.specs.Part.{dialect_of, some_parts_in, one_part_in, image_in, one_image_in};
ghost use Rattle.command_words.specs.Texts.{texts_of, all_texts};

use crate::MOST_PARTS;
use crate::name::FileName;
use proc_language::Dialect;
use std::alloc::{AllocError, Global};
use std::marker::Model;

/// What stands before a part's name.
#[derive(Clone, Copy)]
pub enum Mark {
    /// `t:`
    Trusted,
    /// `u:`
    Untrusted,
}

/// What a part's name ends in, which says what its file holds.
#[derive(Clone, Copy, PartialEq, Eq)]
pub enum Ending {
    /// `.prc` or `.tok`, a source in this language.
    Source(Dialect),
    /// `.asm`, an assembler text.
    Assembler,
    /// `.stc`, a component.
    Component,
}

impl Ending {
    ghost use Rattle.std.specs.Prelude.{is_some};
    ghost use Rattle.command_words.specs.Part.{dialect_of, has_tokens};

    /// The language of a source.
    pub fn dialect(self) -> Option<Dialect>
        ensures { result ≡ dialect_of self }
    {
        match self {
            Ending::Source(dialect) => Some(dialect),
            Ending::Assembler => None,
            Ending::Component => None,
        }
    }

    /// Whether the file is a source.
    pub fn is_source(self) -> bool
        ensures { result ≡ is_some (dialect_of self) }
    {
        self.dialect().is_some()
    }

    /// Whether the file is a source with tokens.
    pub fn has_tokens(self) -> bool
        ensures { result ≡ has_tokens self }
    {
        match self {
            Ending::Source(Dialect::Tokens) => true,
            Ending::Source(Dialect::Plain) => false,
            Ending::Assembler => false,
            Ending::Component => false,
        }
    }
}

/// A part word: `t:NAME` or `u:NAME`, where NAME has one of the endings; a source with tokens is trusted.
#[derive(Drop)]
pub struct PartWord<'a> {
    /// Whether the part is trusted.
    pub mark: Mark,
    /// What its file holds.
    pub ending: Ending,
    /// Its file, by the whole name with the ending.
    pub name: FileName<'a>,
}

/// The part words of a command, 1 to [`MOST_PARTS`] in their order. A contract sees the list.
#[derive(Drop)]
pub struct PartWords<'a> {
    words: Vec<PartWord<'a>>,
}

impl<'a> Model for PartWords<'a> {
    ghost use Rattle.std.specs.Prelude.{List, length, ◌≤◌};
    ghost use Rattle.command_words.specs.declared.part.PartWord.{PartWord};
    ghost use Rattle.command_words.specs.declared.TheConstants.{MOST_PARTS};

    ghost Value = { List PartWord };

    ghost view = { λ w. w.words.items };

    ghost invariant = { λ w. (1 ≤ length w.words.items) × (length w.words.items ≤ MOST_PARTS) };
}

impl<'a> PartWords<'a> {
    /// The words, to read.
    pub fn as_slice(&self) -> &[PartWord<'a>]
        ensures same { result.now ≡ self.now }
        ensures some { 1 ≤ length result.now }
        ensures few { length result.now ≤ MOST_PARTS }
    {
        self.words.as_slice()
    }
}

// The mark, and what follows it.
#[tactic(auto, unfolding(crate::specs::Part::mark_in))]
fn mark_of(word: &str) -> Option<(Mark, &str)>
    ensures { option_map (λ m. (m.0, m.1.now)) result ≡ mark_in word.now }
{
    if let Some(name) = word.strip_prefix("t:") {
        return Some((Mark::Trusted, name));
    }
    let name = word.strip_prefix("u:")?;
    Some((Mark::Untrusted, name))
}

fn ends(name: &str, ending: &str) -> bool
    ensures { result ≡ ends_with nat_eq name.now ending.now }
{
    name.ends_with(ending)
}

#[tactic(auto, unfolding(crate::specs::Part::ending_in))]
fn ending_of(name: &str) -> Option<Ending>
    ensures { result ≡ ending_in name.now }
{
    if ends(name, ".prc") {
        Some(Ending::Source(Dialect::Plain))
    } else if ends(name, ".tok") {
        Some(Ending::Source(Dialect::Tokens))
    } else if ends(name, ".asm") {
        Some(Ending::Assembler)
    } else if ends(name, ".stc") {
        Some(Ending::Component)
    } else {
        None
    }
}

// Whether a file with this ending may have this mark.
fn may_be(mark: Mark, ending: Ending) -> bool
    ensures { result ≡ may_be mark ending }
{
    mark == Mark::Trusted || !ending.has_tokens()
}

// A part word.
#[tactic(auto, unfolding(crate::specs::Part::part_in))]
fn part_of<'a>(word: &'a str) -> Option<PartWord<'a>>
    ensures { result ≡ part_in word.entry.now }
{
    let (mark, name) = mark_of(word)?;
    let ending = ending_of(name)?;
    let name = FileName::new(name)?;
    if may_be(mark, ending) {
        Some(PartWord { mark, ending, name })
    } else {
        None
    }
}

// An image word: a file's name that has no mark and ends in `.img`.
#[tactic(auto, unfolding(crate::specs::Part::image_in))]
fn image_of<'a>(word: &'a str) -> Option<FileName<'a>>
    ensures { result ≡ image_in word.entry.now }
{
    match mark_of(word) {
        Some(_) => None,
        None => {
            if ends(word, ".img") {
                FileName::new(word)
            } else {
                None
            }
        }
    }
}

// The part of each word, where each is a part word.
fn each_part<'a>(alloc: Global, words: &[&'a str]) -> Result<Option<Vec<PartWord<'a>>>, AllocError>
    ensures is { IfOk result (λ r. option_map (λ v. v.items) r ≡ parts_in (texts_of words.now)) }
    ensures count { IfOk result (λ r. IfSome r (λ v. length v.items ≡ length words.now)) }
{
    let mut parts = Vec::new(alloc);
    for word in words {
        let Some(part) = part_of(*word) else {
            return Ok(None);
        };
        parts.push(part)?;
    }
    Ok(Some(parts))
}

/// 1 to [`MOST_PARTS`] part words.
#[tactic(auto, unfolding(crate::specs::Part::some_parts_in))]
pub(crate) fn some_parts<'a>(
    alloc: Global,
    words: Option<&[&'a str]>,
) -> Result<Option<PartWords<'a>>, AllocError>
    ensures { IfOk result (λ r. r ≡ some_parts_in (all_texts words.entry)) }
{
    let Some(words) = words else {
        return Ok(None);
    };
    if words.is_empty() || MOST_PARTS < words.len() {
        return Ok(None);
    }
    match each_part(alloc, words)? {
        Some(words) => Ok(Some(PartWords { words })),
        None => Ok(None),
    }
}

/// One part word.
#[tactic(auto, unfolding(crate::specs::Part::one_part_in))]
pub(crate) fn one_part<'a>(words: Option<&[&'a str]>) -> Option<PartWord<'a>>
    ensures { result ≡ one_part_in (all_texts words.entry) }
{
    match words? {
        [word] => part_of(*word),
        _ => None,
    }
}

/// One image word.
#[tactic(auto, unfolding(crate::specs::Part::one_image_in))]
pub(crate) fn one_image<'a>(words: Option<&[&'a str]>) -> Option<FileName<'a>>
    ensures { result ≡ one_image_in (all_texts words.entry) }
{
    match words? {
        [word] => image_of(*word),
        _ => None,
    }
}
