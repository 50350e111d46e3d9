//! What a command line asks for.

use crate::name::FileName;
use crate::number::{Seed, Steps};
use crate::part::{PartWord, PartWords};

/// What is run.
#[derive(Drop)]
pub enum Linked<'a> {
    /// Parts that are linked, with the size of their stack in words.
    Parts(PartWords<'a>, u32),
    /// The image of parts that were linked before.
    Image(FileName<'a>),
}

/// What is done with what links.
#[derive(Drop)]
pub enum LinkDeed<'a> {
    /// `run`: the plain machine runs, for so many steps at most.
    Run(Steps),
    /// `trace`: the overlay runs, for so many steps at most.
    Trace(Steps),
    /// `link`: the image is put into a file.
    Store(FileName<'a>),
    /// `reach`: what each part can reach is written.
    Reach,
}

/// What is done with one component.
#[derive(Drop)]
pub enum ComponentDeed<'a> {
    /// `asm`, `compile`: it is put into a file.
    Put(FileName<'a>),
    /// `dis`: its text is written.
    Show,
}

/// What a command line asks for: what is read, and what is done with it.
#[derive(Drop)]
pub enum Command<'a> {
    /// Parts that are linked, or an image.
    Links(Linked<'a>, LinkDeed<'a>),
    /// The component of one part, of which no rule is asked.
    Takes(PartWord<'a>, ComponentDeed<'a>),
    /// `check`: one part with its own rules.
    Checks(PartWord<'a>),
    /// `mean`: what modules mean, with the size of the stack and the fuel, over the feed of a file.
    Mean(PartWords<'a>, u32, Steps, FileName<'a>),
    /// `generate`: the load of a seed.
    Generate(Seed),
    /// `debug`: what links is debugged by the script of a file.
    Debug(Linked<'a>, FileName<'a>),
    /// `audit`: the text of a file is audited as that of a run.
    Audit(FileName<'a>),
    /// `erase`: the text of a part without its tokens is put into a file.
    Erase(PartWord<'a>, FileName<'a>),
}
