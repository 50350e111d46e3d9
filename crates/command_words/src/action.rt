//! The actions, each with its parts and options.
ghost use Rattle.std.specs.Prelude.{◌≡◌, IfOk, None, is_some, if◌then◌else◌};
ghost use Rattle.std.specs.List.{list_all, list_any};
ghost use Rattle.command_words.specs.Texts.{Text, texts, text_of, all_texts};
ghost use Rattle.command_words.specs.Views.{taken_in};
ghost use Rattle.command_words.specs.Action.{action_in, linked_asked, run_in, put_in, look_in, link_in};
ghost use Rattle.command_words.specs.Action.{is_module, mean_in, generate_in, reach_in, debug_in, audit_in};
ghost use Rattle.command_words.specs.Action.{asked_of, asked_by, asked_in};
ghost use Rattle.command_words.specs.Fits.{Fits};

use crate::command::{Command, ComponentDeed, LinkDeed, Linked};
use crate::fault::WordsFault;
use crate::line::{Taken, matches, taken_of};
use crate::name::file_of;
use crate::number::{Steps, seed_of, size_of, steps_of};
use crate::part::{Ending, Mark, PartWord, one_image, one_part, some_parts};
use std::alloc::{AllocError, Global};

// The first word.
#[derive(Clone, Copy)]
enum Action {
    Run,
    Trace,
    Put(PutAction),
    Look(LookAction),
    Link,
    Mean,
    Generate,
    Reach,
    Debug,
    Audit,
}

// What comes of one part is put into a file.
#[derive(Clone, Copy)]
enum PutAction {
    Assemble,
    Compile,
    Erase,
}

// What one part is or says is written.
#[derive(Clone, Copy)]
enum LookAction {
    Disassemble,
    Check,
}

#[tactic(auto, unfolding(crate::specs::Action::action_in))]
fn action_named(word: &str) -> Option<Action>
    ensures { result ≡ action_in word.now }
{
    match word {
        "run" => Some(Action::Run),
        "trace" => Some(Action::Trace),
        "asm" => Some(Action::Put(PutAction::Assemble)),
        "compile" => Some(Action::Put(PutAction::Compile)),
        "dis" => Some(Action::Look(LookAction::Disassemble)),
        "check" => Some(Action::Look(LookAction::Check)),
        "link" => Some(Action::Link),
        "mean" => Some(Action::Mean),
        "generate" => Some(Action::Generate),
        "reach" => Some(Action::Reach),
        "debug" => Some(Action::Debug),
        "audit" => Some(Action::Audit),
        "erase" => Some(Action::Put(PutAction::Erase)),
        _ => None,
    }
}

fn is_used(option: &Option<&str>) -> bool
    ensures { result ≡ is_some (text_of option.now) }
{
    option.is_some()
}

fn any_used(options: &[Option<&str>]) -> bool
    ensures { result ≡ list_any (λ option. is_some (text_of option)) options.now }
{
    options.iter().any(is_used)
}

// One image word and no size of a stack, or part words.
#[tactic(auto, unfolding(crate::specs::Action::linked_asked))]
fn linked_of<'a>(
    alloc: Global,
    words: Option<&[&'a str]>,
    stack: Option<&str>,
) -> Result<Option<Linked<'a>>, AllocError>
    ensures { IfOk result (λ r. r ≡ linked_asked (all_texts words.entry) (text_of stack.entry)) }
{
    if let Some(name) = one_image(words) {
        if stack.is_some() {
            return Ok(None);
        }
        return Ok(Some(Linked::Image(name)));
    }
    let Some(size) = size_of(stack) else {
        return Ok(None);
    };
    match some_parts(alloc, words)? {
        Some(parts) => Ok(Some(Linked::Parts(parts, size))),
        None => Ok(None),
    }
}

// `run` or `trace`.
#[tactic(auto, unfolding(crate::specs::Action::run_in))]
fn run<'a>(
    alloc: Global,
    is_traced: bool,
    taken: &Taken<'_, 'a>,
) -> Result<Option<Command<'a>>, AllocError>
    ensures { IfOk result (λ r. r
        ≡ run_in (λ n. if is_traced then LinkDeed.Trace n else LinkDeed.Run n) (taken_in taken.now)) }
{
    if any_used(&[taken.out, taken.feed, taken.seed]) {
        return Ok(None);
    }
    let Some(steps) = steps_of(taken.steps) else {
        return Ok(None);
    };
    let Some(what) = linked_of(alloc, taken.parts, taken.stack)? else {
        return Ok(None);
    };
    if is_traced {
        Ok(Some(Command::Links(what, LinkDeed::Trace(steps))))
    } else {
        Ok(Some(Command::Links(what, LinkDeed::Run(steps))))
    }
}

// `asm`, `compile` or `erase`.
#[tactic(auto, unfolding(crate::specs::Action::put_in))]
fn put<'a>(action: PutAction, taken: &Taken<'_, 'a>) -> Option<Command<'a>>
    ensures { result ≡ put_in action (taken_in taken.now) }
{
    if any_used(&[taken.stack, taken.steps, taken.feed, taken.seed]) {
        return None;
    }
    let part = one_part(taken.parts)?;
    let out = file_of(taken.out)?;
    match action {
        PutAction::Assemble if part.ending == Ending::Assembler => {
            Some(Command::Takes(part, ComponentDeed::Put(out)))
        }
        PutAction::Compile if part.ending.is_source() => {
            Some(Command::Takes(part, ComponentDeed::Put(out)))
        }
        PutAction::Erase if part.ending.has_tokens() => Some(Command::Erase(part, out)),
        _ => None,
    }
}

// `dis` or `check`.
#[tactic(auto, unfolding(crate::specs::Action::look_in))]
fn look<'a>(action: LookAction, taken: &Taken<'_, 'a>) -> Option<Command<'a>>
    ensures { result ≡ look_in action (taken_in taken.now) }
{
    if any_used(&[taken.stack, taken.steps, taken.out, taken.feed, taken.seed]) {
        return None;
    }
    let part = one_part(taken.parts)?;
    match action {
        LookAction::Disassemble => Some(Command::Takes(part, ComponentDeed::Show)),
        LookAction::Check => Some(Command::Checks(part)),
    }
}

#[tactic(auto, unfolding(crate::specs::Action::link_in))]
fn link<'a>(alloc: Global, taken: &Taken<'_, 'a>) -> Result<Option<Command<'a>>, AllocError>
    ensures { IfOk result (λ r. r ≡ link_in (taken_in taken.now)) }
{
    if any_used(&[taken.steps, taken.feed, taken.seed]) {
        return Ok(None);
    }
    let Some(size) = size_of(taken.stack) else {
        return Ok(None);
    };
    let Some(out) = file_of(taken.out) else {
        return Ok(None);
    };
    match some_parts(alloc, taken.parts)? {
        Some(parts) => Ok(Some(Command::Links(Linked::Parts(parts, size), LinkDeed::Store(out)))),
        None => Ok(None),
    }
}

fn is_module(part: &PartWord<'_>) -> bool
    ensures { result ≡ is_module part.now }
{
    part.mark == Mark::Trusted && part.ending.is_source()
}

fn are_modules(parts: &[PartWord<'_>]) -> bool
    ensures { result ≡ list_all is_module parts.now }
{
    parts.iter().all(is_module)
}

#[tactic(auto, unfolding(crate::specs::Action::mean_in))]
fn mean<'a>(alloc: Global, taken: &Taken<'_, 'a>) -> Result<Option<Command<'a>>, AllocError>
    ensures { IfOk result (λ r. r ≡ mean_in (taken_in taken.now)) }
{
    if any_used(&[taken.out, taken.seed]) {
        return Ok(None);
    }
    let Some(size) = size_of(taken.stack) else {
        return Ok(None);
    };
    let Some(fuel) = steps_of(taken.steps) else {
        return Ok(None);
    };
    let Some(feed) = file_of(taken.feed) else {
        return Ok(None);
    };
    match some_parts(alloc, taken.parts)? {
        Some(modules) => {
            if are_modules(modules.as_slice()) {
                Ok(Some(Command::Mean(modules, size, fuel, feed)))
            } else {
                Ok(None)
            }
        }
        None => Ok(None),
    }
}

#[tactic(auto, unfolding(crate::specs::Action::generate_in))]
fn generate<'a>(taken: &Taken<'_, 'a>) -> Option<Command<'a>>
    ensures { result ≡ generate_in (taken_in taken.now) }
{
    if taken.parts.is_some() || any_used(&[taken.stack, taken.steps, taken.out, taken.feed]) {
        return None;
    }
    let seed = seed_of(taken.seed)?;
    Some(Command::Generate(seed))
}

#[tactic(auto, unfolding(crate::specs::Action::reach_in))]
fn reach<'a>(alloc: Global, taken: &Taken<'_, 'a>) -> Result<Option<Command<'a>>, AllocError>
    ensures { IfOk result (λ r. r ≡ reach_in (taken_in taken.now)) }
{
    if any_used(&[taken.steps, taken.out, taken.feed, taken.seed]) {
        return Ok(None);
    }
    match linked_of(alloc, taken.parts, taken.stack)? {
        Some(what) => Ok(Some(Command::Links(what, LinkDeed::Reach))),
        None => Ok(None),
    }
}

#[tactic(auto, unfolding(crate::specs::Action::debug_in))]
fn debug<'a>(alloc: Global, taken: &Taken<'_, 'a>) -> Result<Option<Command<'a>>, AllocError>
    ensures { IfOk result (λ r. r ≡ debug_in (taken_in taken.now)) }
{
    if any_used(&[taken.steps, taken.out, taken.seed]) {
        return Ok(None);
    }
    let Some(script) = file_of(taken.feed) else {
        return Ok(None);
    };
    match linked_of(alloc, taken.parts, taken.stack)? {
        Some(what) => Ok(Some(Command::Debug(what, script))),
        None => Ok(None),
    }
}

#[tactic(auto, unfolding(crate::specs::Action::audit_in))]
fn audit<'a>(taken: &Taken<'_, 'a>) -> Option<Command<'a>>
    ensures { result ≡ audit_in (taken_in taken.now) }
{
    if taken.parts.is_some() || any_used(&[taken.stack, taken.steps, taken.out, taken.seed]) {
        return None;
    }
    let text = file_of(taken.feed)?;
    Some(Command::Audit(text))
}

// The action with its parts and options.
fn asked_of<'a>(
    alloc: Global,
    action: Action,
    taken: &Taken<'_, 'a>,
) -> Result<Option<Command<'a>>, AllocError>
    ensures { IfOk result (λ r. r ≡ asked_of action (taken_in taken.now)) }
{
    match action {
        Action::Run => run(alloc, false, taken),
        Action::Trace => run(alloc, true, taken),
        Action::Put(action) => Ok(put(action, taken)),
        Action::Look(action) => Ok(look(action, taken)),
        Action::Link => link(alloc, taken),
        Action::Mean => mean(alloc, taken),
        Action::Generate => Ok(generate(taken)),
        Action::Reach => reach(alloc, taken),
        Action::Debug => debug(alloc, taken),
        Action::Audit => Ok(audit(taken)),
    }
}

// What words taken apart ask for.
#[tactic(auto, unfolding(crate::specs::Action::asked_by))]
fn asked_by<'a>(alloc: Global, taken: &Taken<'_, 'a>) -> Result<Option<Command<'a>>, AllocError>
    ensures { IfOk result (λ r. r ≡ asked_by (taken_in taken.now)) }
{
    let Some(word) = taken.action else {
        return Ok(None);
    };
    let Some(action) = action_named(word) else {
        return Ok(None);
    };
    asked_of(alloc, action, taken)
}

// What the words ask for.
fn command_asked<'a>(alloc: Global, words: &'a [String]) -> Result<Option<Command<'a>>, AllocError>
    ensures { IfOk result (λ r. r ≡ asked_in (texts words.now)) }
{
    match matches(alloc, words)? {
        Some(matches) => asked_by(alloc, &taken_of(&matches)),
        None => Ok(None),
    }
}

/// What the words ask for, which are those after the program's own name.
///
/// Usage comes exactly where they ask for nothing and memory wasn't refused first: the command line
/// doesn't take them, or they break a rule of its action. NoMemory may come for any words.
pub fn command_of<'a>(alloc: Global, words: &'a [String]) -> Result<Command<'a>, WordsFault>
    ensures asked { IfOk result (λ c. asked_in (texts words.now) ≡ Some c) }
    ensures usage { result ≡ Err WordsFault.Usage → asked_in (texts words.now) ≡ None }

    // Names, numbers and counts are within their bounds.
    ensures fits { IfOk result Fits }
{
    match command_asked(alloc, words)? {
        Some(command) => Ok(command),
        None => Err(WordsFault::Usage),
    }
}
