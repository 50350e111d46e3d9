//! Components from bytes.
ghost use Rattle.std.specs.Prelude.{◌≡◌, ◌<◌, ◌^◌, ◌⊎◌, length, IfOk, Ok, Err};
ghost use Rattle.component_file.specs.declared.fault.FileFault.TheVariants.{NoMemory, Trailing};
ghost use Rattle.component_file.specs.Spelling.{SpellsComponent};
ghost use Rattle.component_file.specs.declared.component.ComponentFields.{ComponentFields};
ghost use Rattle.component_file.specs.Fault.{is_refusal};
ghost use Rattle.readers.specs.Answers.{GivesUnlessRefused, AnswersUnlessRefused};
ghost use Rattle.readers.specs.Places.{finished};
ghost use Rattle.component_file.specs.Reading.{field, next_header, version_meant, next_words};
ghost use Rattle.component_file.specs.Reading.{decoded};
ghost use Rattle.component_file.specs.Parts.{next_head, next_memory, next_calls, next_declared};
ghost use Rattle.component_file.specs.Parts.{joined, next_parts};

use crate::component::{Area, Component, ComponentFields, Export, Import, KindRow};
use crate::fault::FileFault;
use crate::fields::{address, name, optional, stretch};
use crate::listed::{long_list, owned, short_list};
use crate::{
    FIXED_VERSION, MOST_EXPORTS, MOST_IMPORTS, MOST_ROWS, MOST_SITES, MOST_WORDS, MOVABLE_VERSION,
};
use cap_words::{Cursor, Items, SealRange, Word};
use std::alloc::Global;

// Whether a component of this version is movable.
fn version_meant(version: u16) -> Option<bool>
    ensures { result ≡ version_meant version }
{
    match version {
        FIXED_VERSION => Some(false),
        MOVABLE_VERSION => Some(true),
        _ => None,
    }
}

// `STKC`, and the version, which tells whether the component is movable.
#[tactic(auto, unfolding(crate::specs::Reading::next_header, readers::specs::Readers::telling))]
fn header(bytes: &mut Cursor<'_>) -> Result<bool, FileFault>
    ensures { GivesUnlessRefused is_refusal result bytes.new (next_header bytes.old) }
{
    if bytes.bytes(4)? != b"STKC".as_slice() {
        return Err(FileFault::Magic);
    }
    match version_meant(bytes.u16()?) {
        Some(movable) => Ok(movable),
        None => Err(FileFault::Version),
    }
}

#[tactic(auto, unfolding(crate::specs::Reading::next_words))]
fn words(alloc: Global, bytes: &mut Cursor<'_>) -> Result<Items<Word>, FileFault>
    ensures { GivesUnlessRefused is_refusal result bytes.new (next_words bytes.old) }
{
    long_list(alloc, 1, MOST_WORDS, bytes)
}

// What stands in front of the code.
#[derive(Drop)]
struct Head {
    movable: bool,
    name: Items<u8>,
    stack_base: u32,
    closure: u32,
    seals: SealRange,
    linear: Area,
}

#[tactic(auto, unfolding(crate::specs::Parts::next_head, readers::specs::Readers::telling))]
fn read_head(alloc: Global, bytes: &mut Cursor<'_>) -> Result<Head, FileFault>
    ensures { GivesUnlessRefused is_refusal result bytes.new (next_head bytes.old) }
{
    let movable = header(bytes)?;
    let name = name(bytes)?;
    let stack_base = address(bytes)?;
    let closure = address(bytes)?;
    let (first, seals) = stretch(bytes)?;
    let (base, count) = stretch(bytes)?;
    Ok(Head {
        movable,
        name: owned(alloc, name)?,
        stack_base,
        closure,
        seals: SealRange::new(first, seals),
        linear: Area { base, count },
    })
}

// The code, and the data.
#[derive(Drop)]
struct Memory {
    code_base: u32,
    code: Items<Word>,
    data_base: u32,
    data_words: Items<Word>,
}

#[tactic(auto, unfolding(crate::specs::Parts::next_memory, readers::specs::Readers::telling))]
fn read_memory(alloc: Global, bytes: &mut Cursor<'_>) -> Result<Memory, FileFault>
    ensures { GivesUnlessRefused is_refusal result bytes.new (next_memory bytes.old) }
{
    let code_base = address(bytes)?;
    let code = words(alloc, bytes)?;
    let data_base = address(bytes)?;
    let data_words = words(alloc, bytes)?;
    Ok(Memory {
        code_base,
        code,
        data_base,
        data_words,
    })
}

// What it calls, and what others may call.
#[derive(Drop)]
struct Calls {
    imports: Items<Import>,
    exports: Items<Export>,
    sites: Items<u32>,
}

#[tactic(auto, unfolding(crate::specs::Parts::next_calls))]
fn read_calls(alloc: Global, bytes: &mut Cursor<'_>) -> Result<Calls, FileFault>
    ensures { GivesUnlessRefused is_refusal result bytes.new (next_calls bytes.old) }
{
    let imports = short_list(alloc, MOST_IMPORTS, bytes)?;
    let exports = short_list(alloc, MOST_EXPORTS, bytes)?;
    let sites = short_list(alloc, MOST_SITES, bytes)?;
    Ok(Calls {
        imports,
        exports,
        sites,
    })
}

// What is declared of the code.
#[derive(Drop)]
struct Declared {
    fail_at: Option<u32>,
    literal_at: Option<u32>,
    rows: Items<KindRow>,
}

#[tactic(auto, unfolding(crate::specs::Parts::next_declared, readers::specs::Readers::telling))]
fn read_declared(alloc: Global, bytes: &mut Cursor<'_>) -> Result<Declared, FileFault>
    ensures { GivesUnlessRefused is_refusal result bytes.new (next_declared bytes.old) }
{
    let fail_at = optional(bytes)?;
    let literal_at = optional(bytes)?;
    let rows = long_list(alloc, 0, MOST_ROWS, bytes)?;
    Ok(Declared {
        fail_at,
        literal_at,
        rows,
    })
}

// The parts, put together.
fn joined(head: Head, memory: Memory, calls: Calls, declared: Declared) -> ComponentFields
    ensures { result ≡ joined head memory calls declared }
{
    ComponentFields {
        name: head.name,
        stack_base: head.stack_base,
        closure: head.closure,
        seals: head.seals,
        linear: head.linear,
        code_base: memory.code_base,
        code: memory.code,
        data_base: memory.data_base,
        data_words: memory.data_words,
        imports: calls.imports,
        exports: calls.exports,
        sites: calls.sites,
        fail_at: declared.fail_at,
        literal_at: declared.literal_at,
        rows: declared.rows,
        movable: head.movable,
    }
}

// Each part in its turn.
#[tactic(auto, unfolding(crate::specs::Parts::next_parts))]
fn component(alloc: Global, bytes: &mut Cursor<'_>) -> Result<ComponentFields, FileFault>
    ensures { GivesUnlessRefused is_refusal result bytes.new (next_parts bytes.old) }
{
    let head = read_head(alloc, bytes)?;
    let memory = read_memory(alloc, bytes)?;
    let calls = read_calls(alloc, bytes)?;
    let declared = read_declared(alloc, bytes)?;
    Ok(joined(head, memory, calls, declared))
}

// What was read, where nothing follows it.
fn at_end<T: Drop>(read: T, bytes: &Cursor<'_>) -> Result<T, FileFault>
    ensures { result ≡ finished Trailing (Ok (read, bytes.now)) }
{
    if bytes.is_at_end() {
        Ok(read)
    } else {
        Err(FileFault::Trailing(bytes.at()))
    }
}

// The component of all the bytes.
#[tactic(auto, using(crate::proofs::Parts::decoded_parts))]
fn whole(alloc: Global, bytes: &[u8]) -> Result<ComponentFields, FileFault>
    requires { length bytes.now < 2 ^ 32 }
    ensures { AnswersUnlessRefused is_refusal result (decoded bytes.now) }
{
    let mut cursor = Cursor::of(bytes);
    let component = component(alloc, &mut cursor)?;
    at_end(component, &cursor)
}

/// The component that the bytes spell, all of them, or their first fault from left to right. Where
/// memory is refused, `NoMemory` stands for either. docs/FORMATS.md has the form.
///
/// The fields are read in their order. A field that isn't there whole is `Short` before anything is
/// said of what it holds. The order of an item in its list is judged as soon as the field is read
/// that orders it: the slot of an import, the name of an export, the offset of a site or a row.
pub fn decode_component(alloc: Global, bytes: &[u8]) -> Result<Component, FileFault>
    requires { length bytes.now < 2 ^ 32 }
    // What is read is spelled so.
    ensures found { IfOk result (λ c. SpellsComponent bytes.now c) }
    // What is spelled so is read, unless memory is refused.
    ensures only { (c : ComponentFields) → SpellsComponent bytes.now c
        → (result ≡ Ok c) ⊎ (result ≡ Err NoMemory) }
    // Which fault it is.
    ensures exact { AnswersUnlessRefused is_refusal result (decoded bytes.now) }
{
    let fields = whole(alloc, bytes)?;
    Ok(Component::of(fields))
}
