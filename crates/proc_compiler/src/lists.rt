//! The lists of a component.
ghost use Rattle.std.specs.Prelude.{◌≡◌, ◌≤◌, ◌<◌, ◌+◌, ◌*◌, ◌^◌, OnOk, IfOk, length, sum_by, map, replicate};
ghost use Rattle.std.specs.Prelude.{pos, [], ◌∷◌, ◌++◌};
ghost use Rattle.cap_words.specs.declared.Word.TheVariants.{Int};
ghost use Rattle.component_file.specs.declared.TheConstants.{MOST_WORDS};
ghost use Rattle.component_file.specs.Limits.{name_lt};
ghost use Rattle.proc_templates.specs.Compiled.{size_of_proc, int_word, import_slots, own_slots};
ghost use Rattle.proc_templates.specs.Compiled.{exports_from};
ghost use Rattle.proc_templates.specs.Compiled.{export_into, row_at_label};
ghost use Rattle.proc_compiler.specs.Exported.{place};

use crate::counts::size_of_proc;
use cap_words::{Items, Word};
use component_file::{Export, Import, Kind, KindRow};
use proc_program::Procedure;
use std::alloc::{AllocError, Global};

/// The bytes once more.
pub(crate) fn text_of(alloc: Global, text: &Items<u8>) -> Result<Items<u8>, AllocError>
    ensures { IfOk result (λ copy. copy ≡ text.now) }
{
    Ok(Items::of(Vec::from_slice(alloc, text.as_slice())?))
}

/// So many times integer 0.
pub(crate) fn push_zeros(words: &mut Vec<Word>, count: u32) -> Result<(), AllocError>
    ensures { OnOk result (words.new.items ≡ words.old.items ++ replicate count (Int (pos 0))) }
{
    for _ in 0..count {
        words.push(Word::Int(0))?;
    }
    Ok(())
}

/// Integers, each as a word.
pub(crate) fn push_integers(words: &mut Vec<Word>, numbers: &[i64]) -> Result<(), AllocError>
    ensures { OnOk result (words.new.items ≡ words.old.items ++ map int_word numbers.now) }
{
    for number in numbers {
        words.push(Word::Int(*number))?;
    }
    Ok(())
}

// The slot of an import, or of an own procedure.
fn push_slot(
    alloc: Global,
    list: &mut Vec<Import>,
    part: &Items<u8>,
    name: &Items<u8>,
    slot: u32,
) -> Result<(), AllocError>
    ensures { OnOk result (list.new.items
        ≡ list.old.items ++ record { part = part.now; name = name.now; slot = slot } ∷ []) }
{
    let (part, name) = (text_of(alloc, part)?, text_of(alloc, name)?);
    list.push(Import { part, name, slot })?;
    Ok(())
}

/// The slots of imports, the first of which stands at an offset.
pub(crate) fn push_imports(
    alloc: Global,
    list: &mut Vec<Import>,
    imports: &[proc_program::ProgramImport],
    slot: u32,
) -> Result<(), AllocError>
    requires { slot + 2 * length imports.now < 2 ^ 32 }
    ensures { OnOk result (list.new.items ≡ list.old.items ++ import_slots slot imports.now) }
{
    match imports.split_first() {
        None => Ok(()),
        Some((i, rest)) => {
            push_slot(alloc, list, &i.part, &i.name, slot)?;
            push_imports(alloc, list, rest, slot + 2)
        }
    }
}

/// The slots of own procedures, the first of which stands at an offset.
pub(crate) fn push_own(
    alloc: Global,
    list: &mut Vec<Import>,
    part: &Items<u8>,
    procs: &[Procedure],
    slot: u32,
) -> Result<(), AllocError>
    requires { slot + 2 * length procs.now < 2 ^ 32 }
    ensures { OnOk result (list.new.items ≡ list.old.items ++ own_slots part.now slot procs.now) }
{
    match procs.split_first() {
        None => Ok(()),
        Some((p, rest)) => {
            push_slot(alloc, list, part, &p.name, slot)?;
            push_own(alloc, list, part, rest, slot + 2)
        }
    }
}

// How many exports stand before the place of a name.
fn place_of(name: &[u8], exports: &[Export]) -> usize
    ensures is { result ≡ place name.now exports.now }
    ensures within { result ≤ length exports.now }
{
    match exports.split_first() {
        None => 0,
        Some((e, rest)) => {
            if name.cmp(e.name.as_slice()).is_lt() {
                0
            } else {
                place_of(name, rest) + 1
            }
        }
    }
}

#[tactic(auto, using(crate::proofs::Placed::placed))]
fn insert(exports: &mut Vec<Export>, export: Export) -> Result<(), AllocError>
    ensures { OnOk result (exports.new.items ≡ export_into export exports.old.items) }
{
    let at = place_of(export.name.as_slice(), exports.as_slice());
    exports.insert(at, export)?;
    Ok(())
}

/// The exports of procedures, the first of which stands at an offset, into a list that has none.
pub(crate) fn insert_exports(
    alloc: Global,
    exports: &mut Vec<Export>,
    procs: &[Procedure],
    from: u32,
) -> Result<(), AllocError>
    requires placed { from + sum_by size_of_proc procs.now ≤ MOST_WORDS }
    requires none { exports.old.items ≡ [] }
    ensures { OnOk result (exports.new.items ≡ exports_from from procs.now) }
{
    match procs.split_first() {
        None => Ok(()),
        Some((p, rest)) => {
            insert_exports(alloc, exports, rest, from + size_of_proc(p))?;
            let export = Export {
                name: text_of(alloc, &p.name)?,
                offset: from,
                shared: p.shared,
            };
            insert(exports, export)
        }
    }
}

fn row_at(offset: u32) -> KindRow
    ensures { result ≡ row_at_label offset }
{
    let any = Kind::Any;
    let (stk, data, t2) = (Kind::Stk, Kind::DataCap, Kind::Top);
    KindRow {
        offset,
        kinds: [
            any, any, stk, data, any, t2, any, any, any, any, any, any, any, any, any,
        ],
    }
}

/// The rows at labels.
pub(crate) fn push_rows(rows: &mut Vec<KindRow>, labels: &[u32]) -> Result<(), AllocError>
    ensures { OnOk result (rows.new.items ≡ rows.old.items ++ map row_at_label labels.now) }
{
    for label in labels {
        rows.push(row_at(*label))?;
    }
    Ok(())
}
