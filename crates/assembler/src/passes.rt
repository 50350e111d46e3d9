//! The passes over a text.
ghost use Rattle.std.specs.Prelude.{◌≡◌, ◌≤◌, ◌<◌, ◌^◌, length};
ghost use Rattle.component_file.specs.declared.TheConstants.{MOST_WORDS};
ghost use Rattle.assembler.specs.References.{AreReady};
ghost use Rattle.readers.specs.Answers.{AnswersUnlessRefused};
ghost use Rattle.asm_fields.specs.Fault.{is_refusal};
ghost use Rattle.readers.specs.Readers.{told_by};
ghost use Rattle.std.specs.Result.{result_and};
ghost use Rattle.asm_fields.specs.declared.fault.AsmFault.TheVariants.{LabelMissing};
ghost use Rattle.assembler.specs.Assembled.{in_order, finished, assembled};

use crate::draft::Draft;
use crate::lines::draft_of;
use crate::references::MissingLabel;
use asm_fields::AsmFault;
use cap_words::Items;
use component_file::{Component, ComponentFields};
use std::alloc::Global;
use text_scan::scan;

// That a label is missing, or else that an item is out of order.
fn first_fault(
    resolved: Result<(), MissingLabel>,
    out_of_order: Option<u32>,
) -> Result<(), AsmFault>
    ensures { result ≡ result_and (told_by (λ m. LabelMissing m.at) resolved) (in_order out_of_order) }
{
    if let Err(missing) = resolved {
        return Err(AsmFault::LabelMissing(missing.at));
    }
    match out_of_order {
        Some(at) => Err(AsmFault::Section(at)),
        None => Ok(()),
    }
}

// What a draft says, once each reference has its label and no item is out of order. It takes no memory.
#[tactic(auto, unfolding(crate::specs::Assembled::finished))]
fn component_of(draft: Draft<'_>) -> Result<ComponentFields, AsmFault>
    requires ready { AreReady 0 draft.code draft.references }
    requires few { length draft.code ≤ MOST_WORDS }
    ensures { result ≡ finished draft.entry }
{
    let Draft {
        last: _,
        header,
        labels,
        references,
        mut code,
        data_words,
        tables,
    } = draft;
    let resolved = references.resolve(&labels, &mut code);
    let faults = first_fault(resolved, tables.out_of_order);
    let fields = ComponentFields {
        name: header.name,
        stack_base: header.stack_base,
        closure: header.closure,
        seals: header.seals,
        linear: header.linear,
        code_base: header.code_base,
        code: Items::of(code),
        data_base: header.data_base,
        data_words: Items::of(data_words),
        imports: Items::of(tables.imports),
        exports: Items::of(tables.exports),
        sites: Items::of(tables.sites),
        fail_at: tables.fail_at,
        literal_at: tables.literal_at,
        rows: Items::of(tables.rows),
        movable: header.movable,
    };
    faults.and(Ok(fields))
}

/// The component that a text spells, or its first fault. docs/ASSEMBLER.md has the form of texts.
///
/// A text is read in four passes: its tokens; its lines; references to labels that aren't there; items
/// of a table that are out of order. The first pass that finds a fault tells its first one. `NoMemory`
/// may come for any text.
#[tactic(auto, unfolding(crate::specs::Assembled::assembled))]
pub fn assemble(alloc: Global, text: &[u8]) -> Result<Component, AsmFault>
    requires { length text.now < 2 ^ 32 }
    // Which component, or which fault.
    ensures { AnswersUnlessRefused is_refusal result (assembled text.now) }
{
    let tokens = scan(alloc, text)?;
    let draft = draft_of(alloc, text, tokens.as_slice())?;
    let fields = component_of(draft)?;
    Ok(Component::of(fields))
}
