//! Modules.
ghost use Rattle.std.specs.Prelude.{◌≡◌, ◌≤◌, ◌+◌, ◌*◌, OnOk, IfOk, IfErr, length, sum_by, [], ◌++◌};
ghost use Rattle.component_file.specs.declared.TheConstants.{MOST_WORDS};
ghost use Rattle.call_sequence.specs.Verdict.{IsKept};
ghost use Rattle.proc_language.specs.Limits.{Each};
ghost use Rattle.proc_names.specs.NameFaults.{name_faults};
ghost use Rattle.proc_program.specs.Calls.{procedure_calls, part_calls};
ghost use Rattle.proc_program.specs.Limits.{scope_of, ProcedureFits, IsProgram};
ghost use Rattle.proc_templates.specs.Compiled.{frame_of, pair_count, size_of_proc, code_words, data_count};
ghost use Rattle.proc_templates.specs.Compiled.{lay_procs, laid_of, literal_of, literal_at_of};
ghost use Rattle.proc_templates.specs.Compiled.{first_data};
ghost use Rattle.proc_templates.specs.Compiled.{imports_of, exports_of, seal_base, component_of, compiled};
ghost use Rattle.proc_templates.specs.Kept.{FitsComponent, NamesDiffer, KeepsOwnRules};
ghost use Rattle.proc_compiler.specs.Drafts.{EmitsProc};
ghost use Rattle.proc_compiler.specs.Fault.{CompilesWith, CausesWith, Compiles, CausesFault};

use crate::counts::{
    EPILOGUE_WORDS, code_fits, data_fits, is_without_calls, pair_count, seals_suffice, size_of_proc,
};
use crate::draft::Draft;
use crate::fault::CompileFault;
use crate::lists::{
    insert_exports, push_imports, push_integers, push_own, push_rows, push_zeros, text_of,
};
use crate::routine::{proc_at, registers_of};
use cap_words::{Items, SealCap, SealRange, Word};
use component_file::{Area, Component, ComponentFields, Export, Import};
use proc_language::Module;
use proc_program::{Procedure, Program, lowered};
use proc_templates::FrameShape;
use std::alloc::{AllocError, Global};

// The frame of a procedure.
#[tactic(auto, unfolding(proc_templates::specs::Compiled::frame_of))]
fn frame_of(m: &Program, p: &Procedure) -> FrameShape
    requires limits { IsProgram m.now }
    requires fits { ProcedureFits (scope_of m.now) p.now }
    ensures { result ≡ frame_of m.now p.now }
{
    let imports = m.imports.as_slice().len() as u32;
    FrameShape {
        words: p.need,
        temps: 2 + registers_of(p.callbacks.as_slice()) + p.locals,
        imports,
        pairs: pair_count(m),
    }
}

// A procedure. Its last words are its epilogue.
#[tactic(auto, using(crate::proofs::Modules::frame_words, crate::proofs::Modules::body_bound, crate::proofs::Modules::temps_le))]
fn proc_in(draft: &mut Draft, m: &Program, p: &Procedure) -> Result<(), AllocError>
    requires limits { IsProgram m.now }
    requires data_fits { data_count m.now ≤ MOST_WORDS }
    requires fits { ProcedureFits (scope_of m.now) p.now }
    requires placed { length draft.old.laid.code + size_of_proc p.now ≤ MOST_WORDS }
    requires seals { length draft.old.laid.sites + procedure_calls p.now ≤ draft.old.seals }
    requires base { draft.old.spot.stack_base ≡ m.now.stack }
    ensures { OnOk result (EmitsProc m.now p.now draft.old draft.new) }
{
    let f = frame_of(m, p);
    draft.begin(draft.at() + size_of_proc(p) - (2 * f.words + EPILOGUE_WORDS));
    proc_at(draft, f, p)
}

// Procedures, one after the other.
fn procs_in(draft: &mut Draft, m: &Program, procs: &[Procedure]) -> Result<(), AllocError>
    requires limits { IsProgram m.now }
    requires data_fits { data_count m.now ≤ MOST_WORDS }
    requires fits { Each (ProcedureFits (scope_of m.now)) procs.now }
    requires placed { length draft.old.laid.code + sum_by size_of_proc procs.now ≤ MOST_WORDS }
    requires seals { length draft.old.laid.sites + sum_by procedure_calls procs.now ≤ draft.old.seals }
    requires base { draft.old.spot.stack_base ≡ m.now.stack }
    ensures laid { OnOk result (draft.new.laid ≡ lay_procs m.now draft.old.laid procs.now) }
{
    match procs.split_first() {
        None => Ok(()),
        Some((p, rest)) => {
            proc_in(draft, m, p)?;
            procs_in(draft, m, rest)
        }
    }
}

// The word after the `fail`: the seal capability over the return seals, where there are calls.
fn literal_of(m: &Program) -> Word
    requires limits { IsProgram m.now }
    requires seals { part_calls m.now ≤ m.now.header.return_count }
    ensures { result ≡ literal_of m.now }
{
    if is_without_calls(m) {
        return Word::Int(0);
    }
    let first = m.header.returns;
    let last = first + m.header.return_count - 1;
    Word::Seal(SealCap::new(first, last, i64::from(first)))
}

// The code of a module, with the offsets of calls and labels.
#[tactic(auto, unfolding(proc_templates::specs::Compiled::laid_of, proc_templates::specs::Compiled::code_words))]
fn code_of(alloc: Global, m: &Program) -> Result<Draft, AllocError>
    requires limits { IsProgram m.now }
    requires code { code_words m.now ≤ MOST_WORDS }
    requires data { data_count m.now ≤ MOST_WORDS }
    requires seals { part_calls m.now ≤ m.now.header.return_count }
    ensures { IfOk result (λ d. d.laid ≡ laid_of m.now) }
{
    let head = m.header;
    let mut draft = Draft::new(
        alloc,
        literal_of(m),
        m.stack,
        head.returns,
        head.return_count,
    )?;
    procs_in(&mut draft, m, m.procs.as_slice())?;
    Ok(draft)
}

// The words of the data, the slots and the exports. There are no exports before.
#[tactic(auto, unfolding(proc_templates::specs::Compiled::first_data, proc_templates::specs::Compiled::imports_of, proc_templates::specs::Compiled::exports_of, proc_templates::specs::Compiled::code_words))]
fn push_lists(
    alloc: Global,
    m: &Program,
    words: &mut Vec<Word>,
    imports: &mut Vec<Import>,
    exports: &mut Vec<Export>,
) -> Result<(), AllocError>
    requires limits { IsProgram m.now }
    requires code { code_words m.now ≤ MOST_WORDS }
    requires none { exports.old.items ≡ [] }
    ensures words { OnOk result (words.new.items ≡ words.old.items ++ first_data m.now) }
    ensures imports { OnOk result (imports.new.items ≡ imports.old.items ++ imports_of m.now) }
    ensures exports { OnOk result (exports.new.items ≡ exports_of m.now) }
{
    push_zeros(words, pair_count(m))?;
    push_integers(words, m.globals.as_slice())?;
    push_imports(alloc, imports, m.imports.as_slice(), 0)?;
    let slot = 2 * m.imports.as_slice().len() as u32;
    push_own(alloc, imports, &m.name, m.procs.as_slice(), slot)?;
    insert_exports(alloc, exports, m.procs.as_slice(), 2)
}

fn literal_at_of(m: &Program) -> Option<u32>
    ensures { result ≡ literal_at_of m.now }
{
    if is_without_calls(m) { None } else { Some(1) }
}

fn seals_of(m: &Program) -> SealRange
    requires { IsProgram m.now }
    ensures { result ≡ record { base = seal_base m.now.header; count = m.now.header.return_count } }
{
    let head = m.header;
    let base = if head.return_count == 0 {
        0
    } else {
        head.returns
    };
    SealRange::new(base, head.return_count)
}

// The fields of a program's component.
#[tactic(auto, unfolding(proc_templates::specs::Compiled::component_of))]
fn fields_of(alloc: Global, m: &Program) -> Result<ComponentFields, AllocError>
    requires limits { IsProgram m.now }
    requires code { code_words m.now ≤ MOST_WORDS }
    requires data { data_count m.now ≤ MOST_WORDS }
    requires seals { part_calls m.now ≤ m.now.header.return_count }
    ensures { IfOk result (λ c. c ≡ component_of m.now) }
{
    let draft = code_of(alloc, m)?;
    let name = text_of(alloc, &m.name)?;
    let (mut data_words, mut imports) = (Vec::new(alloc), Vec::new(alloc));
    let (mut exports, mut rows) = (Vec::new(alloc), Vec::new(alloc));
    push_lists(alloc, m, &mut data_words, &mut imports, &mut exports)?;
    push_rows(&mut rows, draft.labels())?;
    let (code, sites) = draft.into_parts();
    Ok(ComponentFields {
        name,
        stack_base: m.stack,
        closure: m.header.closure,
        seals: seals_of(m),
        linear: Area { base: 0, count: 0 },
        code_base: m.header.code,
        code: Items::of(code),
        data_base: m.header.data_base,
        data_words: Items::of(data_words),
        imports: Items::of(imports),
        exports: Items::of(exports),
        sites: Items::of(sites),
        fail_at: Some(0),
        literal_at: literal_at_of(m),
        rows: Items::of(rows),
        movable: m.header.movable,
    })
}

// The component of these fields.
#[tactic(auto, using(crate::proofs::Modules::flow_of, crate::proofs::Modules::own_of))]
fn made(fields: ComponentFields, m: &Program) -> Component
    requires is { fields ≡ component_of m.now }
    requires fits { FitsComponent m.now }
    requires named { NamesDiffer m.now.procs }
    requires seals { part_calls m.now ≤ m.now.header.return_count }
    ensures is { result ≡ component_of m.now }
    ensures flow { IsKept result }
    ensures own { KeepsOwnRules result }
{
    Component::of(fields)
}

// The component of a program.
#[tactic(auto, using(crate::proofs::Modules::fits_of))]
fn component_of(alloc: Global, m: &Program) -> Result<Component, CompileFault>
    requires limits { IsProgram m.now }
    requires named { NamesDiffer m.now.procs }
    ensures is { IfOk result (λ c. c ≡ component_of m.now) }
    ensures compiles { IfOk result (λ c. CompilesWith m.now (part_calls m.now) m.now.header.return_count) }
    ensures causes { IfErr result (λ f. CausesWith m.now (part_calls m.now) m.now.header.return_count f) }
    ensures flow { IfOk result (λ c. IsKept c) }
    ensures own { IfOk result (λ c. KeepsOwnRules c) }
{
    if !code_fits(m) || !data_fits(m) {
        return Err(CompileFault::TooLarge);
    }
    if !seals_suffice(m) {
        return Err(CompileFault::SealsShort);
    }
    let fields = fields_of(alloc, m)?;
    Ok(made(fields, m))
}

/// The component of a module whose names were resolved: that of its program, by the templates of
/// docs/LANGUAGE.md. It keeps the rules C4 to C12, as those of a trusted part, and K1 to K10.
///
/// # Errors
///
/// [`CompileFault::TooLarge`] exactly where code or data have more than 65,536 words;
/// [`CompileFault::SealsShort`] exactly where they haven't, and the calls in the text outnumber the
/// return seals; each of them unless memory was refused first, which is [`CompileFault::NoMemory`].
pub fn compile(alloc: Global, m: &Module) -> Result<Component, CompileFault>
    requires resolved { name_faults m.now ≡ [] }
    ensures is { IfOk result (λ c. c ≡ compiled m.now) }
    ensures compiles { IfOk result (λ c. Compiles m.now) }
    ensures causes { IfErr result (λ f. CausesFault m.now f) }
    ensures flow { IfOk result (λ c. IsKept c) }
    ensures own { IfOk result (λ c. KeepsOwnRules c) }
{
    let _limits = m.fields();
    let part = lowered(alloc, m)?;
    component_of(alloc, &part)
}
