//! What holds of the components of modules. These functions do nothing; their contracts are the laws.
ghost use Rattle.std.specs.Prelude.{◌≡◌, ◌≤◌, [], length};
ghost use Rattle.component_file.specs.Limits.{IsComponent};
ghost use Rattle.call_sequence.specs.Verdict.{IsKept};
ghost use Rattle.proc_language.specs.declared.module.ModuleFields.{ModuleFields};
ghost use Rattle.proc_names.specs.NameFaults.{name_faults};
ghost use Rattle.proc_program.specs.declared.program.Program.{Program};
ghost use Rattle.proc_program.specs.Calls.{part_calls};
ghost use Rattle.proc_program.specs.Lower.{part_of};
ghost use Rattle.proc_templates.specs.Compiled.{component_of};
ghost use Rattle.proc_templates.specs.Kept.{FitsComponent, NamesDiffer, KeepsOwnRules};

/// A program's component, if not too large, keeps K1 to K10 and, with a seal for each call, C4 to C12.
///
/// The seal is a return seal. If besides no two procedures have one name, the component keeps the limits of
/// components.
#[tactic(auto, using(crate::proofs::Readies::keeps_flow, crate::proofs::Readies::keeps_own, crate::proofs::Limited::limits_kept))]
pub fn components_keep_rules()
    ensures flow { (m : Program) → FitsComponent m → IsKept (component_of m) }
    ensures own { (m : Program) → FitsComponent m → part_calls m ≤ m.header.return_count
        → KeepsOwnRules (component_of m) }
    ensures limits { (m : Program) → FitsComponent m → NamesDiffer m.procs
        → part_calls m ≤ m.header.return_count → IsComponent (component_of m) }
{}

/// No two procedures of a resolved module have one name.
#[tactic(auto, using(crate::proofs::Apart::names_differ))]
pub fn names_differ()
    ensures { (m : ModuleFields) → name_faults m ≡ [] → NamesDiffer (part_of m).procs }
{}

/// A program's component has a site for each of its calls.
#[tactic(auto, using(crate::proofs::Counted::component_sites))]
pub fn sites_are_counted()
    ensures { (m : Program) → length (component_of m).sites ≡ part_calls m }
{}
