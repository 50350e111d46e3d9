//! What holds of the programs of modules. These functions do nothing; their contracts are the laws.
ghost use Rattle.std.specs.Prelude.{◌≡◌};
ghost use Rattle.proc_language.specs.declared.module.ModuleFields.{ModuleFields};
ghost use Rattle.proc_language.specs.Limits.{IsModule};
ghost use Rattle.proc_names.specs.Calls.{module_calls};
ghost use Rattle.proc_program.specs.Calls.{part_calls};
ghost use Rattle.proc_program.specs.Limits.{IsProgram};
ghost use Rattle.proc_program.specs.Lower.{part_of};

/// The program of a module within the limits keeps those of programs.
///
/// Its rows, own procedures and imports are there, and its places and handles are within the bounds that all
/// frames and words have.
#[tactic(auto, using(crate::proofs::Kept::part_fits))]
pub fn programs_keep_limits()
    ensures { (m : ModuleFields) → IsModule m → IsProgram (part_of m) }
{}

/// A module's program has as many calls as the module.
#[tactic(auto, using(crate::proofs::Counted::calls_kept))]
pub fn calls_are_kept()
    ensures { (m : ModuleFields) → part_calls (part_of m) ≡ module_calls m }
{}
