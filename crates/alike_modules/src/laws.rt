//! What holds of modules that are alike: the same but for their places. These functions do nothing; their
//! contracts are the laws.
ghost use Rattle.std.specs.Prelude.{◌≡◌, ℕ, List, [], map};
ghost use Rattle.proc_language.specs.declared.module.ModuleFields.{ModuleFields};
ghost use Rattle.proc_language.specs.Limits.{IsModule};
ghost use Rattle.proc_language.specs.Unplaced.{IsAlike};
ghost use Rattle.proc_names.specs.NameFaults.{name_faults};
ghost use Rattle.proc_print.specs.Printed.{printed};
ghost use Rattle.proc_program.specs.Lower.{part_of};
ghost use Rattle.proc_sources.specs.Sources.{compile_answer};
ghost use Rattle.module_rules.specs.Rules.{ruled, stack_base_of};
ghost use Rattle.alike_modules.specs.Alike.{AreAlike, IsParsedBack, IsSourceOf};
ghost use Rattle.std.specs.Prelude.{◌<◌, ◌^◌, length};
ghost use Rattle.alike_modules.specs.Reprint.{ReadAgain};

/// Modules that are alike, the same but for their places, are printed and compiled alike.
///
/// They have the same text and the same program, and the same component or the same fault of compiling. If
/// the names of the one are resolved, so are those of the other.
#[tactic(auto, using(crate::proofs::Same::of_modules))]
pub fn alike_modules_are_compiled_alike()
    ensures text { (a b : ModuleFields) → IsAlike a b → printed a ≡ printed b }
    ensures program { (a b : ModuleFields) → IsAlike a b → part_of a ≡ part_of b }
    ensures component { (a b : ModuleFields) → IsAlike a b → compile_answer a ≡ compile_answer b }
    ensures names { (a b : ModuleFields) → IsAlike a b → name_faults a ≡ [] → name_faults b ≡ [] }
{}

/// Lists of alike modules keep the same rules and mean the same.
///
/// They keep the same rules or break the same first one. They have the same stack base, and run as the same
/// programs.
#[tactic(auto, using(crate::proofs::Same::of_lists))]
pub fn alike_modules_mean_the_same()
    ensures rules { (ms ns : List ModuleFields) (size : ℕ) → AreAlike ms ns → ruled ms size ≡ ruled ns size }
    ensures base { (ms ns : List ModuleFields) → AreAlike ms ns → stack_base_of ms ≡ stack_base_of ns }
    ensures programs { (ms ns : List ModuleFields) → AreAlike ms ns → map part_of ms ≡ map part_of ns }
{}

/// A resolved module's text, if it is parsed, is a source with the same component.
///
/// The module of that source is alike.
pub fn printed_modules_are_sources()
    ensures { (m : ModuleFields) → IsModule m → name_faults m ≡ [] → IsParsedBack m
        → IsSourceOf (printed m) m }
{
    crate::laws::what_is_printed_is_parsed();
}

/// A printed module is parsed as an alike one, if text, lines and brackets are within bounds.
///
/// The text has fewer than 2^32 bytes, no line above 512 bytes and no bracket opened inside 64 open ones.
pub fn what_is_printed_is_parsed()
    ensures { (m : ModuleFields) → length (printed m) < 2 ^ 32 → ReadAgain m }
{
    text_scan::laws::tokens_are_pieces();
    text_scan::laws::reading_keeps_the_grammar();
}
