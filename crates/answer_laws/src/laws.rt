//! What holds of the answers of the top call. These functions do nothing; their contracts are the laws.
ghost use Rattle.std.specs.Prelude.{◌≡◌, ℕ, List, Option, Ok};
ghost use Rattle.command_words.specs.declared.command.Command.{Command};
ghost use Rattle.linked_starts.specs.Parts.{PartSeen};
ghost use Rattle.linked_starts.specs.Pairs.{IsFirstBrokenIn};
ghost use Rattle.linked_starts.specs.Links.{rules_of_link, rule_at};
ghost use Rattle.linked_starts.specs.Standing.{placed};
ghost use Rattle.image_loader.specs.Image.{ImageSeen, IsImage, image_bytes};
ghost use Rattle.link_tool.specs.Parts.{linked, loaded};
ghost use Rattle.ready_tasks.specs.Commands.{plan_in};
ghost use Rattle.command_words.specs.Answers.{IsWritten};
ghost use Rattle.lcm_cli.specs.Answers.{Answer, stk};
ghost use Rattle.answer_laws.specs.MeanOfRuns.{MeanTellsRuns};
ghost use Rattle.answer_laws.specs.SafeRuns.{SafeSinksHoldRuns};
ghost use Rattle.answer_laws.specs.Roads.{RoadsAreOne};

use alike_modules::laws::{alike_modules_mean_the_same, printed_modules_are_sources};
use assembler::laws::what_is_spelled_keeps_the_limits;
use authority_report::laws::reports_are_one;
use disassembler::laws::text_is_read;
use proc_program::laws::{calls_are_kept, programs_keep_limits};
use proc_sources::laws::sources_are_modules;
use proc_templates::laws::{components_keep_rules, names_differ};

/// Parts are refused together for the first of the rules L that they break, and for nothing else.
///
/// It is told in the first part and at the first place there.
pub fn first_rule_is_told()
    ensures { (parts : List PartSeen) (size : ℕ)
        → IsFirstBrokenIn rule_at (rules_of_link (placed parts size) size) (linked parts size) }
{}

/// An image whose parts keep the rules L is loaded from its bytes as just this image.
pub fn linked_images_are_loaded()
    ensures { (i : ImageSeen) → IsImage i → linked i.parts i.stack ≡ Ok tt → loaded (image_bytes i) ≡ Ok i }
{}

/// The words and the bytes of the files determine the answer.
pub fn one_answer()
    ensures { (asked : Option Command) (held : List ℕ → Option (List ℕ)) (a b : Answer)
        → IsWritten stk held (plan_in asked) a → IsWritten stk held (plan_in asked) b → a ≡ b }
{
    reports_are_one();
}

/// If `mean` of a run's sources over its text, with its size of stack, ends with 0 to 2, it tells the meaning
/// in the theorem of sources.
///
/// With fuel enough it tells just the events that went out by that text, or, if trusted code was still
/// running, begins with them. The run may be of the sources, of what was made of them, or of an image
/// (`SourcesMean`). Neither the rules of a meaning nor the form of a feed refuse it; the length of the text
/// may.
pub fn mean_tells_runs()
    ensures { MeanTellsRuns }
{}

/// A part's form makes no difference to the answer that is due, as far as each form can be read.
///
/// The forms are a source, an assembler text, a component file, and an image. In place of a part that a
/// command is asked of may stand, under any name, what gives the same component: the bytes that `compile` or
/// `asm` puts of it, the text that `dis` writes of it, or, of a source with tokens, the text of its module
/// without them; and in place of all of the parts the image that `link` puts of them. Any of them may be
/// exchanged at once, over other files, and one after another, and back. Then whatever `run`, `trace`,
/// `link`, `reach`, `debug`, `check`, `dis` and, of sources alone, `mean` are asked, the answer that is due
/// over files that tell is the same: the text, the status, the file and the machine. Of what was put or
/// written it is asked that it isn't too long to be read; of a text without its tokens also that it is
/// parsed, and that the text with them isn't too long; and of a component file whose text `dis` wrote, that
/// it holds bytes.
pub fn roads_are_one()
    ensures { RoadsAreOne }
{
    sources_are_modules();
    alike_modules_mean_the_same();
    printed_modules_are_sources();
    text_is_read();
    what_is_spelled_keeps_the_limits();
    programs_keep_limits();
    calls_are_kept();
    components_keep_rules();
    names_differ();
}

/// A `run` over an empty `SafeSink` ends with WriteFault only if the due text fills the sink.
///
/// The text that is due of the bytes that it read has as many bytes as the sink has room for, or more. So if
/// there is room for a byte more than that text, whatever the files hold and whether they tell it, `run`
/// never ends so.
pub fn safe_sinks_hold_runs()
    ensures { SafeSinksHoldRuns }
{}
