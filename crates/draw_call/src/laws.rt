//! What holds of the answers of a call. These functions do nothing; their contracts are the laws.
ghost use Rattle.std.specs.Prelude.{Option};
ghost use Rattle.command_words.specs.Answers.{IsComplete};
ghost use Rattle.draw_call.specs.declared.status.DrawStatus.{DrawStatus};
ghost use Rattle.draw_call.specs.declared.words.DrawCall.{DrawCall};
ghost use Rattle.draw_call.specs.Answers.{CallSeen, DrawAnswers, Cause, StayAt, stk_draw, out_of, plan_in};

use run_audit::laws::traces_are_found;

/// `stk_draw` ends with each status only for its cause.
pub fn each_status_has_its_cause()
    ensures { (asked : Option DrawCall) (old : CallSeen) (status : DrawStatus) (new : CallSeen)
        → DrawAnswers asked old status new → Cause asked old status new }
{
    traces_are_found();
}

/// Over files that tell their contents, words and text determine what `stk_draw` answers, unless something
/// outside fails or memory is refused.
///
/// The text is that of the file of `--feed`.
#[tactic(auto, using(command_words::proofs::Offers::complete))]
pub fn one_answer_is_due()
    ensures { (asked : Option DrawCall) (old : CallSeen) (status : DrawStatus) (new : CallSeen)
        → DrawAnswers asked old status new
        → IsComplete (stk_draw (out_of asked)) (plan_in asked) old status new }
{}

/// `stk_draw` changes no file but that of `--out`, and that only with Done or WriteFault.
#[tactic(auto, using(crate::proofs::Due::others_stay))]
pub fn other_files_stay()
    ensures { (asked : Option DrawCall) (old : CallSeen) (status : DrawStatus) (new : CallSeen)
        → DrawAnswers asked old status new → StayAt asked old.files status new.files }
{
    traces_are_found();
}
