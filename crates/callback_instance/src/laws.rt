//! That sources which call out can mean the same. These functions do nothing; their contracts are the laws.
ghost use Rattle.callback_instance.specs.Passes.{TwoPassers};
ghost use Rattle.callback_instance.specs.CalledBack.{PassersCallBack};
ghost use Rattle.callback_instance.specs.Callers.{CallersLetGo};

use context_laws::laws::{same_meanings_are_not_told_apart, same_meanings_end_alike};

/// There are two different modules that call out, are answered, mean the same and end the same way.
///
/// There are links of both beside each other. They share a procedure which calls its callback with the double
/// of its number, and gives back the answer, the one by a sum, the other over a global. Both are modules
/// whose names are resolved; their components differ; a feed has them call and answer. So, linked with the
/// same untrusted parts at the same addresses, no code outside can tell them apart, and whole plain runs end
/// alike.
pub fn two_passers_are_one()
    ensures { TwoPassers }
{
    same_meanings_are_not_told_apart();
    same_meanings_end_alike();
}

/// There is a run in which a source calls code outside back, and that of another that means the same goes in
/// step.
///
/// Beside code outside that enters the procedure with 3 and with a pair of its own, the first module calls
/// that pair with 6; code outside answers 9, is left to with 9, and halts. And by the law the run of the
/// other link goes in step: step by step, in as many rounds, with the same items coming in.
pub fn passers_are_called_back()
    ensures { PassersCallBack }
{
    same_meanings_are_not_told_apart();
}

/// There are two modules, whose main calls out, that mean the same and first let go alike.
///
/// The one lets go for the first time by that call, and so does the other, with the same shown. Their main
/// calls out with 6, or with 3 + 3, and halts with the answer. There are links of both beside each other;
/// from there on, by the law, no code outside can tell them apart.
pub fn callers_let_go()
    ensures { CallersLetGo }
{
    same_meanings_are_not_told_apart();
}
