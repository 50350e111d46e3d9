//! What holds of every meaning. These functions do nothing; their contracts are the laws.
ghost use Rattle.proc_semantics.specs.Values.{World};
ghost use Rattle.proc_semantics.specs.Apart.{ToldApart};
ghost use Rattle.proc_semantics.specs.Marked.{MarkLaws};
ghost use Rattle.proc_semantics.specs.Whole.{IsRecursive};
ghost use Rattle.proc_semantics.specs.Fuel.{FuelLaws};

/// With more fuel a meaning goes on only if it had run out, so a feed has one end at most.
///
/// No more ticks are told than there is fuel, and as many if it ran out. The end of a feed is told under each
/// fuel of at least its ticks, and each smaller one runs out.
#[tactic(auto, using(crate::proofs::Fuelled::fuel_laws))]
pub fn fuel_laws()
    ensures { FuelLaws }
{}

/// The meaning obeys its recursion without the levels that its definition counts down.
///
/// What goes without levels obeys the recursion, and the meaning begins with it. So no bound that stands in a
/// definition is one of the meaning's.
#[tactic(auto, using(crate::proofs::Recursive::recursive))]
pub fn recursion()
    ensures { (world : World) → IsRecursive world }
{}

/// The refined meaning tells what the meaning tells, if one forgets where words came from.
///
/// It tells the same events, end and ticks.
#[tactic(auto, using(crate::proofs::Marked::mark_laws))]
pub fn marks_are_beside()
    ensures { MarkLaws }
{}

/// There are modules that tell the same events of a feed and call with other words.
///
/// So the refined meaning tells more than the meaning.
pub fn refined_meanings_tell_more()
    ensures { ToldApart }
{}
