//! Full abstraction of the overlay. This function does nothing; its contract is the law.
ghost use Rattle.full_abstraction.specs.Abstraction.{IsFullyAbstractForAny, IsFullyAbstractInAll};
ghost use Rattle.full_abstraction.specs.Abstraction.{OverlayIsFullyAbstract, RunsShowTheSame, ToldApart};

use headline::laws::the_headline;
use run_lines::laws::cuts_are_greatest;

/// The overlay is fully abstract: two lists of parts are contextually equivalent on the plain machine if and
/// only if they are on the overlay.
///
/// A context is what stands around a list of parts: parts before and after them, and the size of the stack.
/// Two lists are equivalent on a machine if each context that links with both halts with the ones if and only
/// if it halts with the others. So it is for contexts of untrusted parts, which is the published statement;
/// for contexts of any kind, also if what is observed is halting with a word in a0, failing, or having no
/// end; and if a context that doesn't link counts as one that shows nothing. All this follows from what holds
/// of each link by itself: the plain run shows what the overlay's does.
///
/// That it speaks of something: a context of an untrusted part halts with one trusted part and fails with
/// another, so these are equivalent on neither machine.
pub fn overlay_is_fully_abstract()
    ensures holds { OverlayIsFullyAbstract }
    ensures for_any { IsFullyAbstractForAny }
    ensures in_all { IsFullyAbstractInAll }
    ensures each_run { RunsShowTheSame }
    ensures apart { ToldApart }
{
    the_headline();
    cuts_are_greatest();
}
