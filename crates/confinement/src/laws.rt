//! What code outside can't do. This function does nothing; its contract is the law.
ghost use Rattle.confinement.specs.Confined.{AllCodeOutsideIsConfined};

use authority_report::laws::words_bound_runs;
use headline::laws::{lines_are_bracketed, the_headline};
use overlay_machine::laws::{a_start_has_one_overlay, linked_starts_agree, starts_begin};

/// From every linked start, code outside touches nothing of a trusted part and no open call's range, and
/// enters trusted parts at exports and return points alone: isolation.
///
/// An instruction that comes from an address in no trusted part's code touches addresses of untrusted parts
/// and of the stack alone: none of a trusted part's code, data or linear area, and none in the range of a
/// call that is open. If an instruction of a trusted part comes after it, that is the first of an export,
/// with the part's own data, or the first of a site's return, with the range of a call of that site which is
/// open, and which is the newest if the words of the return all go. No cell of a trusted part's code ever
/// changes, and no cell of the part does by an instruction of code outside.
pub fn code_outside_is_confined()
    ensures { AllCodeOutsideIsConfined }
{
    starts_begin();
    a_start_has_one_overlay();
    linked_starts_agree();
    lines_are_bracketed();
    the_headline();
    words_bound_runs();
}
