//! The row at an offset.
ghost use Rattle.std.specs.Prelude.{◌≡◌, ◌≤◌, false, IfSome, IfNone};
ghost use Rattle.component_file.specs.Limits.{IsComponent};
ghost use Rattle.call_sequence.specs.Kinds.{Row};
ghost use Rattle.call_sequence.specs.Places.{is_inside};
ghost use Rattle.call_sequence.specs.Walk.{RowAt};
ghost use Rattle.call_sequence.specs.Verdict.{IsKept};

use crate::kinds::ENTRY_ROW;
use crate::places::{begins_entry, declared};
use crate::walking::next_from;
use call_sequence::{Row, Walk};
use component_file::{Component, ComponentFields, Kind};

// The row at an offset: an entry's, or the current one when the walk has come there.
fn row_of(c: &ComponentFields, offset: u32) -> Option<Row>
    requires fits { IsComponent c.now }
    requires kept { IsKept c.now }
    ensures is { IfSome result (λ row. RowAt c.now offset row) }
    ensures outside { IfSome result (λ row. is_inside c.now offset ≡ false) }
    ensures none { IfNone result ((row : Row) → RowAt c.now offset row → ⊥) }
{
    if begins_entry(c, offset) {
        return Some(ENTRY_ROW);
    }
    let mut at = 0;
    let mut current: Option<Row> = None;
    while at < offset {
        match next_from(c, at, current) {
            Walk::Before(next, row) => {
                if offset < next {
                    return None;
                }
                at = next;
                current = row;
            }
            Walk::Ended => return None,
            Walk::Broken(..) => return None,
        }
    }
    declared(c, offset).or(current)
}

/// The row of kinds at an offset of a trusted component's code, for the registers 1 to 15. The
/// component must be one for which [`check_flow`](crate::check_flow) answers `Ok`.
///
/// At an entry's first word it is the entry's; elsewhere the row that is current when the walk
/// comes there, once a row that is declared there has become the current one. None exactly where
/// there is no row; there is none inside an entry or a site, past its first word.
///
/// It takes no memory. It walks over the code up to the offset, so its time grows as the offset,
/// and for each word of code as the number of exports.
pub fn row_at(c: &Component, offset: u32) -> Option<[Kind; 15]>
    requires { IsKept c.now }
    ensures is { IfSome result (λ row. RowAt c.now offset row) }
    ensures outside { IfSome result (λ row. is_inside c.now offset ≡ false) }
    ensures none { IfNone result ((row : Row) → RowAt c.now offset row → ⊥) }
{
    row_of(c.fields(), offset)
}
