//! Rows of kinds at offsets, and where the sequences of the calling convention stand.
use assembler::assemble;
use call_sequence::{is_entry, is_site};
use component_file::Component;
use component_file::Kind::{self, Any, DataCap, Int, Stk};
use flow_check::{check_flow, row_at};
use std::alloc::{AllocError, Global};
use std::process::Abort;
use std::test::Fail;
use worked_parts::{CALLER, text};

/// The kinds of the registers 1 to 15.
type Row = [Kind; 15];

/// At an entry.
const ENTRY: Row = [
    Any, Any, Any, DataCap, Any, Any, Any, Any, Any, Any, Any, Any, Any, Any, Any,
];

/// After an entry or a site.
const CLEAN: Row = [
    Any, Any, Stk, DataCap, Int, Int, Any, Any, Any, Any, Any, Any, Any, Any, Any,
];

#[derive(Clone, Copy)]
enum Wanted {
    NoRow,
    Entry,
    Clean,
}

use Wanted::{Clean, Entry, NoRow};

fn wanted_row(wanted: Wanted) -> Option<Row> {
    match wanted {
        NoRow => None,
        Entry => Some(ENTRY),
        Clean => Some(CLEAN),
    }
}

// The entry is at 2, the site at 25, and `halt` at 51.
static ROWS: [(u32, Wanted); 11] = [
    (0, NoRow),
    (2, Entry),
    (3, NoRow),
    (21, NoRow),
    (22, Clean),
    (25, Clean),
    (26, NoRow),
    (50, NoRow),
    (51, Clean),
    (52, NoRow),
    (u32::MAX, NoRow),
];

fn caller(rt: &impl Abort, alloc: Global) -> Result<Component, AllocError> {
    let text = text(alloc, &CALLER)?;
    assert!(rt; text.len() < 10_000);
    match assemble(alloc, text.as_bytes()) {
        Ok(component) => Ok(component),
        Err(fault) => panic!(rt; "fault {} at {}", fault.number(), fault.place()),
    }
}

fn rows_are(rt: &impl Abort, caller: &Component) {
    assert!(rt; is_entry(caller, 2) && !is_entry(caller, 3));
    let sites = caller.fields().sites.as_slice().len();
    assert!(rt; 0 < sites);
    assert!(rt; is_site(caller, 0));
    let kept = check_flow(caller);
    assert!(rt; kept.is_ok());
    for (offset, wanted) in &ROWS {
        let row = wanted_row(*wanted);
        assert!(rt; row_at(caller, *offset) == row, "at {offset}");
    }
}

#[test]
fn rows_of_a_caller(rt: HostRuntime) -> Result<(), Fail> {
    rows_are(&rt, &caller(&rt, rt.alloc())?);
    Ok(())
}
