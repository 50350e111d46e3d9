//! Memory by spans: the ends of the address space, gaps, and spans side by side.
use cap_words::{Held, Word};
use lcm_machine::state::State;
use lcm_machine::{LcmState, Place, Span};
use std::process::Abort;
use std::test::Fail;

/// The ends of the address space, with one cell each.
const ENDS: [Span; 2] = [
    Span { base: 0, end: 0 },
    Span {
        base: 1_048_575,
        end: 1_048_575,
    },
];

/// Two spans with a gap of one address.
const GAP: [Span; 2] = [Span { base: 10, end: 12 }, Span { base: 14, end: 14 }];

/// The spans of a machine, and addresses with whether they have a cell.
const MEMORIES: [([Span; 2], [(u32, bool); 5]); 3] = [
    (
        ENDS,
        [
            (0, true),
            (1, false),
            (1_048_574, false),
            (1_048_575, true),
            (u32::MAX, false),
        ],
    ),
    (
        GAP,
        [(9, false), (10, true), (12, true), (13, false), (14, true)],
    ),
    // Side by side.
    (
        [Span { base: 10, end: 12 }, Span { base: 13, end: 15 }],
        [(12, true), (13, true), (15, true), (16, false), (9, false)],
    ),
];

// Each cell that is there has integer 0.
fn has_cells(rt: &impl Abort, machine: &LcmState, cells: &[(u32, bool)]) {
    for (at, there) in cells {
        let zero = number(machine, *at) == Some(0);
        assert_eq!(rt; (machine.has_cell(*at), zero), (*there, *there), "at {at}");
    }
}

fn has_spans(machine: &LcmState, given: &[Span; 2]) -> bool {
    match machine.spans() {
        [first, second] => {
            [first.base, first.end, second.base, second.end]
                == [given[0].base, given[0].end, given[1].base, given[1].end]
        }
        _ => false,
    }
}

fn memory_is(rt: &impl Abort, machine: &LcmState, spans: &[Span; 2], cells: &[(u32, bool)]) {
    has_cells(rt, machine, cells);
    assert!(rt; has_spans(machine, spans));
}

#[test]
fn cells_stand_where_the_spans_are(rt: HostRuntime) -> Result<(), Fail> {
    for (spans, cells) in MEMORIES {
        let machine = LcmState::make(rt.alloc(), &spans)?;
        memory_is(&rt, &machine, &spans, &cells);
    }
    Ok(())
}

// Side by side, and one cell apart from them.
const THREE: [Span; 3] = [
    Span {
        base: 100,
        end: 104,
    },
    Span {
        base: 105,
        end: 109,
    },
    Span {
        base: 200,
        end: 200,
    },
];

static IN_THREE: [(u32, bool); 11] = [
    (0, false),
    (99, false),
    (100, true),
    (104, true),
    (105, true),
    (109, true),
    (110, false),
    (199, false),
    (200, true),
    (201, false),
    (1_048_575, false),
];

#[test]
fn three_spans_have_their_cells(rt: HostRuntime) -> Result<(), Fail> {
    let machine = LcmState::make(rt.alloc(), &THREE)?;
    has_cells(&rt, &machine, &IN_THREE);
    Ok(())
}

/// Sets the cell at an address to an integer, where it has one.
fn set(machine: &mut LcmState, at: u32, number: i64) {
    if machine.has_cell(at) {
        machine.set(Place::Cell(at), Held::of(Word::Int(number)));
    }
}

/// The integer in the cell at an address.
fn number(machine: &LcmState, at: u32) -> Option<i64> {
    if machine.has_cell(at) {
        machine.cell(at).face().int()
    } else {
        None
    }
}

#[test]
fn each_span_has_cells_of_its_own(rt: HostRuntime) -> Result<(), Fail> {
    let mut machine = LcmState::make(rt.alloc(), &ENDS)?;
    set(&mut machine, 1_048_575, 7);
    let ends = (number(&machine, 0), number(&machine, 1_048_575));
    assert_eq!(rt; ends, (Some(0), Some(7)));
    Ok(())
}

/// Takes a cell out of memory and puts it in again: whether the address had none meanwhile.
fn out_and_in(state: &mut State<Word>, at: u32) -> bool {
    if !state.has_cell(at) {
        return false;
    }
    let word = state.remove_cell(at);
    let gone = !state.has_cell(at);
    state.insert_cell(at, word);
    gone
}

#[test]
fn a_cell_goes_out_of_memory_and_comes_back(rt: HostRuntime) -> Result<(), Fail> {
    let mut state = State::<Word>::zeros(rt.alloc(), &GAP)?;
    let went = (out_and_in(&mut state, 13), out_and_in(&mut state, 14));
    assert_eq!(rt; (went, state.has_cell(14)), ((false, true), true));
    Ok(())
}
