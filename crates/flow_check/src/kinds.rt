//! Kinds and rows of kinds.
ghost use Rattle.std.specs.Prelude.{◌≡◌};
ghost use Rattle.std.specs.List.{list_all};
ghost use Rattle.call_sequence.specs.Kinds.{kind_of, set_kind, below_any, kind_below, row_below};

use call_sequence::Row;
use component_file::Kind;
use lcm_isa::Reg;

/// At an entry, data is the part's, and nothing is known of the others.
pub(crate) const ENTRY_ROW: Row = [
    Kind::Any,
    Kind::Any,
    Kind::Any,
    Kind::DataCap,
    Kind::Any,
    Kind::Any,
    Kind::Any,
    Kind::Any,
    Kind::Any,
    Kind::Any,
    Kind::Any,
    Kind::Any,
    Kind::Any,
    Kind::Any,
    Kind::Any,
];

/// After an entry, and after a site: stk is the stack, and t1 and t2 are integers.
pub(crate) const CLEAN_ROW: Row = [
    Kind::Any,
    Kind::Any,
    Kind::Stk,
    Kind::DataCap,
    Kind::Int,
    Kind::Int,
    Kind::Any,
    Kind::Any,
    Kind::Any,
    Kind::Any,
    Kind::Any,
    Kind::Any,
    Kind::Any,
    Kind::Any,
    Kind::Any,
];

/// The kind of a register other than pc.
#[tactic(auto, unfolding(call_sequence::specs::Kinds::kind_of))]
pub(crate) fn kind_of(row: &Row, r: Reg) -> Kind
    ensures { result ≡ kind_of row.now r }
{
    row[r.number().saturating_sub(1) as usize]
}

/// The row with another kind of a register other than pc.
#[tactic(auto, unfolding(call_sequence::specs::Kinds::set_kind))]
pub(crate) fn set_kind(row: Row, r: Reg, kind: Kind) -> Row
    ensures { result ≡ set_kind row r kind }
{
    let mut row = row;
    row[r.number().saturating_sub(1) as usize] = kind;
    row
}

/// Whether untrusted code may hold what is of this kind.
pub(crate) fn below_any(kind: Kind) -> bool
    ensures { result ≡ below_any kind }
{
    matches!(kind, Kind::Any | Kind::Int | Kind::Stk)
}

/// Whether untrusted code may hold what all these registers have.
pub(crate) fn all_below_any(row: &Row, regs: &[Reg]) -> bool
    ensures { result ≡ list_all (λ r. below_any (kind_of row.now r)) regs.now }
{
    regs.iter().all(|r| below_any(kind_of(row, *r)))
}

fn kind_below(kind: Kind, other: Kind) -> bool
    ensures { result ≡ kind_below kind other }
{
    match other {
        Kind::Top => true,
        Kind::Any => below_any(kind),
        Kind::Int => matches!(kind, Kind::Int),
        Kind::Stk => matches!(kind, Kind::Stk),
        Kind::DataCap => matches!(kind, Kind::DataCap),
        Kind::Pc(p) => matches!(kind, Kind::Pc(o) if o == p),
    }
}

/// Whether registers of the first row's kinds are of the other's.
pub(crate) fn row_below(row: &Row, other: &Row) -> bool
    ensures { result ≡ row_below row.now other.now }
{
    for i in 0..15 {
        if !kind_below(row[i], other[i]) {
            return false;
        }
    }
    true
}
