//! Names that mean something.
ghost use Rattle.std.specs.Prelude.{◌≡◌};
ghost use Rattle.asm_fields.specs.Names.{reg_named, kind_name, kind_named};
ghost use Rattle.asm_fields.specs.Names.{ownership, shared_named};

use component_file::Kind;
use lcm_isa::Reg;

pub(crate) fn reg_named(name: &[u8]) -> Option<Reg>
    ensures { result ≡ reg_named name.now }
{
    Reg::of_name(name)
}

/// The name of a kind in a row: `any`, `int`, `data`, `stk`, `pc` or `top`. An offset follows `pc`.
pub fn kind_name(kind: Kind) -> &'static str
    ensures { result.now ≡ kind_name kind }
{
    match kind {
        Kind::Any => "any",
        Kind::Int => "int",
        Kind::DataCap => "data",
        Kind::Stk => "stk",
        Kind::Pc(_) => "pc",
        Kind::Top => "top",
    }
}

// The kind of this name, of `pc` that of offset 0.
pub(crate) fn kind_named(name: &[u8]) -> Option<Kind>
    ensures { result ≡ kind_named name.now }
{
    [
        Kind::Any,
        Kind::Int,
        Kind::DataCap,
        Kind::Stk,
        Kind::Pc(0),
        Kind::Top,
    ]
    .iter()
    .copied()
    .find(|k| kind_name(*k).as_bytes() == name)
}

/// Whether other parts may import an export, as a word: `shared`, else `own`.
pub fn ownership(shared: bool) -> &'static str
    ensures { result.now ≡ ownership shared }
{
    if shared { "shared" } else { "own" }
}

pub(crate) fn shared_named(name: &[u8]) -> Option<bool>
    ensures { result ≡ shared_named name.now }
{
    match name {
        b"shared" => Some(true),
        b"own" => Some(false),
        _ => None,
    }
}
