//! A part: a component that keeps its rules, and whether it is trusted.
ghost use Rattle.std.specs.Prelude.{◌≡◌, Ok};
ghost use Rattle.std.specs.Result.{result_and};
ghost use Rattle.linked_starts.specs.Parts.{PartSeen, IsPart, TriesFlow, Accepts};
ghost use Rattle.linked_starts.specs.Accepted.{accepted};

use component_check::{Broken, check};
use component_file::Component;
use flow_check::check_flow;
use std::marker::Model;

/// A component that keeps its rules, and whether it is trusted. A contract sees the two.
///
/// Each part keeps the rules C1 to C9 of docs/RULES.md, and where it is trusted C10 to C12 and the
/// rules of the flow of its code, K1 to K10.
#[derive(Drop)]
pub struct Part {
    component: Component,
    trusted: bool,
}

impl Model for Part {
    ghost use Rattle.linked_starts.specs.Parts.{PartSeen, IsPart};

    ghost Value = { PartSeen };

    ghost view = { λ p. record { component = p.component; trusted = p.trusted } };

    ghost invariant = { λ p. IsPart (record { component = p.component; trusted = p.trusted }) };
}

// The rules K, which are asked of a trusted component.
fn check_trusted(c: &Component, trusted: bool) -> Result<(), Broken>
    ensures { TriesFlow (record { component = c.now; trusted = trusted }) result }
{
    if !trusted {
        return Ok(());
    }
    check_flow(c)
}

// All rules that are asked of a component, C before K.
fn check_part(c: &Component, trusted: bool) -> Result<(), Broken>
    ensures { let p : PartSeen =
        record { component = c.now; trusted = trusted } in Accepts p (result_and result (Ok p)) }
{
    check(c, trusted)?;
    check_trusted(c, trusted)
}

/// The part of a component that keeps its rules: C1 to C9, and of a trusted one C10 to C12 and then
/// K1 to K10. Else the first rule that it breaks, in this order, and the first place at which it
/// breaks it. It takes no memory. A component that is refused is dropped.
pub fn accept(c: Component, trusted: bool) -> Result<Part, Broken>
    ensures first { Accepts (record { component = c; trusted = trusted }) result }
    ensures is { result ≡ accepted (record { component = c; trusted = trusted }) }
{
    check_part(&c, trusted)?;
    Ok(Part {
        component: c,
        trusted,
    })
}

impl Part {
    /// The component, to read.
    pub fn component(&self) -> &Component
        ensures same { result.now ≡ self.now.component }
        ensures kept { IsPart self.now }
    {
        &self.component
    }

    /// Whether it is trusted.
    pub fn trusted(&self) -> bool
        ensures same { result ≡ self.now.trusted }
        ensures kept { IsPart self.now }
    {
        self.trusted
    }
}
