//! The operands of items.
ghost use Rattle.std.specs.Prelude.{◌≡◌, ◌≤◌, IfOk};
ghost use Rattle.cap_words.specs.declared.TheConstants.{LAST_PLACE, LONGEST_STRETCH};
ghost use Rattle.readers.specs.Answers.{Gives, GivesAs};
ghost use Rattle.asm_fields.specs.Fields.{meant};
ghost use Rattle.asm_fields.specs.Names.{kind_named, shared_named};
ghost use Rattle.asm_fields.specs.Operands.{address_at, stretch_at, offset_at, label_at, offset_seen};
ghost use Rattle.asm_fields.specs.Operands.{shared_at, kind_at, kind_behind, kind_seen};

use crate::fault::AsmFault;
use crate::fields::Fields;
use crate::names;
use cap_words::{LAST_PLACE, LONGEST_STRETCH};
use component_file::{Area, Kind, LAST_OFFSET};

/// An offset in code or data.
#[derive(Clone, Copy)]
pub enum Offset<'a> {
    /// A number.
    Number(u32),
    /// A label, with the place at which its name stands.
    Label(u32, &'a [u8]),
}

/// What a register holds, in a row.
#[derive(Clone, Copy)]
pub enum KindField<'a> {
    /// A kind other than that of code.
    Plain(Kind),
    /// The capability over the code, at this offset.
    Pc(Offset<'a>),
}

// A label, with its place.
fn label<'a>(fields: &mut Fields<'a, '_>) -> Result<Offset<'a>, AsmFault>
    ensures { GivesAs offset_seen result fields.new (label_at fields.old) }
{
    let at = fields.place();
    Ok(Offset::Label(at, fields.proper_name()?))
}

#[tactic(auto, unfolding(crate::specs::Fields::meant))]
fn kind_named(fields: &mut Fields<'_, '_>) -> Result<Kind, AsmFault>
    ensures { Gives result fields.new (meant kind_named fields.old) }
{
    let at = fields.place();
    names::kind_named(fields.name()?).ok_or(AsmFault::Operand(at))
}

// What stands after the name of a kind.
fn kind_behind<'a>(kind: Kind, fields: &mut Fields<'a, '_>) -> Result<KindField<'a>, AsmFault>
    ensures { GivesAs kind_seen result fields.new (kind_behind kind fields.old) }
{
    match kind {
        Kind::Pc(_) => Ok(KindField::Pc(fields.offset()?)),
        other => Ok(KindField::Plain(other)),
    }
}

impl<'a, 'b> Fields<'a, 'b> {
    /// An address, or a seal.
    pub fn address(&mut self) -> Result<u32, AsmFault>
        ensures exact { Gives result self.new (address_at self.old) }
        ensures in_space { IfOk result (λ n. n ≤ LAST_PLACE) }
    {
        self.natural(0, LAST_PLACE)
    }

    /// `BASE COUNT`, where COUNT is at least 1.
    #[tactic(auto, unfolding(crate::specs::Operands::stretch_at))]
    pub fn stretch(&mut self) -> Result<Area, AsmFault>
        ensures exact { Gives result self.new (stretch_at self.old) }
        ensures in_space { IfOk result (λ s. s.base ≤ LAST_PLACE) }
        ensures few { IfOk result (λ s. s.count ≤ LONGEST_STRETCH) }
    {
        let base = self.address()?;
        let count = self.natural(1, LONGEST_STRETCH)?;
        Ok(Area { base, count })
    }

    /// A number up to 65,535, or a label.
    #[tactic(auto, unfolding(crate::specs::Operands::offset_at))]
    pub fn offset(&mut self) -> Result<Offset<'a>, AsmFault>
        ensures { GivesAs offset_seen result self.new (offset_at self.old) }
    {
        if self.is_name() {
            label(self)
        } else {
            Ok(Offset::Number(self.natural(0, LAST_OFFSET)?))
        }
    }

    /// Whether other parts may import an export: `shared` or `own`.
    #[tactic(auto, unfolding(crate::specs::Fields::meant))]
    pub fn shared(&mut self) -> Result<bool, AsmFault>
        ensures { Gives result self.new (shared_at self.old) }
    {
        let at = self.place();
        names::shared_named(self.name()?).ok_or(AsmFault::Operand(at))
    }

    /// What a register holds: `any`, `int`, `data`, `stk`, `top`, or `pc` and an offset.
    #[tactic(auto, unfolding(crate::specs::Operands::kind_at))]
    pub fn register_kind(&mut self) -> Result<KindField<'a>, AsmFault>
        ensures { GivesAs kind_seen result self.new (kind_at self.old) }
    {
        let kind = kind_named(self)?;
        kind_behind(kind, self)
    }
}
