//! The untrusted part of a load, by its fields.
ghost use Rattle.std.specs.Prelude.{◌≡◌, IfOk};
ghost use Rattle.link_tool.specs.Generated.{instr_word, adder};

use super::load::Workload;
use cap_words::{Items, SealRange, Word};
use component_file::{Area, Component, ComponentFields, Export};
use lcm_isa::{Instr, Operand, Reg, encode};
use std::alloc::{AllocError, Global};

fn word_of(instr: &Instr) -> Word
    ensures { result ≡ instr_word instr.now }
{
    Word::Int(encode(instr))
}

/// The component of a load's other part.
#[tactic(auto, unfolding(cap_words::specs::Names::is_name))]
pub fn adder(alloc: Global, load: Workload) -> Result<Component, AllocError>
    ensures { IfOk result (λ c. c ≡ adder load) }
{
    let added = Operand::Imm(i32::from(load.added));
    let add = word_of(&Instr::Plus(Reg::A0, Reg::A0, added));
    let back = word_of(&Instr::Xjmp(Reg::Rcode, Reg::Rdata));
    let go = Export {
        name: Items::of(Vec::from_slice(alloc, b"go")?),
        offset: 0,
        shared: true,
    };
    Ok(Component::of(ComponentFields {
        name: Items::of(Vec::from_slice(alloc, b"adv")?),
        stack_base: 65_536,
        closure: 20,
        seals: SealRange::new(0, 0),
        linear: Area { base: 0, count: 0 },
        code_base: 12_288,
        code: Items::of(vec![in alloc; add, back]?),
        data_base: 16_384,
        data_words: Items::of(vec![in alloc; Word::Int(0)]?),
        imports: Items::of(Vec::new(alloc)),
        exports: Items::of(vec![in alloc; go]?),
        sites: Items::of(Vec::new(alloc)),
        fail_at: None,
        literal_at: None,
        rows: Items::of(Vec::new(alloc)),
        movable: false,
    }))
}
