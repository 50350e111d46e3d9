//! The code of a component as it is written.
ghost use Rattle.std.specs.Prelude.{◌≡◌, ◌≤◌, ◌<◌, ◌+◌, ◌*◌, OnOk, IfOk, length, replicate, pos, [], ◌∷◌};
ghost use Rattle.std.specs.Prelude.{◌++◌, ◌==◌, map, slice_set, ◌-◌};
ghost use Rattle.component_file.specs.declared.TheConstants.{LAST_OFFSET, MOST_SITES};
ghost use Rattle.proc_language.specs.declared.TheConstants.{MOST_SEALS};
ghost use Rattle.cap_words.specs.declared.TheConstants.{LAST_PLACE};
ghost use Rattle.component_file.specs.declared.TheConstants.{MOST_WORDS};
ghost use Rattle.call_sequence.specs.Sequences.{distance, call_code, return_code, entry_code};
ghost use Rattle.proc_templates.specs.Items.{leading, is_last, does, guards, goes, goes_if, finishes};
ghost use Rattle.proc_templates.specs.Items.{label, site};
ghost use Rattle.proc_templates.specs.Items.{entry, leaves, word_of};
ghost use Rattle.proc_templates.specs.Templates.{at_slot, at_glob, op_code, check_index};
ghost use Rattle.proc_templates.specs.Templates.{at_element, zeros, pair_words, load_linked};
ghost use Rattle.proc_templates.specs.Templates.{load_pair, check_half, push, wipe, take_back, epilogue};
ghost use Rattle.proc_compiler.specs.Drafts.{with_code, with_words, at_spot, Emits, Aims, PutsWords};
ghost use Rattle.proc_templates.specs.Bounds.{HandleBound};

use crate::counts::{ACCESS_WORDS, CALLBACK_WORDS, ELEMENT_WORDS, EPILOGUE_WORDS, JUMP_WORDS};
use crate::lists::push_integers;
use call_sequence::{
    CALL_WORDS, ENTRY_WORDS, RETURN_WORDS, SITE_WORDS, call_words, entry_words, return_words,
};
use cap_words::Word;
use lcm_isa::{Instr, Operand, Reg, encode};
use proc_language::Op;
use proc_program::Handle;
use proc_templates::FrameShape;
use seal_space::{SealLot, SealRange};
use std::alloc::{AllocError, Global};
use std::marker::Model;

/// The words that are written so far, with the offsets of calls, entries and labels, and what the
/// procedure that is being written needs to know of its part.
#[derive(Drop)]
pub(crate) struct Draft {
    code: Vec<Word>,
    sites: Vec<u32>,
    entries: Vec<u32>,
    labels: Vec<u32>,
    stack_base: u32,
    epilogue: u32,
    // The part's return seals, and those that are left of them.
    first: u32,
    seals: u32,
    lot: SealLot,
}

impl Model for Draft {
    ghost use Rattle.proc_compiler.specs.Drafts.{Drafted, SealsLeft};

    ghost Value = { Drafted };

    ghost view = { λ d. record {
      laid = record
          { code = d.code.items; sites = d.sites.items; entries = d.entries.items; labels = d.labels.items };
      spot = record { stack_base = d.stack_base; epilogue = d.epilogue };
      first = d.first;
      seals = d.seals;
    } };

    ghost invariant = { λ d. SealsLeft d.sites.items
        (record { stack_base = d.stack_base; epilogue = d.epilogue }) d.first d.seals d.lot };
}

// Appends the words of instructions.
fn push_words(code: &mut Vec<Word>, instrs: &[Instr]) -> Result<(), AllocError>
    ensures { OnOk result (code.new.items ≡ code.old.items ++ map word_of instrs.now) }
{
    for instr in instrs {
        code.push(Word::Int(encode(instr)))?;
    }
    Ok(())
}

impl Draft {
    /// The `fail` and the word after it, of a part with these return seals.
    pub(crate) fn new(
        alloc: Global,
        literal: Word,
        stack_base: u32,
        first: u32,
        seals: u32,
    ) -> Result<Draft, AllocError>
        requires base { stack_base ≤ LAST_PLACE }
        requires space { first ≤ LAST_PLACE }
        requires few { seals ≤ MOST_SEALS }
        ensures { IfOk result (λ d. d ≡ record {
          laid = record { code = word_of Instr.Fail ∷ literal ∷ []; sites = []; entries = []; labels = [] };
          spot = record { stack_base = stack_base; epilogue = 0 };
          first = first;
          seals = seals;
        }) }
    {
        let code = vec![in alloc; Word::Int(encode(&Instr::Fail)), literal]?;
        Ok(Draft {
            code,
            sites: Vec::new(alloc),
            entries: Vec::new(alloc),
            labels: Vec::new(alloc),
            stack_base,
            epilogue: 0,
            first,
            seals,
            lot: SealLot::of(SealRange::new(first, seals)),
        })
    }

    /// The offsets of labels.
    pub(crate) fn labels(&self) -> &[u32]
        ensures { result.now ≡ self.now.laid.labels }
    {
        self.labels.as_slice()
    }

    /// The words, and the offsets of calls.
    pub(crate) fn into_parts(self) -> (Vec<Word>, Vec<u32>)
        ensures code { result.0.items ≡ self.laid.code }
        ensures sites { result.1.items ≡ self.laid.sites }
    {
        let Draft { code, sites, .. } = self;
        (code, sites)
    }

    /// A procedure begins whose epilogue stands at an offset.
    pub(crate) fn begin(&mut self, epilogue: u32)
        requires { epilogue ≤ LAST_OFFSET }
        ensures { self.new ≡ at_spot (record { stack_base = self.old.spot.stack_base; epilogue = epilogue })
            self.old }
    {
        self.epilogue = epilogue;
    }

    /// The offset of the next word.
    pub(crate) fn at(&self) -> u32
        requires { length self.now.laid.code ≤ MOST_WORDS }
        ensures { result ≡ length self.now.laid.code }
    {
        self.code.len() as u32
    }

    #[tactic(auto, using(crate::proofs::Written::last_of))]
    fn is_labelled(&self, at: u32) -> bool
        ensures { result ≡ is_last self.now.laid.labels at }
    {
        match self.labels.as_slice().last() {
            None => false,
            Some(label) => *label == at,
        }
    }

    // The words of instructions.
    fn words(&mut self, instrs: &[Instr]) -> Result<(), AllocError>
        ensures { OnOk result (self.new ≡ with_words (map word_of instrs.now) self.old) }
    {
        push_words(&mut self.code, instrs)
    }

    // Another instruction at an offset.
    fn replace(&mut self, at: u32, instr: Instr)
        requires { at < length self.old.laid.code }
        ensures { self.new ≡ with_code (slice_set self.old.laid.code at (word_of instr)) self.old }
    {
        self.code[at as usize] = Word::Int(encode(&instr));
    }

    /// The jump at an offset leads to so many words after what is written.
    pub(crate) fn lead(&mut self, at: u32, beyond: u32)
        requires placed { length self.old.laid.code ≤ MOST_WORDS }
        requires there { at + 1 < length self.old.laid.code }
        requires near { beyond ≤ 3 }
        ensures { Aims at (pos (length self.old.laid.code + beyond - at)) self.old self.new }
    {
        let far = self.at() + beyond - at;
        self.replace(at + 1, Instr::Cca(Reg::T2, Operand::Imm(far as i32)));
    }

    // The words that check one half of a pair.
    fn check_half(&mut self, r: Reg) -> Result<(), AllocError>
        ensures { OnOk result (self.new ≡ with_words (map word_of (check_half r)) self.old) }
    {
        let (t1, t2) = (Reg::T1, Reg::T2);
        self.words(&[
            Instr::Gettype(t1, r),
            Instr::Minus(t1, t1, Operand::Imm(3)),
            Instr::Jnz(t2, t1),
            Instr::Getlin(t1, r),
            Instr::Jnz(t2, t1),
        ])
    }

    // The words of a jump by so many, counted from its own first, which this instruction makes.
    fn jump_by(&mut self, far: i32, jump: Instr) -> Result<(), AllocError>
        ensures { OnOk result (self.new ≡ with_words (map word_of (leading far jump)) self.old) }
    {
        self.words(&[
            Instr::Move(Reg::T2, Operand::R(Reg::Pc)),
            Instr::Cca(Reg::T2, Operand::Imm(far)),
            jump,
        ])
    }
}

// Single items.
#[tactic(auto, unfolding(proc_templates::specs::Items::put, proc_templates::specs::Items::instrs, crate::specs::Drafts::with_items))]
impl Draft {
    /// An instruction that neither jumps nor calls.
    pub(crate) fn put(&mut self, instr: Instr) -> Result<(), AllocError>
        ensures { OnOk result (Emits (does instr ∷ []) 1 0 self.old self.new) }
    {
        self.code.push(Word::Int(encode(&instr)))?;
        Ok(())
    }

    /// Instructions that neither jump nor call.
    pub(crate) fn puts(&mut self, instrs: &[Instr]) -> Result<(), AllocError>
        ensures { OnOk result
            (Emits (map (λ i. does i) instrs.now) (length instrs.now) 0 self.old self.new) }
    {
        self.words(instrs)
    }

    /// A place to which jumps lead.
    pub(crate) fn label(&mut self) -> Result<(), AllocError>
        requires { length self.old.laid.code ≤ MOST_WORDS }
        ensures { OnOk result (Emits (label ∷ []) 0 0 self.old self.new) }
    {
        let at = self.at();
        if self.is_labelled(at) {
            return Ok(());
        }
        self.labels.push(at)?;
        Ok(())
    }

    /// A jump by so many words, counted from its own first.
    pub(crate) fn jump(&mut self, far: i32) -> Result<(), AllocError>
        ensures { OnOk result (Emits (goes far ∷ []) JUMP_WORDS 0 self.old self.new) }
    {
        self.jump_by(far, Instr::Jmp(Reg::T2))
    }

    /// The same as `jump` where a register isn't 0.
    pub(crate) fn jump_if(&mut self, far: i32, r: Reg) -> Result<(), AllocError>
        ensures { OnOk result (Emits (goes_if far r ∷ []) JUMP_WORDS 0 self.old self.new) }
    {
        self.jump_by(far, Instr::Jnz(Reg::T2, r))
    }

    /// A jump to the epilogue.
    pub(crate) fn finish(&mut self) -> Result<(), AllocError>
        requires placed { length self.old.laid.code ≤ MOST_WORDS }
        ensures { OnOk result (Emits (finishes ∷ []) JUMP_WORDS 0 self.old self.new) }
    {
        let far = self.epilogue as i32 - self.at() as i32;
        self.jump_by(far, Instr::Jmp(Reg::T2))
    }

    // The words of an index check, during which t2 leads to the `fail`.
    pub(crate) fn check_index(&mut self, len: u32) -> Result<(), AllocError>
        requires placed { length self.old.laid.code ≤ MOST_WORDS }
        requires fits { len ≤ LAST_PLACE }
        ensures { OnOk result (Emits (check_index len ∷ []) 8 0 self.old self.new) }
    {
        let (t2, g0, g1) = (Reg::T2, Reg::G0, Reg::G1);
        let far = -(self.at() as i32);
        self.words(&[
            Instr::Move(t2, Operand::R(Reg::Pc)),
            Instr::Cca(t2, Operand::Imm(far)),
            Instr::Lt(g1, g0, Operand::Imm(0)),
            Instr::Jnz(t2, g1),
            Instr::Lt(g1, g0, Operand::Imm(len as i32)),
            Instr::Minus(g1, g1, Operand::Imm(1)),
            Instr::Jnz(t2, g1),
            Instr::Move(t2, Operand::Imm(0)),
        ])
    }

    /// A check of both halves of a pair, during which t2 leads to the `fail`.
    pub(crate) fn check_pair(&mut self, r: Reg, q: Reg) -> Result<(), AllocError>
        requires { length self.old.laid.code ≤ MOST_WORDS }
        ensures { OnOk result
            (Emits (guards (check_half r ++ check_half q) ∷ []) CALLBACK_WORDS 0 self.old self.new) }
    {
        let far = -(self.at() as i32);
        self.words(&[
            Instr::Move(Reg::T2, Operand::R(Reg::Pc)),
            Instr::Cca(Reg::T2, Operand::Imm(far)),
        ])?;
        self.check_half(r)?;
        self.check_half(q)?;
        self.words(&[Instr::Move(Reg::T2, Operand::Imm(0))])
    }

    /// A call with its return, which spends a seal of the part's.
    pub(crate) fn site(&mut self) -> Result<(), AllocError>
        requires placed { length self.old.laid.code + CALL_WORDS ≤ LAST_OFFSET }
        requires seals { length self.old.laid.sites < self.old.seals }
        ensures { OnOk result (Emits (site ∷ []) SITE_WORDS 1 self.old self.new) }
    {
        let at = self.at();
        let count = self.sites.len() as u32;
        self.sites.push(at)?;
        let number = next_number(&mut self.lot, self.first, count);
        put_site(&mut self.code, at, number, self.stack_base)
    }

    /// A procedure's entry.
    pub(crate) fn entry(&mut self) -> Result<(), AllocError>
        requires placed { length self.old.laid.code ≤ LAST_OFFSET }
        ensures { OnOk result (Emits (entry ∷ []) ENTRY_WORDS 0 self.old self.new) }
    {
        let at = self.at();
        self.entries.push(at)?;
        put_entry(&mut self.code, at, self.stack_base)
    }

    // The last words of a procedure.
    fn leave(&mut self) -> Result<(), AllocError>
        ensures { OnOk result (Emits (leaves ∷ []) RETURN_WORDS 0 self.old self.new) }
    {
        let zero = Operand::Imm(0);
        self.words(&[
            Instr::Move(Reg::T2, zero),
            Instr::Move(Reg::C1, zero),
            Instr::Move(Reg::C2, zero),
            Instr::Move(Reg::A1, zero),
            Instr::Move(Reg::A2, zero),
            Instr::Move(Reg::A3, zero),
            Instr::Move(Reg::G0, zero),
            Instr::Move(Reg::G1, zero),
            Instr::Move(Reg::G2, zero),
            Instr::Xjmp(Reg::Rcode, Reg::Rdata),
        ])
    }
}

// Templates, which are made of items.
#[tactic(auto, using(crate::proofs::Written::items))]
impl Draft {
    /// An instruction at a variable in the data.
    pub(crate) fn at_glob(&mut self, at: u32, instr: Instr) -> Result<(), AllocError>
        requires { at ≤ LAST_PLACE }
        ensures { OnOk result (Emits (at_glob at instr) ACCESS_WORDS 0 self.old self.new) }
    {
        self.puts(&[
            Instr::Cca(Reg::Dat, Operand::Imm(at as i32)),
            instr,
            Instr::Cca(Reg::Dat, Operand::Imm(-(at as i32))),
        ])
    }

    /// An instruction at a slot of a frame.
    pub(crate) fn at_slot(
        &mut self,
        f: FrameShape,
        slot: u32,
        instr: Instr,
    ) -> Result<(), AllocError>
        requires words_fit { f.words ≤ LAST_PLACE }
        requires slot_fits { slot ≤ LAST_PLACE }
        ensures { OnOk result (Emits (at_slot f slot instr) ACCESS_WORDS 0 self.old self.new) }
    {
        let (words, slot) = (f.words as i32, slot as i32);
        self.puts(&[
            Instr::Cca(Reg::Stk, Operand::Imm(words - slot)),
            instr,
            Instr::Cca(Reg::Stk, Operand::Imm(slot - words)),
        ])
    }

    /// What a binary operation does with g0 and g1.
    pub(crate) fn operate(&mut self, op: Op) -> Result<(), AllocError>
        ensures { OnOk result (Emits (op_code op) (length (op_code op)) 0 self.old self.new) }
    {
        let (g0, g1, g2) = (Reg::G0, Reg::G1, Reg::G2);
        match op {
            Op::Plus => self.put(Instr::Plus(g0, g0, Operand::R(g1))),
            Op::Minus => self.put(Instr::Minus(g0, g0, Operand::R(g1))),
            Op::Less => self.put(Instr::Lt(g0, g0, Operand::R(g1))),
            Op::Equal => self.puts(&[
                Instr::Lt(g2, g0, Operand::R(g1)),
                Instr::Lt(g0, g1, Operand::R(g0)),
                Instr::Plus(g0, g0, Operand::R(g2)),
                Instr::Move(g1, Operand::Imm(1)),
                Instr::Minus(g0, g1, Operand::R(g0)),
            ]),
        }
    }

    /// A jump back by so many words.
    pub(crate) fn jump_back(&mut self, far: u32) -> Result<(), AllocError>
        requires { far ≤ MOST_WORDS }
        ensures { OnOk result (Emits (goes (distance far 0) ∷ []) JUMP_WORDS 0 self.old self.new) }
    {
        self.jump(-(far as i32))
    }

    /// An instruction at the element of an array whose index is in g0.
    pub(crate) fn at_element(&mut self, at: u32, len: u32, instr: Instr) -> Result<(), AllocError>
        requires placed { length self.old.laid.code ≤ MOST_WORDS }
        requires at_fits { at ≤ LAST_PLACE }
        requires len_fits { len ≤ LAST_PLACE }
        ensures { OnOk result (Emits (at_element at len instr) ELEMENT_WORDS 0 self.old self.new) }
    {
        let (g0, g2) = (Reg::G0, Reg::G2);
        self.check_index(len)?;
        self.puts(&[
            Instr::Plus(g0, g0, Operand::Imm(at as i32)),
            Instr::Cca(Reg::Dat, Operand::R(g0)),
            instr,
            Instr::Move(g2, Operand::Imm(0)),
            Instr::Minus(g2, g2, Operand::R(g0)),
            Instr::Cca(Reg::Dat, Operand::R(g2)),
        ])
    }

    /// Registers become 0.
    #[cycle(zeros)]
    pub(crate) fn zeros(&mut self, registers: &[Reg]) -> Result<(), AllocError>
        ensures { OnOk result (Emits (zeros registers.now) (length registers.now) 0 self.old self.new) }
    {
        match registers.split_first() {
            None => Ok(()),
            Some((r, rest)) => {
                self.put(Instr::Move(*r, Operand::Imm(0)))?;
                self.zeros(rest)
            }
        }
    }

    /// Registers are pushed.
    #[cycle(push)]
    pub(crate) fn push(&mut self, registers: &[Reg]) -> Result<(), AllocError>
        ensures { OnOk result (Emits (push registers.now) (2 * length registers.now) 0 self.old self.new) }
    {
        match registers.split_first() {
            None => Ok(()),
            Some((r, rest)) => {
                let down = Instr::Cca(Reg::Stk, Operand::Imm(-1));
                self.puts(&[Instr::Store(Reg::Stk, *r), down])?;
                self.push(rest)
            }
        }
    }

    /// So many zeros are pushed.
    #[tactic(auto, using(crate::proofs::Written::more))]
    pub(crate) fn push_zeros(&mut self, count: u32) -> Result<(), AllocError>
        ensures { OnOk result (Emits (push (replicate count Reg.T1)) (2 * count) 0 self.old self.new) }
    {
        let down = Instr::Cca(Reg::Stk, Operand::Imm(-1));
        for _ in 0..count {
            self.puts(&[Instr::Store(Reg::Stk, Reg::T1), down])?;
        }
        Ok(())
    }

    /// So many slots are wiped.
    #[tactic(auto, using(crate::proofs::Written::more))]
    pub(crate) fn wipe(&mut self, count: u32) -> Result<(), AllocError>
        ensures { OnOk result (Emits (wipe count) (2 * count) 0 self.old self.new) }
    {
        let up = Instr::Cca(Reg::Stk, Operand::Imm(1));
        for _ in 0..count {
            self.puts(&[up, Instr::Store(Reg::Stk, Reg::T1)])?;
        }
        Ok(())
    }

    // A register is taken back from its slot, which is wiped.
    fn take_back(&mut self, r: Reg) -> Result<(), AllocError>
        ensures { OnOk result (Emits (take_back r) 3 0 self.old self.new) }
    {
        self.puts(&[
            Instr::Cca(Reg::Stk, Operand::Imm(1)),
            Instr::Load(r, Reg::Stk),
            Instr::Store(Reg::Stk, Reg::T1),
        ])
    }

    /// The end of a procedure whose frame has so many words.
    pub(crate) fn epilogue(&mut self, words: u32) -> Result<(), AllocError>
        requires { 2 ≤ words }
        ensures { OnOk result (Emits (epilogue words) (2 * words + EPILOGUE_WORDS) 0 self.old self.new) }
    {
        self.put(Instr::Move(Reg::T1, Operand::Imm(0)))?;
        self.wipe(words - 2)?;
        self.take_back(Reg::Rdata)?;
        self.take_back(Reg::Rcode)?;
        self.leave()
    }

    /// The pair of a handle comes into two registers.
    pub(crate) fn load_pair(
        &mut self,
        f: FrameShape,
        handle: Handle,
        r: Reg,
        q: Reg,
    ) -> Result<(), AllocError>
        requires words_fit { f.words ≤ LAST_PLACE }
        requires fits { HandleBound f handle }
        ensures { OnOk result (Emits (load_pair f handle r q) (pair_words handle) 0 self.old self.new) }
    {
        match handle {
            Handle::Given(i) => {
                self.at_slot(f, i + 2, Instr::Load(r, Reg::Stk))?;
                self.at_slot(f, i + 3, Instr::Load(q, Reg::Stk))
            }
            Handle::Own(j) => self.load_linked(2 * (f.imports + j), r, q),
            Handle::Imported(k) => self.load_linked(2 * k, r, q),
        }
    }

    // The pair in two words of the data comes into two registers.
    fn load_linked(&mut self, at: u32, r: Reg, q: Reg) -> Result<(), AllocError>
        requires { at + 1 ≤ LAST_PLACE }
        ensures { OnOk result (Emits (load_linked at r q) 5 0 self.old self.new) }
    {
        self.puts(&[
            Instr::Cca(Reg::Dat, Operand::Imm(at as i32)),
            Instr::Load(r, Reg::Dat),
            Instr::Cca(Reg::Dat, Operand::Imm(1)),
            Instr::Load(q, Reg::Dat),
            Instr::Cca(Reg::Dat, Operand::Imm(-((at + 1) as i32))),
        ])
    }
}

// The number of a site among those of its part, by which the call's code takes the site's seal. It
// spends the next seal.
fn next_number(lot: &mut SealLot, first: u32, count: u32) -> u32
    requires next { lot.old.base ≡ first + count }
    requires some { 0 < lot.old.count }
    ensures number { result ≡ count }
    ensures next { lot.new.base ≡ first + count + 1 }
    ensures left { lot.new.count + 1 ≡ lot.old.count }
{
    match lot.draw() {
        None => count,
        Some(token) => token.bind(count).seal - first,
    }
}

// The words of a call and of its return.
fn put_site(code: &mut Vec<Word>, at: u32, number: u32, stack_base: u32) -> Result<(), AllocError>
    requires placed { at + CALL_WORDS ≤ LAST_OFFSET }
    requires few { number < MOST_SITES }
    requires base_fits { stack_base ≤ LAST_PLACE }
    ensures { OnOk result (PutsWords
        (map word_of (call_code 1 at number ++ return_code 0 (at + CALL_WORDS) stack_base)) SITE_WORDS
        code.old.items code.new.items) }
{
    push_integers(code, &call_words(1, at, number))?;
    push_integers(code, &return_words(0, at + CALL_WORDS, stack_base))
}

// The words of an entry.
fn put_entry(code: &mut Vec<Word>, at: u32, stack_base: u32) -> Result<(), AllocError>
    requires placed { at ≤ LAST_OFFSET }
    requires base_fits { stack_base ≤ LAST_PLACE }
    ensures { OnOk result (PutsWords
        (map word_of (entry_code 0 at stack_base)) ENTRY_WORDS code.old.items code.new.items) }
{
    push_integers(code, &entry_words(0, at, stack_base))
}
