//! What the lines of a text have made so far.
ghost use Rattle.std.specs.Prelude.{◌≡◌, ◌<◌, ◌&&◌, length, Ok, Err, OnOk, IfOk, None, MatchResult};
ghost use Rattle.component_file.specs.declared.TheConstants.{MOST_WORDS};
ghost use Rattle.readers.specs.Answers.{AnswersAs};
ghost use Rattle.asm_fields.specs.Fault.{is_refusal};
ghost use Rattle.assembler.specs.Labels.{label_of};
ghost use Rattle.readers.specs.Answers.{Gives, GivesAs};
ghost use Rattle.asm_fields.specs.Fields.{proper_name_at};
ghost use Rattle.asm_fields.specs.Instrs.{last_seen};
ghost use Rattle.asm_fields.specs.Operands.{offset_seen, kind_seen, stretch_at};
ghost use Rattle.assembler.specs.declared.labels.Section.TheVariants.{Code};
ghost use Rattle.assembler.specs.Order.{reaches_data, section_of};
ghost use Rattle.assembler.specs.Tables.{tables_seen};
ghost use Rattle.assembler.specs.Draft.{nothing, words_in, has_word_room, with_word, may_end, with_label};
ghost use Rattle.assembler.specs.Draft.{with_instr};
ghost use Rattle.assembler.specs.Operands.{offset_found, offset_operand, kind_found, kind_in, kinds_in};
ghost use Rattle.assembler.specs.Operands.{import_in, export_in, site_in, fail_in, literal_in, row_in};
ghost use Rattle.assembler.specs.Operands.{operands_in};
ghost use Rattle.assembler.specs.Lines.{label_in, label_if, is_code, instr_in, word_in, may_stand, item_in};
ghost use Rattle.assembler.specs.Lines.{directive_from, directive_in, behind_label, line_in, MakesAs};
ghost use Rattle.assembler.specs.Lines.{MakesDraft};

use crate::header::TextHeader;
use crate::labels::{Label, Labels, Section};
use crate::order::{may_follow, reaches_data, section_of};
use crate::references::References;
use crate::tables::Tables;
use asm_fields::{
    AsmFault, Directive, Fields, ItemKind, KindField, Last, Offset, WordKind, instr_operands,
    row_named, shape_of, word_line,
};
use cap_words::{Items, SealRange, Word};
use component_file::{Export, Import, Kind, KindRow, MOST_WORDS};
use lcm_isa::{Instr, encode};
use std::alloc::{AllocError, Global};
use std::marker::Model;

/// What the lines of a text have made so far.
///
/// It must be spent, as the references must.
pub struct Draft<'a> {
    /// The last item.
    pub last: Option<ItemKind>,
    /// What the single items said.
    pub header: TextHeader,
    /// The labels.
    pub labels: Labels<'a>,
    /// The references to labels, of words and of tables, in the order of the text.
    pub references: References<'a>,
    /// The words of the code. One that waits for a label has 0 in its place.
    pub code: Vec<Word>,
    /// The words of the data.
    pub data_words: Vec<Word>,
    /// The items after the data.
    pub tables: Tables,
}

impl<'a> Model for Draft<'a> {
    ghost use Rattle.assembler.specs.Tables.{tables_seen};
    ghost use Rattle.assembler.specs.Draft.{Draft};

    ghost Value = { Draft };

    ghost view = { λ d. record {
      last = d.last;
      header = d.header;
      labels = d.labels;
      references = d.references;
      code = d.code.items;
      data_words = d.data_words.items;
      tables = tables_seen d.tables;
    } };
}

impl<'a> Draft<'a> {
    // Nothing yet. It takes no memory.
    pub(crate) fn new(alloc: Global) -> Draft<'a>
        ensures { result ≡ nothing }
    {
        Draft {
            last: None,
            header: TextHeader::new(alloc),
            labels: Labels::new(alloc),
            references: References::new(alloc),
            code: Vec::new(alloc),
            data_words: Vec::new(alloc),
            tables: Tables::new(alloc),
        }
    }

    /// Spends it, where the text has a fault.
    pub fn give_up(self) {
        let Draft {
            last: _,
            header: _,
            labels: _,
            references,
            code: _,
            data_words: _,
            tables: _,
        } = self;
        references.give_up();
    }

    // How many words the section has.
    fn words_len(&self, section: Section) -> usize
        ensures { result ≡ length (words_in section self.now) }
    {
        match section {
            Section::Code => self.code.len(),
            Section::Data => self.data_words.len(),
        }
    }

    // Whether one more word may stand in the section.
    fn has_word_room(&self, section: Section) -> bool
        ensures { result ≡ has_word_room section self.now }
    {
        self.words_len(section) < MOST_WORDS as usize
    }

    // Whether the section, if any, has words, so that it can end.
    fn may_end(&self) -> bool
        ensures { result ≡ may_end self.now }
    {
        match section_of(self.last) {
            Some(section) => self.words_len(section) != 0,
            None => true,
        }
    }

    // Adds a word to the section.
    fn push_word(&mut self, section: Section, word: Word) -> Result<(), AllocError>
        ensures { OnOk result (self.new ≡ with_word section word self.old) }
    {
        match section {
            Section::Code => self.code.push(word)?,
            Section::Data => self.data_words.push(word)?,
        }
        Ok(())
    }

    // Adds an instruction to the code, and the reference that it makes.
    fn push_instr(&mut self, instr: &Instr, last: Last<'a>) -> Result<(), AllocError>
        requires { length self.old.code < MOST_WORDS }
        ensures { OnOk result (self.new ≡ with_instr instr.now (last_seen last.entry) self.old) }
    {
        let word = self.code.len() as u32;
        self.code.push(Word::Int(encode(instr)))?;
        self.references.push_last(word, last)
    }

    // Adds a label before the next word of its section.
    fn push_label(&mut self, name: &'a [u8], section: Section) -> Result<(), AllocError>
        requires new { label_of name.now self.old.labels ≡ None }
        requires within { length (words_in section self.old) < MOST_WORDS }
        ensures { OnOk result (self.new ≡ with_label name.now section self.old) }
    {
        let offset = self.words_len(section) as u32;
        self.labels.add(name, Label { section, offset })
    }

    // Takes a label and its colon.
    #[tactic(auto, unfolding(crate::specs::Lines::label_in))]
    fn label(&mut self, fields: &mut Fields<'a, '_>) -> Result<(), AsmFault>
        ensures { MakesDraft result self.new fields.new (label_in self.old fields.old) }
    {
        let at = fields.place();
        let name = fields.proper_name()?;
        let _colon = fields.sign(b':');
        let Some(section) = section_of(self.last) else {
            return Err(AsmFault::Section(at));
        };
        if self.labels.find(name).is_some() {
            return Err(AsmFault::LabelTwice(at));
        }
        if !self.has_word_room(section) {
            return Err(AsmFault::Section(at));
        }
        let end = fields.place();
        if fields.is_empty() {
            return Err(AsmFault::Operand(end));
        }
        self.push_label(name, section)?;
        Ok(())
    }

    fn label_if(&mut self, labelled: bool, fields: &mut Fields<'a, '_>) -> Result<(), AsmFault>
        ensures { MakesDraft result self.new fields.new (label_if labelled self.old fields.old) }
    {
        if labelled { self.label(fields) } else { Ok(()) }
    }

    // Whether an instruction may stand next.
    fn takes_instr(&self) -> bool
        ensures { result ≡ (is_code (section_of self.now.last) && has_word_room Code self.now) }
    {
        matches!(section_of(self.last), Some(Section::Code)) && self.has_word_room(Section::Code)
    }

    #[tactic(auto, unfolding(crate::specs::Lines::instr_in))]
    fn instr(&mut self, fields: &mut Fields<'a, '_>) -> Result<(), AsmFault>
        ensures { MakesDraft result self.new fields.new (instr_in self.old fields.old) }
    {
        let at = fields.place();
        let name = fields.name()?;
        let Some(row) = row_named(name) else {
            return Err(AsmFault::Unknown(at));
        };
        if !self.takes_instr() {
            return Err(AsmFault::Section(at));
        }
        let (instr, last) = instr_operands(at, name, shape_of(&row), fields)?;
        self.push_instr(&instr, last)?;
        Ok(())
    }

    // Takes a word that a directive writes, which stands at this place.
    #[tactic(auto, unfolding(crate::specs::Lines::word_in))]
    fn word(&mut self, at: u32, kind: WordKind, fields: &mut Fields<'a, '_>) -> Result<(), AsmFault>
        ensures { MakesDraft result self.new fields.new (word_in at kind self.old fields.old) }
    {
        let Some(section) = section_of(self.last) else {
            return Err(AsmFault::Section(at));
        };
        if !self.has_word_room(section) {
            return Err(AsmFault::Section(at));
        }
        let word = word_line(kind, fields)?;
        self.push_word(section, word)?;
        Ok(())
    }

    // The number of an offset. A label gives that of its own, 0 where it is missing, and a reference.
    fn offset_found(&mut self, section: Section, offset: Offset<'a>) -> Result<u32, AllocError>
        ensures { IfOk result (λ n.
            (n, self.new) ≡ offset_found section (offset_seen offset.entry) self.old) }
    {
        match offset {
            Offset::Number(number) => Ok(number),
            Offset::Label(at, name) => {
                self.references.push_table(at, section, name)?;
                Ok(self.labels.offset_of(section, name).unwrap_or(0))
            }
        }
    }

    #[tactic(auto, unfolding(crate::specs::Operands::offset_operand))]
    fn offset(&mut self, section: Section, fields: &mut Fields<'a, '_>) -> Result<u32, AsmFault>
        ensures { MakesAs result self.new fields.new (offset_operand section self.old fields.old) }
    {
        let offset = fields.offset()?;
        Ok(self.offset_found(section, offset)?)
    }

    fn kind_found(&mut self, kind: KindField<'a>) -> Result<Kind, AllocError>
        ensures { IfOk result (λ k. (k, self.new) ≡ kind_found (kind_seen kind.entry) self.old) }
    {
        match kind {
            KindField::Plain(kind) => Ok(kind),
            KindField::Pc(offset) => Ok(Kind::Pc(self.offset_found(Section::Code, offset)?)),
        }
    }

    #[tactic(auto, unfolding(crate::specs::Operands::kind_in))]
    fn kind(&mut self, fields: &mut Fields<'a, '_>) -> Result<Kind, AsmFault>
        ensures { MakesAs result self.new fields.new (kind_in self.old fields.old) }
    {
        let kind = fields.register_kind()?;
        Ok(self.kind_found(kind)?)
    }

    // The kinds of the registers 1 to 15.
    fn kinds(&mut self, fields: &mut Fields<'a, '_>) -> Result<[Kind; 15], AsmFault>
        ensures { MakesAs result self.new fields.new (kinds_in 15 self.old fields.old) }
    {
        let mut kinds = [Kind::Any; 15];
        for kind in &mut kinds {
            *kind = self.kind(fields)?;
        }
        Ok(kinds)
    }

    #[tactic(auto, unfolding(crate::specs::Operands::import_in))]
    fn import(
        &mut self,
        alloc: Global,
        at: u32,
        fields: &mut Fields<'a, '_>,
    ) -> Result<(), AsmFault>
        ensures { MakesDraft result self.new fields.new (import_in at self.old fields.old) }
    {
        let part = name(alloc, fields)?;
        let name = name(alloc, fields)?;
        let slot = self.offset(Section::Data, fields)?;
        self.tables.push_import(at, Import { part, name, slot })?;
        Ok(())
    }

    #[tactic(auto, unfolding(crate::specs::Operands::export_in))]
    fn export(
        &mut self,
        alloc: Global,
        at: u32,
        fields: &mut Fields<'a, '_>,
    ) -> Result<(), AsmFault>
        ensures { MakesDraft result self.new fields.new (export_in at self.old fields.old) }
    {
        let name = name(alloc, fields)?;
        let offset = self.offset(Section::Code, fields)?;
        let shared = fields.shared()?;
        let export = Export {
            name,
            offset,
            shared,
        };
        self.tables.push_export(at, export)?;
        Ok(())
    }

    #[tactic(auto, unfolding(crate::specs::Operands::site_in))]
    fn site(&mut self, at: u32, fields: &mut Fields<'a, '_>) -> Result<(), AsmFault>
        ensures { MakesDraft result self.new fields.new (site_in at self.old fields.old) }
    {
        let site = self.offset(Section::Code, fields)?;
        self.tables.push_site(at, site)?;
        Ok(())
    }

    #[tactic(auto, unfolding(crate::specs::Operands::fail_in))]
    fn fail(&mut self, fields: &mut Fields<'a, '_>) -> Result<(), AsmFault>
        ensures { MakesDraft result self.new fields.new (fail_in self.old fields.old) }
    {
        let offset = self.offset(Section::Code, fields)?;
        self.tables.fail_at = Some(offset);
        Ok(())
    }

    #[tactic(auto, unfolding(crate::specs::Operands::literal_in))]
    fn literal(&mut self, fields: &mut Fields<'a, '_>) -> Result<(), AsmFault>
        ensures { MakesDraft result self.new fields.new (literal_in self.old fields.old) }
    {
        let offset = self.offset(Section::Code, fields)?;
        self.tables.literal_at = Some(offset);
        Ok(())
    }

    #[tactic(auto, unfolding(crate::specs::Operands::row_in))]
    fn row(&mut self, at: u32, fields: &mut Fields<'a, '_>) -> Result<(), AsmFault>
        ensures { MakesDraft result self.new fields.new (row_in at self.old fields.old) }
    {
        let offset = self.offset(Section::Code, fields)?;
        let kinds = self.kinds(fields)?;
        self.tables.push_row(at, KindRow { offset, kinds })?;
        Ok(())
    }

    // Takes what an item says, which stands at this place.
    fn operands(
        &mut self,
        alloc: Global,
        at: u32,
        item: ItemKind,
        fields: &mut Fields<'a, '_>,
    ) -> Result<(), AsmFault>
        ensures { MakesDraft result self.new fields.new (operands_in at item self.old fields.old) }
    {
        match item {
            ItemKind::Name => put(&mut self.header.name, name(alloc, fields)),
            ItemKind::Stack => put(&mut self.header.stack_base, fields.address()),
            ItemKind::Closure => put(&mut self.header.closure, fields.address()),
            ItemKind::Movable => put(&mut self.header.movable, Ok(true)),
            ItemKind::Seals => put(&mut self.header.seals, seals(fields)),
            ItemKind::Linear => put(&mut self.header.linear, fields.stretch()),
            ItemKind::Code => put(&mut self.header.code_base, fields.address()),
            ItemKind::Data => put(&mut self.header.data_base, fields.address()),
            ItemKind::Import => self.import(alloc, at, fields),
            ItemKind::Export => self.export(alloc, at, fields),
            ItemKind::Site => self.site(at, fields),
            ItemKind::Fail => self.fail(fields),
            ItemKind::Literal => self.literal(fields),
            ItemKind::Row => self.row(at, fields),
        }
    }

    fn may_stand(&self, labelled: bool, item: ItemKind) -> bool
        ensures { result ≡ may_stand labelled item self.now }
    {
        !labelled && may_follow(self.last, item) && self.may_end() && self.tables.has_room(item)
    }

    #[tactic(auto, unfolding(crate::specs::Lines::item_in))]
    fn item(
        &mut self,
        alloc: Global,
        at: u32,
        labelled: bool,
        item: ItemKind,
        fields: &mut Fields<'a, '_>,
    ) -> Result<(), AsmFault>
        ensures { MakesDraft result self.new fields.new (item_in at labelled item self.old fields.old) }
    {
        if !self.may_stand(labelled, item) {
            return Err(AsmFault::Section(at));
        }
        self.last = Some(item);
        self.operands(alloc, at, item, fields)?;
        fields.end()
    }

    #[tactic(auto, unfolding(crate::specs::Lines::directive_in))]
    fn directive(
        &mut self,
        alloc: Global,
        labelled: bool,
        fields: &mut Fields<'a, '_>,
    ) -> Result<(), AsmFault>
        ensures { MakesDraft result self.new fields.new (directive_in labelled self.old fields.old) }
    {
        let at = fields.place();
        match directive_from(at, fields)? {
            Directive::Word(kind) => self.word(at, kind, fields),
            Directive::Of(item) => self.item(alloc, at, labelled, item, fields),
        }
    }

    #[tactic(auto, unfolding(crate::specs::Lines::behind_label))]
    fn behind_label(
        &mut self,
        alloc: Global,
        labelled: bool,
        fields: &mut Fields<'a, '_>,
    ) -> Result<(), AsmFault>
        ensures { MakesDraft result self.new fields.new (behind_label labelled self.old fields.old) }
    {
        if fields.is_name() {
            self.instr(fields)
        } else {
            self.directive(alloc, labelled, fields)
        }
    }

    // Takes a line that isn't empty.
    #[tactic(auto, unfolding(crate::specs::Lines::line_in))]
    pub(crate) fn line(
        &mut self,
        alloc: Global,
        fields: &mut Fields<'a, '_>,
    ) -> Result<(), AsmFault>
        ensures { MakesDraft result self.new fields.new (line_in self.old fields.old) }
    {
        let labelled = fields.is_labelled();
        self.label_if(labelled, fields)?;
        self.behind_label(alloc, labelled, fields)
    }

    // Whether the text may end here: after its data.
    pub(crate) fn may_be_whole(&self) -> bool
        ensures { result ≡ (reaches_data self.now.last && may_end self.now) }
    {
        reaches_data(self.last) && self.may_end()
    }
}

// Puts what was read into its place.
fn put<T: Drop>(place: &mut T, read: Result<T, AsmFault>) -> Result<(), AsmFault>
    ensures { MatchResult read (λ x. (result ≡ Ok tt) × (place.new ≡ x)) (λ e. result ≡ Err e) }
{
    *place = read?;
    Ok(())
}

// The seals of return points.
fn seals(fields: &mut Fields<'_, '_>) -> Result<SealRange, AsmFault>
    ensures { GivesAs (λ s. record { base = s.base; count = s.count }) result fields.new
        (stretch_at fields.old) }
{
    let stretch = fields.stretch()?;
    Ok(SealRange::new(stretch.base, stretch.count))
}

// A name, in memory of its own.
fn name(alloc: Global, fields: &mut Fields<'_, '_>) -> Result<Items<u8>, AsmFault>
    ensures { AnswersAs is_refusal (λ t. (t, fields.new)) result (proper_name_at fields.old) }
{
    let text = fields.proper_name()?;
    Ok(Items::of(Vec::from_slice(alloc, text)?))
}

// A `.` and the name of a directive.
#[tactic(auto, unfolding(crate::specs::Lines::directive_from))]
fn directive_from(at: u32, fields: &mut Fields<'_, '_>) -> Result<Directive, AsmFault>
    ensures { Gives result fields.new (directive_from at fields.old) }
{
    if !fields.sign(b'.') {
        return Err(AsmFault::Unknown(at));
    }
    let name = fields.name_or(AsmFault::Unknown(at))?;
    Directive::of_name(name).ok_or(AsmFault::Unknown(at))
}
