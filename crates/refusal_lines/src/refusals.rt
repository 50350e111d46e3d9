//! The line and the status of each refusal.
ghost use Rattle.std.specs.Prelude.{◌≡◌, ◌+◌, ◌≤◌, ◌<◌, ◌++◌, [], decimal};
ghost use Rattle.arrayvec.specs.ArrayString.{array_string_len};
ghost use Rattle.refusal_lines.specs.Refusals.{asm_number_text, assembly_text, file_text, rule_line};
ghost use Rattle.refusal_lines.specs.Refusals.{form_text};
ghost use Rattle.refusal_lines.specs.Refusals.{source_number_text, source_place, source_text};
ghost use Rattle.refusal_lines.specs.Refusals.{image_text, feed_text, script_text, audit_text, image_status};
ghost use Rattle.refusal_lines.specs.Refusals.{refusal_text, refusal_status};

use crate::status::Status;
use arrayvec::ArrayString;
use assembler::AsmFault;
use component_file::FileFault;
use file_plans::Refusal;
use image_loader::ImageFault;
use itoa::Buffer;
use linked_starts::RuleAt;
use proc_compiler::CompileFault;
use proc_grammar::ParseFault;
use proc_sources::SourceFault;
use run_audit::AuditFault;

fn push_number(line: &mut ArrayString<64>, number: u32)
    requires { array_string_len line.old ≤ 50 }
    ensures bytes { line.new.bytes ≡ line.old.bytes ++ decimal number }
    ensures len { array_string_len line.new ≤ array_string_len line.old + 10 }
{
    let mut digits = Buffer::new();
    line.push_str(digits.format(number));
}

// Appends the number of a fault of an assembler text, of a fault of its tokens after an `s`.
fn push_asm_number(line: &mut ArrayString<64>, fault: AsmFault)
    requires { array_string_len line.old ≤ 40 }
    ensures bytes { line.new.bytes ≡ line.old.bytes ++ asm_number_text fault }
    ensures len { array_string_len line.new ≤ array_string_len line.old + 11 }
{
    match fault {
        AsmFault::Scan(fault) => {
            line.push_str("s");
            push_number(line, u32::from(fault.number()));
        }
        other => push_number(line, u32::from(other.number())),
    }
}

fn push_file(line: &mut ArrayString<64>, part: u32, fault: FileFault)
    requires { line.old.bytes ≡ [] }
    ensures { line.new.bytes ≡ file_text part fault }
{
    line.push_str("file ");
    push_number(line, part);
    line.push_str(" ");
    push_number(line, u32::from(fault.number()));
    line.push_str(" ");
    push_number(line, fault.place());
    line.push_str("\n");
}

fn push_assembly(line: &mut ArrayString<64>, part: u32, fault: AsmFault)
    requires { line.old.bytes ≡ [] }
    ensures { line.new.bytes ≡ assembly_text part fault }
{
    line.push_str("asm ");
    push_number(line, part);
    line.push_str(" ");
    push_asm_number(line, fault);
    line.push_str(" ");
    push_number(line, fault.place());
    line.push_str("\n");
}

// Appends the number of a fault of a source, of a fault of its tokens after an `s`.
fn push_source_number(line: &mut ArrayString<64>, fault: SourceFault)
    requires { array_string_len line.old ≤ 40 }
    ensures bytes { line.new.bytes ≡ line.old.bytes ++ source_number_text fault }
    ensures len { array_string_len line.new ≤ array_string_len line.old + 11 }
{
    match fault {
        SourceFault::Text(ParseFault::Scan(fault)) => {
            line.push_str("s");
            push_number(line, u32::from(fault.number()));
        }
        SourceFault::Text(fault) => push_number(line, u32::from(fault.number())),
        SourceFault::Name(fault) => push_number(line, u32::from(fault.number())),
        SourceFault::Token(fault) => push_number(line, u32::from(fault.number())),
        SourceFault::Size(fault) => push_number(line, u32::from(fault.number())),
        SourceFault::NoMemory => push_number(line, u32::from(CompileFault::NoMemory.number())),
    }
}

// The place of a fault of a source. A module's size has none, nor has want of memory.
fn source_place(fault: SourceFault) -> u32
    ensures { result ≡ source_place fault }
{
    match fault {
        SourceFault::Text(fault) => fault.place(),
        SourceFault::Name(fault) => fault.place(),
        SourceFault::Token(fault) => fault.place(),
        SourceFault::Size(_) | SourceFault::NoMemory => 0,
    }
}

fn push_source(line: &mut ArrayString<64>, part: u32, fault: SourceFault)
    requires { line.old.bytes ≡ [] }
    ensures { line.new.bytes ≡ source_text part fault }
{
    line.push_str("source ");
    push_number(line, part);
    line.push_str(" ");
    push_source_number(line, fault);
    line.push_str(" ");
    push_number(line, source_place(fault));
    line.push_str("\n");
}

#[tactic(auto, unfolding(linked_starts::specs::FaultText::rule_at_text))]
fn push_rule(line: &mut ArrayString<64>, broken: RuleAt)
    requires { line.old.bytes ≡ [] }
    ensures { line.new.bytes ≡ rule_line broken }
{
    line.push_str("rule ");
    push_number(line, broken.part);
    line.push_str(" ");
    line.push_str(broken.rule.text().as_str());
    line.push_str(" ");
    push_number(line, broken.place);
    line.push_str("\n");
}

fn push_form(line: &mut ArrayString<64>, fault: ImageFault)
    requires { line.old.bytes ≡ [] }
    ensures { line.new.bytes ≡ form_text fault }
{
    line.push_str("image ");
    push_number(line, u32::from(fault.number()));
    line.push_str(" ");
    push_number(line, fault.place());
    line.push_str("\n");
}

// Appends what is told of an image that isn't loaded.
fn push_image(line: &mut ArrayString<64>, fault: ImageFault)
    requires { line.old.bytes ≡ [] }
    ensures { line.new.bytes ≡ image_text fault }
{
    match fault {
        ImageFault::File(part, fault) => push_file(line, part, fault),
        ImageFault::Rule(broken) => push_rule(line, broken),
        other => push_form(line, other),
    }
}

fn push_feed(line: &mut ArrayString<64>, number: u64)
    requires { line.old.bytes ≡ [] }
    ensures { line.new.bytes ≡ feed_text number }
{
    let mut digits = Buffer::new();
    line.push_str("feed ");
    line.push_str(digits.format(number));
    line.push_str("\n");
}

fn push_script(line: &mut ArrayString<64>, number: u32)
    requires { line.old.bytes ≡ [] }
    ensures { line.new.bytes ≡ script_text number }
{
    line.push_str("script ");
    push_number(line, number);
    line.push_str("\n");
}

fn push_audit(line: &mut ArrayString<64>, fault: AuditFault)
    requires { line.old.bytes ≡ [] }
    ensures { line.new.bytes ≡ audit_text fault }
{
    let mut digits = Buffer::new();
    line.push_str("audit ");
    push_number(line, u32::from(fault.number()));
    line.push_str(" ");
    line.push_str(digits.format(fault.line()));
    line.push_str("\n");
}

/// The line that a refusal writes, with its newline (`docs/COMMANDS.md`, 'What is refused').
pub fn refusal_line(why: Refusal) -> ArrayString<64>
    ensures text { result.bytes ≡ refusal_text why }
    ensures some { 0 < array_string_len result }
{
    let mut line = ArrayString::new();
    match why {
        Refusal::Usage => line.push_str("usage\n"),
        Refusal::ReadFault => line.push_str("read fault\n"),
        Refusal::TooLong(index) => {
            line.push_str("too long ");
            push_number(&mut line, index);
            line.push_str("\n");
        }
        Refusal::Assembly(part, fault) => push_assembly(&mut line, part, fault),
        Refusal::Source(part, fault) => push_source(&mut line, part, fault),
        Refusal::File(part, fault) => push_file(&mut line, part, fault),
        Refusal::Rule(broken) => push_rule(&mut line, broken),
        Refusal::Image(fault) => push_image(&mut line, fault),
        Refusal::Feed(number) => push_feed(&mut line, number),
        Refusal::Script(number) => push_script(&mut line, number),
        Refusal::Audit(fault) => push_audit(&mut line, fault),
    }
    line
}

fn image_status(fault: ImageFault) -> Status
    ensures { result ≡ image_status fault }
{
    match fault {
        ImageFault::Rule(_) => Status::RuleBroken,
        _ => Status::FileRefused,
    }
}

/// The status of a refusal: 10, 11, 14 to 18 or 20.
pub fn refusal_status(why: Refusal) -> Status
    ensures { result ≡ refusal_status why }
{
    match why {
        Refusal::Usage => Status::Usage,
        Refusal::ReadFault => Status::ReadFault,
        Refusal::TooLong(_) => Status::TooLong,
        Refusal::Assembly(_, _) => Status::AsmRefused,
        Refusal::Source(_, _) => Status::SourceRefused,
        Refusal::File(_, _) => Status::FileRefused,
        Refusal::Rule(_) => Status::RuleBroken,
        Refusal::Image(fault) => image_status(fault),
        Refusal::Feed(_) | Refusal::Script(_) => Status::FileRefused,
        Refusal::Audit(_) => Status::AuditRefused,
    }
}
