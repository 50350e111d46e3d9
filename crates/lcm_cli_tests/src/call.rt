//! Calls of the program, and the files that they read.
use lcm_cli::{Status, stk_main};
use lcm_machine::LcmState;
use outside_io::{MemFiles, MemSink, SafeSink};
use std::alloc::{AllocError, Global};
use std::process::Abort;

/// What a call came to: its status, what it wrote, and the count of the machine that it kept.
#[derive(Drop, PartialEq, Eq, Debug)]
pub(crate) struct Told {
    status: Status,
    pub(crate) text: String,
    count: Option<u64>,
}

pub(crate) fn expected(
    alloc: Global,
    status: Status,
    text: &str,
    count: Option<u64>,
) -> Result<Told, AllocError> {
    Ok(Told {
        status,
        text: String::from_str(alloc, text)?,
        count,
    })
}

// Each value that owns much goes to a function of its own: each way out of a function that has one is
// proved at length.
fn words_of(alloc: Global, line: &str) -> Result<Vec<String>, AllocError> {
    let mut words = Vec::new(alloc);
    for word in line.split_whitespace() {
        words.push(String::from_str(alloc, word)?)?;
    }
    Ok(words)
}

fn stk(
    alloc: Global,
    words: &Vec<String>,
    files: &mut MemFiles,
    out: &mut MemSink,
) -> (Status, Option<u64>) {
    let mut kept: Option<LcmState> = None;
    let status = stk_main(alloc, words, files, out, &mut kept);
    (status, kept.as_ref().map(|machine| machine.count()))
}

fn status_of(
    alloc: Global,
    words: &Vec<String>,
    files: &mut MemFiles,
    kept: &mut Option<LcmState>,
) -> Result<Status, AllocError> {
    let mut out = MemSink::new(alloc)?;
    Ok(stk_main(alloc, words, files, &mut out, kept))
}

/// The status of the call with the words of a line, which finds this machine kept, or leaves one there.
pub(crate) fn status_with(
    alloc: Global,
    line: &str,
    files: &mut MemFiles,
    kept: &mut Option<LcmState>,
) -> Result<Status, AllocError> {
    let words = words_of(alloc, line)?;
    status_of(alloc, &words, files, kept)
}

/// The status of the call with the words of a line, over an empty sink of so many reserved bytes.
pub(crate) fn status_over<const ROOM: usize>(
    alloc: Global,
    line: &str,
    files: &mut MemFiles,
) -> Result<Status, AllocError> {
    let words = words_of(alloc, line)?;
    let mut out = SafeSink::<ROOM>::reserve(alloc)?;
    let mut kept: Option<LcmState> = None;
    Ok(stk_main(alloc, &words, files, &mut out, &mut kept))
}

/// Calls the program with the words of a line, which are parted by blanks.
pub(crate) fn call(
    alloc: Global,
    line: &str,
    files: &mut MemFiles,
    out: &mut MemSink,
) -> Result<Told, AllocError> {
    let words = words_of(alloc, line)?;
    let (status, count) = stk(alloc, &words, files, out);
    Ok(Told {
        status,
        text: String::from_utf8_lossy(alloc, out.bytes())?,
        count,
    })
}

/// Calls the program over these files and an empty sink.
pub(crate) fn run(alloc: Global, line: &str, files: &mut MemFiles) -> Result<Told, AllocError> {
    let mut out = MemSink::new(alloc)?;
    call(alloc, line, files, &mut out)
}

/// A line of words, and what its call is to come to: the status, the text, and the machine's count.
pub(crate) type Case<'a> = (&'a str, Status, &'a str, Option<u64>);

/// The call of a case over these files comes to what is told.
pub(crate) fn is_told(
    rt: &impl Abort,
    alloc: Global,
    files: &mut MemFiles,
    case: Case<'_>,
) -> Result<(), AllocError> {
    let (line, status, text, count) = case;
    let got = run(alloc, line, files)?;
    assert_eq!(rt; got, expected(alloc, status, text, count)?, "{line}");
    Ok(())
}

/// The calls of some cases, one after the other.
pub(crate) fn are_told(
    rt: &impl Abort,
    alloc: Global,
    files: &mut MemFiles,
    cases: &[Case<'_>],
) -> Result<(), AllocError> {
    for case in cases {
        is_told(rt, alloc, files, *case)?;
    }
    Ok(())
}

/// The call of a case over a sink whose write of this number fails.
pub(crate) fn is_told_unwritten(
    rt: &impl Abort,
    alloc: Global,
    files: &mut MemFiles,
    unwritten: u32,
    case: Case<'_>,
) -> Result<(), AllocError> {
    let (line, status, text, count) = case;
    let mut out = MemSink::new(alloc)?;
    out.fail_at(unwritten);
    let got = call(alloc, line, files, &mut out)?;
    assert_eq!(rt;
        got,
        expected(alloc, status, text, count)?,
        "{line} {unwritten}"
    );
    Ok(())
}

const ONE_TEXT: &str = "\
.name one
.stack 65536
.closure 1
.code 100
halt
.data 200
.int 0
.export main 0 shared
";

/// A part of one instruction, `halt`, and one data word, 0.
#[derive(Clone, Copy)]
pub(crate) struct Small {
    name: &'static str,
    closure: u32,
    code_base: u32,
    data_base: u32,
    /// Whether it has the one shared export, `main`.
    has_main: bool,
}

/// The part `one`: closure seal 1, code at 100 and data at 200.
pub(crate) const ONE: Small = Small {
    name: "one",
    closure: 1,
    code_base: 100,
    data_base: 200,
    has_main: true,
};

/// The part `two`, which has no export and stands well beside it.
const TWO: Small = Small {
    name: "two",
    closure: 2,
    code_base: 102,
    data_base: 300,
    has_main: false,
};

fn push_number(bytes: &mut Vec<u8>, number: u32) -> Result<(), AllocError> {
    bytes.extend_from_slice(&number.to_le_bytes())
}

// A base, and one word, an integer.
fn push_word(bytes: &mut Vec<u8>, base: u32, word: i64) -> Result<(), AllocError> {
    push_number(bytes, base)?;
    push_number(bytes, 1)?;
    bytes.push(0)?;
    bytes.extend_from_slice(&word.to_le_bytes())
}

/// The bytes of a part's component file, by the table of docs/FORMATS.md. The stack begins at 65536,
/// and there are no seals, no linear area, no imports, no sites and no rows.
pub(crate) fn component(alloc: Global, part: &Small) -> Result<Vec<u8>, AllocError> {
    let mut bytes = Vec::from_slice(alloc, b"STKC\x01\0")?;
    bytes.push((part.name.len() % 256) as u8)?;
    bytes.extend_from_slice(part.name.as_bytes())?;
    push_number(&mut bytes, 65_536)?;
    push_number(&mut bytes, part.closure)?;
    bytes.extend_from_slice(&[0; 16])?;
    push_word(&mut bytes, part.code_base, 1)?;
    push_word(&mut bytes, part.data_base, 0)?;
    if part.has_main {
        bytes.extend_from_slice(b"\0\0\x01\0\x04main\0\0\0\0\x01")?;
    } else {
        bytes.extend_from_slice(b"\0\0\0\0")?;
    }
    bytes.extend_from_slice(&[0; 8])?;
    Ok(bytes)
}

fn add_parts(alloc: Global, files: &mut MemFiles) -> Result<(), AllocError> {
    for (name, part) in [("one.stc", ONE), ("two.stc", TWO)] {
        files.add(name, component(alloc, &part)?.as_slice())?;
    }
    Ok(())
}

fn add_texts(files: &mut MemFiles) -> Result<(), AllocError> {
    files.add("one.asm", ONE_TEXT.as_bytes())?;
    files.add("empty.stc", b"")
}

/// The files that most calls are made over: `one.asm` and `one.stc`, `two.stc`, and `empty.stc` of no bytes.
pub(crate) fn files(alloc: Global) -> Result<MemFiles, AllocError> {
    let mut files = MemFiles::new(alloc)?;
    add_texts(&mut files)?;
    add_parts(alloc, &mut files)?;
    Ok(files)
}
