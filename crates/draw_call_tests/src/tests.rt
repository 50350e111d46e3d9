//! Calls of `draw_main` over files and sinks in memory, each with its status and what it leaves.
use draw_call::{DrawStatus, draw_main};
use outside_io::{MemFiles, MemSink, read_whole};
use std::alloc::{AllocError, Global};
use std::process::Abort;
use std::test::Fail;

// A text in which a call is closed.
const KEPT: &str =
    "call out one 0 8 9 0 0 0 0 : 1 2\nret out one 0 8 9 0 : 1 2\nhalted 0 steps 9\n";

// The front of what is put.
const FRONT: &str = "<svg xmlns=\"http://www.w3.org/2000/svg\" width=\"";

// The most bytes, and the most lines.
const MOST_BYTES: usize = 4_194_304;

const MOST_LINES: usize = 16_384;

// The words of a call, its status, what it writes, and whether a picture is put.
type Case<'a> = (&'a str, DrawStatus, &'a str, bool);

static CASES: [Case<'static>; 24] = [
    ("--feed kept --out o", DrawStatus::Done, "ok\n", true),
    ("--out o --feed kept", DrawStatus::Done, "ok\n", true),
    ("--feed=kept --out=o", DrawStatus::Done, "ok\n", true),
    ("--feed end --out o", DrawStatus::Done, "ok\n", true),
    ("--feed lines --out o", DrawStatus::Done, "ok\n", true),
    ("", DrawStatus::Usage, "usage\n", false),
    ("--feed kept", DrawStatus::Usage, "usage\n", false),
    ("--out o", DrawStatus::Usage, "usage\n", false),
    ("--feed kept --out", DrawStatus::Usage, "usage\n", false),
    ("--feed kept --out o p", DrawStatus::Usage, "usage\n", false),
    (
        "--feed kept --out o --out p",
        DrawStatus::Usage,
        "usage\n",
        false,
    ),
    (
        "--feed kept --out o --steps 1",
        DrawStatus::Usage,
        "usage\n",
        false,
    ),
    ("--feed kept --out=", DrawStatus::Usage, "usage\n", false),
    ("--feed kept --out=-o", DrawStatus::Usage, "usage\n", false),
    ("--feed none --out", DrawStatus::Usage, "usage\n", false),
    (
        "--feed none --out o",
        DrawStatus::ReadFault,
        "read fault\n",
        false,
    ),
    (
        "--feed long --out o",
        DrawStatus::TooLong,
        "too long 0\n",
        false,
    ),
    (
        "--feed full --out o",
        DrawStatus::AuditRefused,
        "audit 1 1\n",
        false,
    ),
    (
        "--feed more --out o",
        DrawStatus::TooLong,
        "too long 0\n",
        false,
    ),
    (
        "--feed empty --out o",
        DrawStatus::AuditRefused,
        "audit 1 1\n",
        false,
    ),
    (
        "--feed wide --out o",
        DrawStatus::AuditRefused,
        "audit 2 1\n",
        false,
    ),
    (
        "--feed above --out o",
        DrawStatus::AuditRefused,
        "audit 3 2\n",
        false,
    ),
    (
        "--feed unopened --out o",
        DrawStatus::AuditRefused,
        "audit 4 1\n",
        false,
    ),
    (
        "--feed other --out o",
        DrawStatus::AuditRefused,
        "audit 5 2\n",
        false,
    ),
];

static TEXTS: [(&str, &str); 7] = [
    ("kept", KEPT),
    ("end", "halted 0 steps 9\n"),
    ("empty", ""),
    ("wide", "call out one 0 8 9 0 0 0 0 : 1\nhalted 0 steps 9\n"),
    (
        "above",
        "call out one 0 8 9 0 0 0 0 : 1 2\ncall out one 0 9 9 0 0 0 0 : 1\nhalted 0 steps 9\n",
    ),
    ("unopened", "ret out one 0 8 9 0 : 1 2\nhalted 0 steps 9\n"),
    (
        "other",
        "call out one 0 8 9 0 0 0 0 : 1 2\nret out one 0 8 9 0 : 1 3\nhalted 0 steps 9\n",
    ),
];

// So many lines, the last of which is an end line.
fn lines(alloc: Global, count: usize) -> Result<String, AllocError> {
    let mut text = String::new(alloc);
    for _ in 1..count {
        text.push_str("leave a 0\n")?;
    }
    text.push_str("halted 0 steps 9\n")?;
    Ok(text)
}

fn add_long(alloc: Global, files: &mut MemFiles) -> Result<(), AllocError> {
    files.add("full", &vec![in alloc; b'x'; MOST_BYTES]?)?;
    files.add("long", &vec![in alloc; b'x'; MOST_BYTES + 1]?)?;
    files.add("lines", lines(alloc, MOST_LINES)?.as_bytes())?;
    files.add("more", lines(alloc, MOST_LINES + 1)?.as_bytes())
}

fn words_of(alloc: Global, line: &str) -> Result<Vec<String>, AllocError> {
    let mut words = Vec::new(alloc);
    for word in line.split_whitespace() {
        words.push(String::from_str(alloc, word)?)?;
    }
    Ok(words)
}

// Whether a picture stands in the file of `--out`, which else has its old content.
fn is_put(rt: &impl Abort, alloc: Global, files: &mut MemFiles) -> Result<bool, Fail> {
    let bytes = read_whole(alloc, files, "o", 40_000_000)?;
    let put = bytes.starts_with(FRONT.as_bytes());
    assert!(rt; put || bytes.as_slice() == b"old".as_slice());
    Ok(put)
}

// A call over these files, of which the call of this number fails, and a sink whose write of this number
// fails.
fn is_told(
    rt: &impl Abort,
    alloc: Global,
    files: &mut MemFiles,
    unwritten: u32,
    case: Case<'_>,
) -> Result<(), Fail> {
    let (line, status, text, put) = case;
    let words = words_of(alloc, line)?;
    let mut out = MemSink::new(alloc)?;
    out.fail_at(unwritten);
    let got = draw_main(alloc, &words, files, &mut out);
    assert_eq!(rt; got, status, "{line}");
    assert_eq!(rt; out.bytes(), text.as_bytes(), "{line}");
    assert_eq!(rt; is_put(rt, alloc, files)?, put, "{line}");
    Ok(files.add("o", b"old")?)
}

fn files(alloc: Global) -> Result<MemFiles, AllocError> {
    let mut files = MemFiles::new(alloc)?;
    for (name, text) in &TEXTS {
        files.add(name, text.as_bytes())?;
    }
    files.add("o", b"old")?;
    Ok(files)
}

#[test]
fn calls_come_to_what_the_table_says(rt: HostRuntime) -> Result<(), Fail> {
    let mut files = files(rt.alloc())?;
    add_long(rt.alloc(), &mut files)?;
    for case in &CASES {
        is_told(&rt, rt.alloc(), &mut files, 0, *case)?;
    }
    Ok(())
}

// The first write of a call is its last: `ok`, after the put, or the line of a refusal.
static UNWRITTEN: [Case<'static>; 4] = [
    ("--feed kept --out o", DrawStatus::WriteFault, "", true),
    ("--feed kept", DrawStatus::WriteFault, "", false),
    ("--feed none --out o", DrawStatus::WriteFault, "", false),
    ("--feed other --out o", DrawStatus::WriteFault, "", false),
];

#[test]
fn a_sink_that_fails_is_a_write_fault(rt: HostRuntime) -> Result<(), Fail> {
    let mut files = files(rt.alloc())?;
    for case in &UNWRITTEN {
        is_told(&rt, rt.alloc(), &mut files, 1, *case)?;
    }
    is_told(
        &rt,
        rt.alloc(),
        &mut files,
        2,
        ("--feed kept --out o", DrawStatus::Done, "ok\n", true),
    )
}

// A call reads, reads the end, and puts.
#[test]
fn reads_and_puts_that_fail_are_told(rt: HostRuntime) -> Result<(), Fail> {
    let unread = (
        "--feed kept --out o",
        DrawStatus::ReadFault,
        "read fault\n",
        false,
    );
    let unput = ("--feed kept --out o", DrawStatus::WriteFault, "", false);
    for (call, case) in [(1, unread), (2, unread), (3, unput)] {
        let mut files = files(rt.alloc())?;
        files.fail_at(call);
        is_told(&rt, rt.alloc(), &mut files, 0, case)?;
    }
    Ok(())
}
