//! Files in memory and of the system, sinks, and both over reserved memory.
ghost use Rattle.outside_io.specs.FilesSeen.{IsFileName};

use arrayvec::ArrayVec;
use outside_io::{
    Failed, Files, HostFiles, HostSink, LONGEST_NAME, MemFiles, MemSink, ReadEnd, SafeFiles,
    SafeSink, Sink, read_whole,
};
use std::alloc::{AllocError, AllocGlobal, Global};
use std::cell::RefCell;
use std::fmt::Display;
use std::process::Abort;
use std::test::Fail;
use std::{env, fs, io, rt};

fn add_two(files: &mut MemFiles) -> Result<(), AllocError> {
    files.add("a", b"old")?;
    files.add("b", b"other")?;
    files.add("a", b"hello")
}

fn are_given(rt: &impl Abort, alloc: Global, files: &mut MemFiles) -> Result<(), Fail> {
    add_two(files)?;
    files.put("a", b"new")?;
    let a = read_whole(alloc, files, "a", 5)?;
    assert_eq!(rt; a.as_slice(), b"new".as_slice());
    let b = read_whole(alloc, files, "b", 5)?;
    assert_eq!(rt; b.as_slice(), b"other".as_slice());
    Ok(())
}

#[test]
fn files_in_memory_give_what_was_added(rt: HostRuntime) -> Result<(), Fail> {
    let mut files = MemFiles::new(rt.alloc())?;
    are_given(&rt, rt.alloc(), &mut files)
}

fn second_call_fails(rt: &impl Abort, files: &mut MemFiles) -> Result<(), AllocError> {
    files.add("a", b"x")?;
    files.fail_at(1);
    files.fail_at(2);
    let mut buf = [0; 4];
    let calls = (
        files.read("a", 0, &mut buf),
        files.put("b", b"y"),
        files.put("b", b"y"),
    );
    assert!(rt; matches!(calls, (Ok(1), Err(Failed), Ok(()))));
    let counts = files.counts();
    assert_eq!(rt;
        (counts.reads(), counts.puts(), counts.failed_puts()),
        (1, 2, 1)
    );
    assert_eq!(rt; counts.last_failed_put(), "b");
    Ok(())
}

#[test]
fn the_set_call_fails_once(rt: HostRuntime) -> Result<(), Fail> {
    let mut files = MemFiles::new(rt.alloc())?;
    Ok(second_call_fails(&rt, &mut files)?)
}

fn second_write_fails(rt: &impl Abort, sink: &mut MemSink) {
    sink.fail_at(2);
    let writes = (sink.write(b"ab"), sink.write(b"z"), sink.write(b"c"));
    assert!(rt; matches!(writes, (Ok(()), Err(Failed), Ok(()))));
    assert_eq!(rt; sink.bytes(), b"abc".as_slice());
    assert_eq!(rt; (sink.writes(), sink.faults()), (3, 1));
}

#[test]
fn the_set_write_fails_once(rt: HostRuntime) -> Result<(), Fail> {
    let mut sink = MemSink::new(rt.alloc())?;
    second_write_fails(&rt, &mut sink);
    Ok(())
}

// How long the file of so many bytes comes out of a read of at most `limit`, and by how many reads.
fn length_read(
    alloc: Global,
    len: usize,
    limit: u32,
) -> Result<(Result<usize, ReadEnd>, u64), AllocError> {
    let mut files = MemFiles::new(alloc)?;
    files.add("a", vec![in alloc; 7; len]?.as_slice())?;
    let length = match read_whole(alloc, &mut files, "a", limit) {
        Ok(bytes) => Ok(bytes.len()),
        Err(end) => Err(end),
    };
    Ok((length, files.counts().reads()))
}

fn length_reserved(rt: &impl Abort, alloc: Global) -> Result<usize, Fail> {
    let mut files = SafeFiles::reserve(alloc, 1, 6)?;
    assert!(rt; files.add("a", b"hello"));
    Ok(read_whole(alloc, &mut files, "a", 5)?.len())
}

#[test]
fn a_whole_file_is_read_up_to_the_limit(rt: HostRuntime) -> Result<(), Fail> {
    let alloc = rt.alloc();
    assert!(rt; matches!(length_read(alloc, 0, 0)?, (Ok(0), 1)));
    assert!(rt; matches!(length_read(alloc, 1, 0)?, (Err(ReadEnd::TooLong), 1)));
    assert!(rt; matches!(length_read(alloc, 40_000, 40_000)?, (Ok(40_000), 4)));
    assert!(rt;
        matches!(
            length_read(alloc, 40_000, 39_999)?,
            (Err(ReadEnd::TooLong), 3)
        )
    );
    assert_eq!(rt; length_reserved(&rt, alloc)?, 5);
    Ok(())
}

fn keeps_put<R: Abort + AllocGlobal + rt::Files>(
    rt: &R,
    files: &mut HostFiles<&R>,
    path: &str,
    bytes: &[u8],
) -> Result<(), Fail>
    requires { IsFileName path.now }
{
    files.put(path, bytes)?;
    let left = fs::read(rt, path)?;
    assert_eq!(rt; left.as_slice(), bytes);
    Ok(())
}

// So many bytes, of which those of two pieces differ that a reader takes.
fn differing(alloc: Global, len: u32) -> Result<Vec<u8>, AllocError> {
    let mut bytes = Vec::new(alloc);
    for place in 0..len {
        bytes.push((place % 251) as u8)?;
    }
    Ok(bytes)
}

// A file of five pieces, whose length 16 bits don't tell.
fn keeps_much<R: Abort + AllocGlobal + rt::Files>(rt: &R, path: &str) -> Result<(), Fail>
    requires { IsFileName path.now }
{
    let mut files = HostFiles::new(rt);
    let bytes = differing(rt.alloc(), 70_000)?;
    keeps_put(rt, &mut files, path, bytes.as_slice())?;
    let whole = read_whole(rt.alloc(), &mut files, path, 70_000)?;
    assert_eq!(rt; whole.as_slice(), bytes.as_slice());
    Ok(())
}

fn gives_what_was_put<R: Abort + rt::Files>(
    rt: &R,
    alloc: Global,
    files: &mut HostFiles<&R>,
    path: &str,
) -> Result<(), Fail>
    requires { IsFileName path.now }
{
    let mut buf = [0; 3];
    let count = files.read(path, 3, &mut buf)?;
    assert_eq!(rt; &buf[..count], b"lo".as_slice());
    let whole = read_whole(alloc, files, path, 5)?;
    assert_eq!(rt; whole.as_slice(), b"hello".as_slice());
    assert_eq!(rt; files.counts().reads(), 3);
    Ok(())
}

fn tells_what_is_gone<R: Abort + rt::Files>(
    rt: &R,
    alloc: Global,
    files: &mut HostFiles<&R>,
    path: &str,
)
    requires { IsFileName path.now }
{
    let end = read_whole(alloc, files, path, 5).err();
    assert!(rt; matches!(end, Some(ReadEnd::Fault)));
    assert_eq!(rt; files.counts().last_failed_read(), path);
    assert_eq!(rt; files.counts().reads(), 4);
}

fn are_kept<R: Abort + AllocGlobal + rt::Files>(rt: &R, path: &str) -> Result<(), Fail> {
    assert!(rt; !path.is_empty() && path.len() <= LONGEST_NAME);
    keeps_much(rt, path)?;
    let mut files = HostFiles::new(rt);
    keeps_put(rt, &mut files, path, b"longer than what follows")?;
    keeps_put(rt, &mut files, path, b"hello")?;
    keeps_put(rt, &mut files, path, b"")?;
    keeps_put(rt, &mut files, path, b"hello")?;
    gives_what_was_put(rt, rt.alloc(), &mut files, path)?;
    fs::remove_file(rt, path)?;
    tells_what_is_gone(rt, rt.alloc(), &mut files, path);
    Ok(())
}

#[test]
fn files_of_the_system_keep_what_was_put(rt: HostRuntime) -> Result<(), Fail> {
    let id = std::process::id(rt.process());
    let name = format!(in rt.alloc(); "outside_io_{id}")?;
    let path = env::temp_dir(&rt)?.join(rt.alloc(), name.as_str())?;
    are_kept(&rt, path.as_str())
}

// A standard output that has room for eight bytes.
#[derive(Drop)]
struct Paper {
    text: RefCell<ArrayVec<u8, 8>>,
}

impl Print for Paper {
    fn print<D: Display + Drop>(&self, _value: D) -> io::Result<()> {
        Err(io::Error::other("only bytes"))
    }

    fn println<D: Display + Drop>(&self, _value: D) -> io::Result<()> {
        Err(io::Error::other("only bytes"))
    }

    fn write_all(&self, bytes: &[u8]) -> io::Result<()> {
        let Ok(mut text) = self.text.try_borrow_mut() else {
            return Err(io::Error::other("in use"));
        };
        for byte in bytes {
            if text.try_push(*byte).is_err() {
                return Err(io::Error::other("full"));
            }
        }
        Ok(())
    }
}

fn holds(rt: &impl Abort, paper: &Paper, text: &str) -> Result<(), Fail> {
    let left = paper.text.try_borrow()?;
    assert_eq!(rt; left.as_slice(), text.as_bytes());
    Ok(())
}

fn takes_what_fits(
    rt: &impl Abort,
    sink: &mut HostSink<&Paper>,
    paper: &Paper,
) -> Result<(), Fail> {
    sink.write(b"abcde")?;
    holds(rt, paper, "abcde")?;
    sink.write(b"f")?;
    holds(rt, paper, "abcdef")?;
    assert!(rt; matches!(sink.write(b"ghi"), Err(Failed)));
    assert_eq!(rt; (sink.writes(), sink.faults()), (3, 1));
    holds(rt, paper, "abcdefgh")
}

#[test]
fn the_standard_output_gets_each_piece_whole(rt: HostRuntime) -> Result<(), Fail> {
    let paper = Paper {
        text: RefCell::new(ArrayVec::new()),
    };
    takes_what_fits(&rt, &mut HostSink::new(&paper), &paper)
}

#[test]
fn a_line_goes_to_the_standard_output(rt: HostRuntime) -> Result<(), Fail> {
    let mut sink = HostSink::new(&rt);
    sink.write(b"written\n")?;
    assert_eq!(rt; (sink.writes(), sink.faults()), (1, 0));
    Ok(())
}

#[test]
fn a_reserved_sink_takes_what_fits(rt: HostRuntime) -> Result<(), Fail> {
    let mut sink = SafeSink::<4>::reserve(rt.alloc())?;
    let writes = (sink.write(b"abc"), sink.write(b"de"));
    assert!(rt; matches!(writes, (Ok(()), Err(Failed))));
    assert_eq!(rt; sink.bytes(), b"abcd".as_slice());
    Ok(())
}
