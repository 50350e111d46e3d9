//! Writing a text line by line.
ghost use Rattle.std.specs.Prelude.{◌≡◌, ◌+◌, ◌<◌, length, min, OnOk, OnErr};
ghost use Rattle.std.specs.List.{position_or_len};
ghost use Rattle.text_scan.specs.Bytes.{is_newline};
ghost use Rattle.outside_io.specs.SinkSeen.{Adds, FailsToWrite};
ghost use Rattle.outside_io.specs.Writes.{Writes};
ghost use Rattle.lcm_cli.specs.Pieces.{cut_lines};

use outside_io::{Failed, Sink};

// How many bytes the first line has.
fn first_len(text: &[u8]) -> usize
    ensures { result ≡ position_or_len is_newline text.now }
{
    text.iter().take_while(|byte| **byte != b'\n').count()
}

// How many it has with its newline, where there is one.
fn piece_len(text: &[u8]) -> usize
    ensures { result ≡ min (position_or_len is_newline text.now + 1) (length text.now) }
{
    let len = first_len(text);
    if len < text.len() {
        len + 1
    } else {
        text.len()
    }
}

/// Writes a text, one write a line, each with its newline.
pub(crate) fn write_lines<S: Sink>(out: &mut S, text: &[u8]) -> Result<(), Failed>
    ensures ok { OnOk result (Adds (S.seen out.old) text.now (S.seen out.new)) }
    ensures err { OnErr result (FailsToWrite (S.seen out.old) text.now (S.seen out.new)) }
    ensures pieces { Writes (S.seen out.old) (cut_lines text.now) result (S.seen out.new) }
{
    let mut rest = text;
    while !rest.is_empty() {
        let (line, behind) = rest.split_at(piece_len(rest));
        out.write(line)?;
        rest = behind;
    }
    Ok(())
}
