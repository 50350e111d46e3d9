//! Parts that tests work with, as assembler texts: the sequences of the calling convention for a stack from
//! 65,536 on, pieces that texts are made of, and two parts.
#![tactic(auto)]

ghost use Rattle.std.specs.Prelude.{◌≡◌, ◌++◌, OnOk, IfOk, codes, string_bytes};
ghost use Rattle.worked_parts.specs.Pieces.{site_text, piece_text, pieces_text};

use std::alloc::{AllocError, Global};

/// An entry. The part's instruction `fail` is at the label `stop`.
pub const ENTRY: &str = "\
move t2 pc
cca t2 @stop
gettype t1 stk
minus t1 t1 1
jnz t2 t1
getlin t1 stk
minus t1 t1 1
jnz t2 t1
getp t1 stk
minus t1 t1 2
jnz t2 t1
getb t1 stk
minus t1 t1 65536
jnz t2 t1
seta2b stk
gete t1 stk
minus t1 t1 65536
cca stk t1
move t1 0
move t2 0
";

/// A call up to the index of its site. The part's return seals are at the label `lit`.
pub const CALL: &str = "\
store stk data
move t1 pc
cca t1 @lit
load t2 t1
cca t2 ";

/// A call from the index of its site on.
pub const CALL_ON: &str = "
geta t1 stk
minus t1 t1 1
split stk rdata stk t1
cca stk -1
cseal rdata t2
move rcode pc
cca rcode 6
cseal rcode t2
move t1 0
move t2 0
xjmp c1 c2
";

/// The return that stands after a call. The part's instruction `fail` is at the label `stop`.
pub const RETURN: &str = "\
splice stk stk data
getb t1 stk
minus t1 t1 65536
move t2 pc
cca t2 @stop
jnz t2 t1
load data stk
move t1 0
store stk t1
move t2 0
";

/// A piece of a part's text.
#[derive(Clone, Copy)]
pub enum Piece {
    /// Lines, each with its newline.
    Lines(&'static str),
    /// An entry, with its label.
    Entry(&'static str),
    /// A call and its return, with the label of the call and the index of its site.
    Site(&'static str, &'static str),
}

/// A trusted part: `main` at 2, and a call at 25 of what it imports. Code from 4,096 on, data from 8,192 on.
pub static CALLER: [Piece; 5] = [
    Piece::Lines(
        ".name t\n.stack 65536\n.closure 10\n.seals 11 1\n.code 4096\nstop: fail\nlit: .seal 11 11 11\n",
    ),
    Piece::Entry("main"),
    Piece::Lines("load c1 data\ncca data 1\nload c2 data\n"),
    Piece::Site("one", "0"),
    Piece::Lines(
        "halt\n.data 8192\n.int 0\n.int 0\n.import adv go 0\n.export main main shared\n.site one\n\
         .fail stop\n.literal lit\n",
    ),
];

/// What it calls, which goes right back. Code at 12,288, data at 16,384.
pub const BACK: &str = "\
.name adv
.stack 65536
.closure 20
.code 12288
xjmp rcode rdata
.data 16384
.int 0
.export go 0 shared
";

// Appends a label, a colon and a blank.
fn push_label(text: &mut String, label: &str) -> Result<(), AllocError>
    ensures { OnOk result (string_bytes text.new ≡ string_bytes text.old ++ (label.now ++ codes ": ")) }
{
    text.push_str(label)?;
    text.push_str(": ")
}

// Appends the words of a site of this index.
fn push_site(text: &mut String, index: &str) -> Result<(), AllocError>
    ensures { OnOk result (string_bytes text.new ≡ string_bytes text.old ++ site_text index.now) }
{
    text.push_str(CALL)?;
    text.push_str(index)?;
    text.push_str(CALL_ON)?;
    text.push_str(RETURN)
}

fn push_piece(text: &mut String, piece: Piece) -> Result<(), AllocError>
    ensures { OnOk result (string_bytes text.new ≡ string_bytes text.old ++ piece_text piece) }
{
    match piece {
        Piece::Lines(lines) => text.push_str(lines),
        Piece::Entry(label) => {
            push_label(text, label)?;
            text.push_str(ENTRY)
        }
        Piece::Site(label, index) => {
            push_label(text, label)?;
            push_site(text, index)
        }
    }
}

/// The text of some pieces, one after the other; an error is refused memory.
pub fn text(alloc: Global, pieces: &[Piece]) -> Result<String, AllocError>
    ensures { IfOk result (λ t. string_bytes t ≡ pieces_text pieces.now) }
{
    let mut whole = String::new(alloc);
    for piece in pieces {
        push_piece(&mut whole, *piece)?;
    }
    Ok(whole)
}
