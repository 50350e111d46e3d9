//! The tokens of texts, each with its place, which was worked out by hand. Faults of texts are in `rows`.
use std::alloc::Global;
use std::process::Abort;
use std::test::Fail;
use text_scan::ScanFault::{BadByte, LineTooLong, NoMemory, NumberTooLarge};
use text_scan::TokenKind::{Equal, Name, NewLine, Number, Sign};
use text_scan::{ScanFault, Token, TokenKind, scan};

// Pieces of a text, each some number of times over.
type Text = &'static [(usize, &'static [u8])];

// The tokens, each with its place and length.
type Tokens = &'static [(TokenKind, u32, u32)];

const TOKENS: &[(Text, Tokens)] = &[
    (&[], &[]),
    (&[(1, b"\n")], &[(NewLine, 0, 1)]),
    (&[(2, b"\n")], &[(NewLine, 0, 1), (NewLine, 1, 1)]),
    // Names, and a last line without a newline.
    (&[(1, b"add")], &[(Name, 0, 3)]),
    (&[(1, b"_a0z9_\n")], &[(Name, 0, 6), (NewLine, 6, 1)]),
    (
        &[(1, b"abcdefghijklmnopqrstuvwxyz_0123456789")],
        &[(Name, 0, 37)],
    ),
    // Numbers.
    (&[(1, b"0")], &[(Number(0), 0, 1)]),
    (&[(1, b"0012")], &[(Number(12), 0, 4)]),
    (&[(1, b"9876543210")], &[(Number(9_876_543_210), 0, 10)]),
    (
        &[(1, b"9223372036854775807")],
        &[(Number(9_223_372_036_854_775_807), 0, 19)],
    ),
    (
        &[(1, b"9223372036854775808")],
        &[(Number(9_223_372_036_854_775_808), 0, 19)],
    ),
    (
        &[(22, b"0"), (1, b"9223372036854775808")],
        &[(Number(9_223_372_036_854_775_808), 0, 41)],
    ),
    (&[(1, b"12ab3")], &[(Number(12), 0, 2), (Name, 2, 3)]),
    (&[(1, b"1_")], &[(Number(1), 0, 1), (Name, 1, 1)]),
    // Signs.
    (
        &[(1, b".,:;()[]{}=<+-/@%")],
        &[
            (Sign(b'.'), 0, 1),
            (Sign(b','), 1, 1),
            (Sign(b':'), 2, 1),
            (Sign(b';'), 3, 1),
            (Sign(b'('), 4, 1),
            (Sign(b')'), 5, 1),
            (Sign(b'['), 6, 1),
            (Sign(b']'), 7, 1),
            (Sign(b'{'), 8, 1),
            (Sign(b'}'), 9, 1),
            (Sign(b'='), 10, 1),
            (Sign(b'<'), 11, 1),
            (Sign(b'+'), 12, 1),
            (Sign(b'-'), 13, 1),
            (Sign(b'/'), 14, 1),
            (Sign(b'@'), 15, 1),
            (Sign(b'%'), 16, 1),
        ],
    ),
    (&[(1, b"==")], &[(Equal, 0, 2)]),
    (&[(1, b"===")], &[(Equal, 0, 2), (Sign(b'='), 2, 1)]),
    (&[(1, b"====")], &[(Equal, 0, 2), (Equal, 2, 2)]),
    (&[(1, b"= =")], &[(Sign(b'='), 0, 1), (Sign(b'='), 2, 1)]),
    (
        &[(1, b"=\n=")],
        &[(Sign(b'='), 0, 1), (NewLine, 1, 1), (Sign(b'='), 2, 1)],
    ),
    // Blanks and comments.
    (&[(1, b" \t\r a\t\n")], &[(Name, 4, 1), (NewLine, 6, 1)]),
    (&[(1, b"## a")], &[]),
    (
        &[(1, b"a#b\n#\x00\xff\x80\"A~\nc")],
        &[
            (Name, 0, 1),
            (NewLine, 3, 1),
            (NewLine, 11, 1),
            (Name, 12, 1),
        ],
    ),
    // Lines of a part.
    (
        &[(1, b"back: cca t1 @lit\r\n.int -5 # five")],
        &[
            (Name, 0, 4),
            (Sign(b':'), 4, 1),
            (Name, 6, 3),
            (Name, 10, 2),
            (Sign(b'@'), 13, 1),
            (Name, 14, 3),
            (NewLine, 18, 1),
            (Sign(b'.'), 19, 1),
            (Name, 20, 3),
            (Sign(b'-'), 24, 1),
            (Number(5), 25, 1),
        ],
    ),
    // Lines of 512 bytes.
    (&[(512, b"a")], &[(Name, 0, 512)]),
    (
        &[(512, b"a"), (1, b"\n"), (512, b" ")],
        &[(Name, 0, 512), (NewLine, 512, 1)],
    ),
    (&[(510, b" "), (1, b"==")], &[(Equal, 510, 2)]),
    (&[(1, b"#"), (511, b"\xff")], &[]),
];

// The tokens of a text that is written in pieces.
fn scanned(rt: &impl Abort, alloc: Global, text: Text) -> Result<Vec<Token>, ScanFault> {
    let mut bytes = Vec::new(alloc);
    for (times, piece) in text {
        for _ in 0..*times {
            bytes.extend_from_slice(piece)?;
        }
    }
    assert!(rt; bytes.len() < 10_000);
    scan(alloc, &bytes)
}

fn are_tokens(tokens: &[Token], wanted: &[(TokenKind, u32, u32)]) -> bool {
    tokens.len() == wanted.len()
        && tokens
            .iter()
            .zip(wanted)
            .all(|(token, what)| (token.kind, token.at, token.len) == *what)
}

fn has_tokens(
    rt: &impl Abort,
    alloc: Global,
    text: Text,
    wanted: Tokens,
) -> Result<bool, ScanFault> {
    let tokens = scanned(rt, alloc, text)?;
    Ok(are_tokens(&tokens, wanted))
}

#[test]
fn a_text_has_its_tokens(rt: HostRuntime) -> Result<(), Fail> {
    for (text, wanted) in TOKENS {
        assert!(&rt; has_tokens(&rt, rt.alloc(), text, wanted)?, "{text:?}");
    }
    Ok(())
}

// The bytes with which a piece of a line begins, and the newline.
const BEGINNINGS: &[u8] = b"\t\n\r #%()+,-./0123456789:;<=@[]_abcdefghijklmnopqrstuvwxyz{}";

#[test]
fn other_bytes_are_bad(rt: HostRuntime) -> Result<(), Fail> {
    for byte in 0..=u8::MAX {
        match scan(rt.alloc(), &[byte]) {
            Ok(_) => assert!(&rt; BEGINNINGS.contains(&byte), "{byte} is no bad byte"),
            Err(fault) => {
                assert!(&rt; !BEGINNINGS.contains(&byte), "{byte} is refused");
                assert!(&rt; matches!(fault, BadByte(0)));
            }
        }
    }
    Ok(())
}

#[test]
fn a_fault_tells_its_number_place_and_text(rt: HostRuntime) -> Result<(), Fail> {
    let faults = [
        (BadByte(7), 1, 7, "no token begins at byte 7"),
        (
            NumberTooLarge(8),
            2,
            8,
            "the number at byte 8 is above 2^63",
        ),
        (LineTooLong(9), 3, 9, "line 9 has more than 512 bytes"),
        (NoMemory, 4, 0, "out of memory"),
    ];
    for (fault, number, place, text) in faults {
        assert_eq!(&rt; fault.number(), number);
        assert_eq!(&rt; fault.place(), place);
        assert_eq!(&rt; format!(in rt.alloc(); "{fault}")?.as_str(), text);
    }
    Ok(())
}
