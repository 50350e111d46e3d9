//! What no clause says of words as bytes: that the definitions mean what they should. Every byte
//! and every place here was worked out by hand.
use cap_words::FieldFault::{BadField, Short};
use cap_words::{
    Cap, Cursor, FieldFault, Items, Lin, Perm, SealCap, SealRange, Sealable, Word, push_u16,
    push_u32, push_word, read_word, word_bytes, word_text,
};
use std::alloc::{AllocError, Global};
use std::process::Abort;
use std::test::Fail;

// Words of each shape, with each permission, both linearities and the limits, and their bytes.
fn spelled() -> [(Word, &'static [u8]); 16] {
    [
        (Word::Int(5), &[0, 5, 0, 0, 0, 0, 0, 0, 0]),
        (Word::Int(0), &[0, 0, 0, 0, 0, 0, 0, 0, 0]),
        (Word::Int(-1), &[0, 255, 255, 255, 255, 255, 255, 255, 255]),
        (Word::Int(i64::MIN), &[0, 0, 0, 0, 0, 0, 0, 0, 128]),
        (
            Word::Int(i64::MAX),
            &[0, 255, 255, 255, 255, 255, 255, 255, 127],
        ),
        (
            Word::Int(0x0807_0605_0403_0201),
            &[0, 1, 2, 3, 4, 5, 6, 7, 8],
        ),
        (
            Word::Mem(Cap::new(Perm::No, Lin::Normal, 0, 0, 0)),
            &[1, 0, 0, 0, 0, 0, 0, 0, 0, 0, 0, 0, 0, 0, 0, 0, 0, 0, 0],
        ),
        (
            Word::Mem(Cap::new(Perm::R, Lin::Linear, 16, 31, -7)),
            &[
                1, 1, 1, 16, 0, 0, 0, 31, 0, 0, 0, 249, 255, 255, 255, 255, 255, 255, 255,
            ],
        ),
        (
            Word::Mem(Cap::new(Perm::Rw, Lin::Normal, 5, 1048575, 6)),
            &[1, 2, 0, 5, 0, 0, 0, 255, 255, 15, 0, 6, 0, 0, 0, 0, 0, 0, 0],
        ),
        (
            Word::Mem(Cap::new(Perm::Rx, Lin::Linear, 0x100, 0x10203, 0x100)),
            &[1, 3, 1, 0, 1, 0, 0, 3, 2, 1, 0, 0, 1, 0, 0, 0, 0, 0, 0],
        ),
        (
            Word::Mem(Cap::new(Perm::Rwx, Lin::Linear, 1048575, 1048575, i64::MIN)),
            &[
                1, 4, 1, 255, 255, 15, 0, 255, 255, 15, 0, 0, 0, 0, 0, 0, 0, 0, 128,
            ],
        ),
        (
            Word::Seal(SealCap::new(2, 9, 4)),
            &[2, 2, 0, 0, 0, 9, 0, 0, 0, 4, 0, 0, 0, 0, 0, 0, 0],
        ),
        (
            Word::Seal(SealCap::new(1048575, 1048575, -1)),
            &[
                2, 255, 255, 15, 0, 255, 255, 15, 0, 255, 255, 255, 255, 255, 255, 255, 255,
            ],
        ),
        (
            Word::Sealed(7, Sealable::Seal(SealCap::new(1, 2, 1))),
            &[
                3, 7, 0, 0, 0, 2, 1, 0, 0, 0, 2, 0, 0, 0, 1, 0, 0, 0, 0, 0, 0, 0,
            ],
        ),
        (
            Word::Sealed(
                1048575,
                Sealable::Mem(Cap::new(Perm::Rwx, Lin::Normal, 1, 2, 3)),
            ),
            &[
                3, 255, 255, 15, 0, 1, 4, 0, 1, 0, 0, 0, 2, 0, 0, 0, 3, 0, 0, 0, 0, 0, 0, 0,
            ],
        ),
        (
            Word::Sealed(
                0x10203,
                Sealable::Mem(Cap::new(Perm::No, Lin::Linear, 0, 1048575, -1)),
            ),
            &[
                3, 3, 2, 1, 0, 1, 0, 1, 0, 0, 0, 0, 255, 255, 15, 0, 255, 255, 255, 255, 255, 255,
                255, 255,
            ],
        ),
    ]
}

fn read(rt: &impl Abort, bytes: &[u8]) -> Option<(Word, usize)> {
    assert!(rt; bytes.len() < 100);
    read_word(bytes)
}

fn cursor<'a>(rt: &impl Abort, bytes: &'a [u8]) -> Cursor<'a> {
    assert!(rt; bytes.len() < 100);
    Cursor::of(bytes)
}

fn is_written(rt: &impl Abort, alloc: Global, word: &Word, bytes: &[u8]) -> Result<(), AllocError> {
    if let Word::Sealed(seal, _) = word {
        assert!(rt; *seal <= 1048575);
    }
    let written = word_bytes(alloc, word)?;
    assert_eq!(rt;
        written.as_slice(),
        bytes,
        "at {}",
        word_text(word).as_str()
    );
    Ok(())
}

fn is_read(rt: &impl Abort, word: &Word, bytes: &[u8], length: usize) {
    match read(rt, bytes) {
        Some((read, count)) => {
            assert_eq!(rt; word_text(&read).as_str(), word_text(word).as_str());
            assert_eq!(rt; count, length, "at {}", word_text(word).as_str());
        }
        None => assert!(rt; false, "{} is not read", word_text(word).as_str()),
    }
}

#[test]
fn each_word_has_its_bytes(rt: HostRuntime) -> Result<(), Fail> {
    for (word, bytes) in &spelled() {
        is_written(&rt, rt.alloc(), word, bytes)?;
        is_read(&rt, word, bytes, bytes.len());
        let longer = [*bytes, &[3, 255, 0]].concat(rt.alloc())?;
        is_read(&rt, word, longer.as_slice(), bytes.len());
    }
    Ok(())
}

#[test]
fn a_front_of_a_word_is_not_read(rt: HostRuntime) {
    for (word, bytes) in &spelled() {
        for len in 0..bytes.len() {
            assert!(rt;
                read(&rt, &bytes[..len]).is_none(),
                "{len} bytes of {}",
                word_text(word).as_str()
            );
        }
    }
}

// Bytes that are no word, and the fault of the first bad field.
static REFUSED: [(&[u8], FieldFault); 36] = [
    // Unknown tags.
    (&[4, 0, 0, 0, 0, 0, 0, 0, 0], BadField(0)),
    (&[255, 0, 0, 0, 0, 0, 0, 0, 0], BadField(0)),
    // Under a seal there is a capability, and no integer, sealed word or unknown tag.
    (&[3, 7, 0, 0, 0, 0, 5, 0, 0, 0, 0, 0, 0, 0], BadField(5)),
    (
        &[
            3, 7, 0, 0, 0, 3, 7, 0, 0, 0, 2, 1, 0, 0, 0, 2, 0, 0, 0, 1, 0, 0, 0, 0, 0, 0, 0,
        ],
        BadField(5),
    ),
    (
        &[
            3, 7, 0, 0, 0, 4, 1, 0, 0, 0, 2, 0, 0, 0, 1, 0, 0, 0, 0, 0, 0, 0,
        ],
        BadField(5),
    ),
    // Permission 5, linearity 2, base 1048576, end below the base, end 1048576.
    (
        &[1, 5, 0, 0, 0, 0, 0, 0, 0, 0, 0, 0, 0, 0, 0, 0, 0, 0, 0],
        BadField(1),
    ),
    (
        &[1, 0, 2, 0, 0, 0, 0, 0, 0, 0, 0, 0, 0, 0, 0, 0, 0, 0, 0],
        BadField(2),
    ),
    (
        &[1, 4, 1, 0, 0, 16, 0, 0, 0, 16, 0, 0, 0, 0, 0, 0, 0, 0, 0],
        BadField(3),
    ),
    (
        &[1, 4, 1, 6, 0, 0, 0, 5, 0, 0, 0, 0, 0, 0, 0, 0, 0, 0, 0],
        BadField(7),
    ),
    (
        &[1, 4, 1, 6, 0, 0, 0, 0, 0, 16, 0, 0, 0, 0, 0, 0, 0, 0, 0],
        BadField(7),
    ),
    // The same of a seal capability's base and end.
    (
        &[2, 0, 0, 16, 0, 0, 0, 16, 0, 0, 0, 0, 0, 0, 0, 0, 0],
        BadField(1),
    ),
    (
        &[2, 6, 0, 0, 0, 5, 0, 0, 0, 0, 0, 0, 0, 0, 0, 0, 0],
        BadField(5),
    ),
    (
        &[2, 6, 0, 0, 0, 0, 0, 16, 0, 0, 0, 0, 0, 0, 0, 0, 0],
        BadField(5),
    ),
    // Seal 1048576, and a bad field under a good seal.
    (
        &[
            3, 0, 0, 16, 0, 2, 1, 0, 0, 0, 2, 0, 0, 0, 1, 0, 0, 0, 0, 0, 0, 0,
        ],
        BadField(1),
    ),
    (
        &[
            3, 7, 0, 0, 0, 1, 5, 0, 0, 0, 0, 0, 0, 0, 0, 0, 0, 0, 0, 0, 0, 0, 0, 0,
        ],
        BadField(6),
    ),
    (
        &[
            3, 7, 0, 0, 0, 2, 2, 0, 0, 0, 1, 0, 0, 0, 1, 0, 0, 0, 0, 0, 0, 0,
        ],
        BadField(10),
    ),
    // The first fault counts: nothing follows the bad field, and a later one is bad too.
    (&[4], BadField(0)),
    (&[1, 5], BadField(1)),
    (&[1, 5, 2], BadField(1)),
    (&[2, 0, 0, 16, 0], BadField(1)),
    (&[3, 7, 0, 0, 0, 3], BadField(5)),
    // Nothing, and fields whose bytes aren't all there: of an integer,
    (&[], Short(0)),
    (&[0], Short(1)),
    (&[0, 5, 0, 0, 0, 0, 0, 0], Short(1)),
    // of a memory capability,
    (&[1], Short(1)),
    (&[1, 4], Short(2)),
    (&[1, 4, 1], Short(3)),
    (&[1, 4, 1, 0, 0, 16], Short(3)),
    (&[1, 4, 1, 6, 0, 0, 0, 5, 0, 0], Short(7)),
    (
        &[1, 4, 1, 6, 0, 0, 0, 6, 0, 0, 0, 1, 0, 0, 0, 0, 0, 0],
        Short(11),
    ),
    // of a seal capability,
    (&[2, 6, 0, 0], Short(1)),
    (&[2, 6, 0, 0, 0, 6, 0, 0], Short(5)),
    (&[2, 6, 0, 0, 0, 6, 0, 0, 0, 1, 0, 0, 0, 0, 0, 0], Short(9)),
    // and of a sealed word.
    (&[3, 7, 0, 0], Short(1)),
    (&[3, 7, 0, 0, 0], Short(5)),
    (&[3, 7, 0, 0, 0, 1, 4, 1, 6, 0], Short(8)),
];

fn is_refused(rt: &impl Abort, bytes: &[u8], fault: FieldFault) {
    assert!(rt; read(rt, bytes).is_none(), "at {bytes:?}");
    assert_eq!(rt; cursor(rt, bytes).word().err(), Some(fault), "at {bytes:?}");
}

#[test]
fn each_refusal_names_the_place_of_the_bad_field(rt: HostRuntime) {
    for (bytes, fault) in &REFUSED {
        is_refused(&rt, bytes, *fault);
    }
}

#[test]
fn a_sealed_word_is_no_unsealed_one(rt: HostRuntime) {
    for (word, bytes) in &spelled() {
        let fault = cursor(&rt, bytes).unsealed_word().err();
        let is_sealed = matches!(word, Word::Sealed(..));
        assert_eq!(rt;
            fault,
            is_sealed.then_some(BadField(0)),
            "at {}",
            word_text(word).as_str()
        );
    }
}

#[test]
fn fields_are_appended(rt: HostRuntime) -> Result<(), Fail> {
    let mut out = Vec::new(rt.alloc());
    push_u16(&mut out, 0x0102)?;
    push_u32(&mut out, 0x0304_0506)?;
    let items = Items::of(out);
    assert_eq!(rt; items.as_slice(), [2, 1, 6, 5, 4, 3].as_slice());
    assert_eq!(rt; items.into_vec().as_slice(), [2, 1, 6, 5, 4, 3].as_slice());
    Ok(())
}

fn stands_at(rt: &impl Abort, cursor: &Cursor<'_>, at: u32, is_at_end: bool) {
    assert_eq!(rt; (cursor.at(), cursor.is_at_end()), (at, is_at_end));
}

#[test]
fn a_cursor_goes_from_field_to_field(rt: HostRuntime) {
    let mut cursor = Cursor::of(&[7, 2, 1, 8, 9]);
    stands_at(&rt, &cursor, 0, false);
    assert_eq!(rt; cursor.bytes(1), Ok([7].as_slice()));
    assert_eq!(rt; cursor.u16(), Ok(0x0102));
    stands_at(&rt, &cursor, 3, false);
    assert_eq!(rt; cursor.bytes(2), Ok([8, 9].as_slice()));
    stands_at(&rt, &cursor, 5, true);
    assert_eq!(rt; cursor.u16(), Err(Short(5)));
}

#[test]
fn a_range_of_seals_has_its_base_and_count(rt: HostRuntime) {
    let range = SealRange::new(1048575, 65536);
    assert_eq!(rt; (range.base(), range.count()), (1048575, 65536));
}

#[test]
fn a_word_is_appended(rt: HostRuntime) -> Result<(), Fail> {
    let mut words = Vec::from_slice(rt.alloc(), &[9])?;
    push_word(&mut words, &Word::Int(-2))?;
    let bytes = [9, 0, 254, 255, 255, 255, 255, 255, 255, 255];
    assert_eq!(rt; words.as_slice(), bytes.as_slice());
    Ok(())
}

#[test]
fn each_fault_of_a_field_has_its_text(rt: HostRuntime) -> Result<(), Fail> {
    let faults = [
        (Short(5), "the bytes end within the field at byte 5"),
        (BadField(70), "the field at byte 70 is not valid"),
    ];
    for (fault, text) in faults {
        assert_eq!(rt; format!(in rt.alloc(); "{fault}")?.as_str(), text);
    }
    Ok(())
}
