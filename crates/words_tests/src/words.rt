//! What no clause says: that the definitions mean what they should.
use cap_words::{Cap, Held, Lin, Perm, SealCap, Sealable, Word, word_text};
use std::process::Abort;

// The texts were worked out by hand; the last is the longest that there is.
#[test]
fn each_word_has_its_text(rt: HostRuntime) {
    let words = [
        (Word::Int(0), "0"),
        (Word::Int(-1), "-1"),
        (Word::Int(i64::MIN), "-9223372036854775808"),
        (
            Word::Mem(Cap::new(Perm::No, Lin::Normal, 0, 0, 0)),
            "cap(no,nor,0,0,0)",
        ),
        (
            Word::Mem(Cap::new(Perm::R, Lin::Linear, 16, 31, -7)),
            "cap(r,lin,16,31,-7)",
        ),
        (
            Word::Mem(Cap::new(Perm::Rw, Lin::Normal, 5, 1048575, 6)),
            "cap(rw,nor,5,1048575,6)",
        ),
        (
            Word::Mem(Cap::new(Perm::Rx, Lin::Linear, 100, 200, 300)),
            "cap(rx,lin,100,200,300)",
        ),
        (
            Word::Mem(Cap::new(Perm::Rwx, Lin::Normal, 1, 2, 3)),
            "cap(rwx,nor,1,2,3)",
        ),
        (Word::Seal(SealCap::new(2, 9, 4)), "seal(2,9,4)"),
        (
            Word::Sealed(7, Sealable::Seal(SealCap::new(0, 10, -1))),
            "sealed(7,seal(0,10,-1))",
        ),
        (
            Word::Sealed(
                u32::MAX,
                Sealable::Mem(Cap::new(Perm::Rwx, Lin::Linear, 1048575, 1048575, i64::MIN)),
            ),
            "sealed(4294967295,cap(rwx,lin,1048575,1048575,-9223372036854775808))",
        ),
    ];
    for (word, text) in &words {
        assert_eq!(rt; word_text(word).as_str(), *text);
    }
}

// Each shape of a word, and whether it is linear.
fn shapes() -> [(Word, bool); 7] {
    [
        (Word::Int(5), false),
        (Word::Mem(Cap::new(Perm::Rw, Lin::Normal, 1, 2, 3)), false),
        (Word::Mem(Cap::new(Perm::No, Lin::Linear, 1, 2, 3)), true),
        (Word::Seal(SealCap::new(1, 2, 3)), false),
        (
            Word::Sealed(4, Sealable::Mem(Cap::new(Perm::R, Lin::Normal, 1, 2, 3))),
            false,
        ),
        (
            Word::Sealed(4, Sealable::Mem(Cap::new(Perm::R, Lin::Linear, 1, 2, 3))),
            true,
        ),
        (
            Word::Sealed(4, Sealable::Seal(SealCap::new(1, 2, 3))),
            false,
        ),
    ]
}

fn is_copied(rt: &impl Abort, word: &Word, linear: bool) {
    assert_eq!(rt; word.is_linear(), linear, "at {}", word_text(word).as_str());
    match word.copy_of() {
        Some(copy) => {
            assert!(rt; !linear, "at {}", word_text(word).as_str());
            assert_eq!(rt; word_text(&copy).as_str(), word_text(word).as_str());
        }
        None => assert!(rt; linear, "at {}", word_text(word).as_str()),
    }
}

#[test]
fn copy_of_is_none_exactly_for_a_linear_word(rt: HostRuntime) {
    for (word, linear) in &shapes() {
        is_copied(&rt, word, *linear);
    }
}

fn is_lifted(rt: &impl Abort, mut place: Word, linear: bool) {
    let before = word_text(&place);
    let held = Held::lift(&mut place);
    assert_eq!(rt; word_text(held.word()).as_str(), before.as_str());
    let left = if linear { "0" } else { before.as_str() };
    assert_eq!(rt; word_text(&place).as_str(), left);
    held.put_into(&mut place);
    assert_eq!(rt; word_text(&place).as_str(), before.as_str());
}

#[test]
fn lift_leaves_zero_of_a_linear_word_and_the_copy_of_another(rt: HostRuntime) {
    for (word, linear) in shapes() {
        is_lifted(&rt, word, linear);
    }
}
