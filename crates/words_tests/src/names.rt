//! Which texts are names.
use cap_words::is_name;
use std::process::Abort;

// Names, and whether they may be ones.
static NAMES: [(&[u8], bool); 20] = [
    (b"", false),
    (b"a", true),
    (b"z", true),
    (b"_", true),
    (b"0", false),
    (b"9", false),
    (b"a0", true),
    (b"_9", true),
    (b"9a", false),
    (b"A", false),
    (b"aZ", false),
    (b"a`", false),
    (b"a{", false),
    (b"a/", false),
    (b"a:", false),
    (b"a-b", false),
    (b"a\0", false),
    (b"a\xe1", false),
    (b"abcdefghijklmnopqrstuvwxyz_0123", true),
    (b"abcdefghijklmnopqrstuvwxyz_01234", false),
];

#[test]
fn a_name_has_1_to_31_bytes_of_its_kind(rt: HostRuntime) {
    for (name, wanted) in &NAMES {
        assert!(rt; is_name(name) == *wanted, "{name:?}");
    }
}
