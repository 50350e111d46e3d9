//! Names of files.
ghost use Rattle.std.specs.Prelude.{◌≡◌, false, nat_eq, codes};
ghost use Rattle.std.specs.List.{starts_with};
ghost use Rattle.std.specs.Option.{option_map};
ghost use Rattle.outside_io.specs.FilesSeen.{IsFileName};
ghost use Rattle.command_words.specs.Name.{is_file_name, file_name_in, file_of};

use outside_io::LONGEST_NAME;
use std::marker::Model;

/// The name of a file, as a word gives it: 1 to [`LONGEST_NAME`] bytes, of which the first isn't
/// `-`. A contract sees the bytes.
#[derive(Drop)]
pub struct FileName<'a> {
    text: &'a str,
}

impl<'a> Model for FileName<'a> {
    ghost use Rattle.std.specs.Prelude.{List, ℕ, IsTrue};
    ghost use Rattle.std.specs.Coded.{coded_ℕ, coded_list};
    ghost use Rattle.command_words.specs.Name.{is_file_name};

    ghost Value = { List ℕ };

    ghost coded = { coded_list coded_ℕ };

    ghost view = { λ n. n.text.now };

    ghost invariant = { λ n. IsTrue (is_file_name n.text.now) };
}

fn is_file_name(text: &str) -> bool
    ensures { result ≡ is_file_name text.now }
{
    !text.is_empty() && text.len() <= LONGEST_NAME && !text.starts_with("-")
}

impl<'a> FileName<'a> {
    /// The name that a text is, and None exactly where it is none.
    pub fn new(text: &'a str) -> Option<FileName<'a>>
        ensures { result ≡ file_name_in text.entry.now }
    {
        if is_file_name(text) {
            Some(FileName { text })
        } else {
            None
        }
    }

    /// Its text.
    pub fn as_str(&self) -> &'a str
        ensures same { result.now ≡ self.now }
        ensures fits { IsFileName result.now }
        ensures plain { starts_with nat_eq result.now (codes "-") ≡ false }
    {
        self.text
    }
}

/// The file that an option names.
pub(crate) fn file_of<'a>(word: Option<&'a str>) -> Option<FileName<'a>>
    ensures { result ≡ file_of (option_map (λ w. w.now) word.entry) }
{
    FileName::new(word?)
}
