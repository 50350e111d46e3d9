//! Names, and the words that no name may be.
ghost use Rattle.std.specs.Prelude.{◌≡◌};
ghost use Rattle.std.specs.Str.{bytes_eq};
ghost use Rattle.std.specs.List.{list_any};
ghost use Rattle.proc_language.specs.Words.{is_reserved, is_source_name};

fn is_among(words: &[&str], text: &[u8]) -> bool
    ensures { result ≡ list_any (λ word. bytes_eq word.now text.now) words.now }
{
    words.iter().any(|word| word.as_bytes() == text)
}

/// Whether it is one of the 17 words of the grammar, which are no names.
#[tactic(auto, unfolding(crate::specs::Words::is_reserved))]
pub fn is_reserved(text: &[u8]) -> bool
    ensures { result ≡ is_reserved text.now }
{
    let words = [
        "module", "code", "data", "closure", "returns", "stack", "movable", "import", "global",
        "export", "proc", "local", "if", "else", "while", "return", "halt",
    ];
    is_among(&words, text)
}

/// Whether a text is a name of a module or of what is in one: the name of a part, as
/// [`cap_words::is_name`] says, and no word of the grammar.
#[tactic(auto, unfolding(crate::specs::Words::is_source_name))]
pub fn is_name(text: &[u8]) -> bool
    ensures { result ≡ is_source_name text.now }
{
    if !cap_words::is_name(text) {
        return false;
    }
    !is_reserved(text)
}
