//! What is left of the tokens.
ghost use Rattle.std.specs.Prelude.{◌≡◌, ◌==◌, ◌<◌, ◌≤◌, nat_le, true, map, length, option_map, IfOk};
ghost use Rattle.std.specs.Prelude.{Some, IfSome, is_some, OnOk};
ghost use Rattle.proc_parse.specs.Answers.{InText, GivesAs, Gives, left_by, text_at};
ghost use Rattle.proc_parse.specs.Parts.{fitting_word, fitting_name};
ghost use Rattle.phrases.specs.Reading.{next_means, behind, is_there};
ghost use Rattle.proc_grammar.specs.Lexemes.{seen, word, a_name, a_number, sign, adding, comparing};
ghost use Rattle.proc_grammar.specs.Lexemes.{a_start, start_in, a_proc, a_local, words_of, token_word};
ghost use Rattle.proc_grammar.specs.Reader.{place, one};
ghost use Rattle.proc_grammar.specs.Reading.{next_name, next_num};
ghost use Rattle.std.specs.Str.{bytes_eq};

use cap_words::{Items, LONGEST_NAME};
use proc_grammar::{Language, ParseFault};
use proc_language::{Name, Op};
use std::alloc::Global;
use std::marker::Model;
use text_scan::{Token, TokenKind};

/// What is left of the tokens. A contract sees each with its place and bytes, and the place of the
/// text's end.
#[derive(Drop)]
pub struct TokenCursor<'a, 'b> {
    text: &'a [u8],
    rest: &'b [Token],
    end: u32,
}

impl<'a, 'b> Model for TokenCursor<'a, 'b> {
    ghost use Rattle.std.specs.Prelude.{map};
    ghost use Rattle.proc_grammar.specs.Lexemes.{seen};
    ghost use Rattle.proc_grammar.specs.Reader.{Input};
    ghost use Rattle.proc_parse.specs.Answers.{InText};

    ghost Value = { Input };

    ghost view = { λ c. record { rest = map (seen c.text.now) c.rest.now; end = c.end } };

    ghost invariant = { λ c. InText c.text.now c.rest.now };
}

impl<'a, 'b> TokenCursor<'a, 'b> {
    ghost use Rattle.std.specs.Prelude.{map};

    /// These tokens of the text.
    pub fn of(text: &'a [u8], tokens: &'b [Token], end: u32) -> TokenCursor<'a, 'b>
        requires { InText text.now tokens.now }
        ensures { result ≡ record { rest = map (seen text.now) tokens.now; end = end } }
    {
        TokenCursor {
            text,
            rest: tokens,
            end,
        }
    }

    /// The place of the next token, or the text's end.
    pub fn place(&self) -> u32
        ensures { result ≡ place self.now }
    {
        match self.rest.first() {
            Some(token) => token.at,
            None => self.end,
        }
    }

    // What the next token means, which is taken where it means something.
    fn taken<T>(&mut self, meant: Option<T>) -> Option<T>
        ensures value { result ≡ meant }
        ensures left { self.new ≡ left_by meant self.old }
    {
        if meant.is_some()
            && let Some((_, rest)) = self.rest.split_first()
        {
            self.rest = rest;
        }
        meant
    }

    // The bytes and the place of the next token where it is a name or a word.
    fn at_text(&self) -> Option<(&'a [u8], u32)>
        ensures { option_map (λ t. (t.0.now, t.1)) result ≡ next_means text_at self.now }
    {
        let token = self.rest.first()?;
        match token.kind {
            TokenKind::Name => {
                let (at, len) = (token.at as usize, token.len as usize);
                Some((&self.text[at..at + len], token.at))
            }
            _ => None,
        }
    }

    // The place of the next token where it is this word.
    #[tactic(auto, unfolding(proc_grammar::specs::Lexemes::word))]
    fn at_word(&self, wanted: &[u8]) -> Option<u32>
        ensures { result ≡ next_means (word wanted.now) self.now }
    {
        match self.at_text() {
            Some((text, at)) if text == wanted => Some(at),
            _ => None,
        }
    }

    // The place of the next token where it is this sign.
    #[tactic(auto, unfolding(proc_grammar::specs::Lexemes::sign))]
    fn at_sign(&self, wanted: u8) -> Option<u32>
        ensures { result ≡ next_means (sign wanted) self.now }
    {
        match self.rest.first() {
            Some(
                Token {
                    kind: TokenKind::Sign(byte),
                    at,
                    ..
                },
            ) if *byte == wanted => Some(*at),
            _ => None,
        }
    }

    /// Whether this sign stands next.
    pub fn is_sign(&self, wanted: u8) -> bool
        ensures { result ≡ is_there (next_means (sign wanted) self.now) }
    {
        self.at_sign(wanted).is_some()
    }

    /// Whether this word stands next.
    pub fn is_word(&self, wanted: &[u8]) -> bool
        ensures { result ≡ is_there (next_means (word wanted.now) self.now) }
    {
        self.at_word(wanted).is_some()
    }

    /// Whether nothing is left.
    pub fn is_at_end(&self) -> bool
        ensures { result ≡ (length self.now.rest == 0) }
    {
        self.rest.is_empty()
    }

    /// Whether a procedure begins here.
    #[tactic(auto, unfolding(proc_grammar::specs::Lexemes::a_proc))]
    pub fn starts_proc(&self) -> bool
        ensures { result ≡ is_there (next_means a_proc self.now) }
    {
        self.is_word(b"export") || self.is_word(b"proc")
    }

    /// Whether a local begins here.
    #[tactic(auto, unfolding(proc_grammar::specs::Lexemes::a_local))]
    pub fn starts_local<L: Language>(&self) -> bool
        ensures { result ≡ is_there (next_means (a_local L.made.tokens) self.now) }
    {
        self.is_word(b"local") || (L::has_tokens() && self.is_word(b"token"))
    }

    /// Whether a statement begins here.
    #[tactic(auto, unfolding(proc_grammar::specs::Lexemes::a_start))]
    pub fn starts_stmt<L: Language>(&self) -> bool
        ensures { result ≡ is_there (next_means (a_start L.made.tokens) self.now) }
    {
        match self.at_text() {
            Some((text, _)) => starts_stmt::<L>(text),
            None => false,
        }
    }

    /// Takes the next token where it is this word, and tells its place.
    pub fn take_word(&mut self, wanted: &[u8]) -> Option<u32>
        ensures value { result ≡ next_means (word wanted.now) self.old }
        ensures left { self.new ≡ left_by result self.old }
    {
        let meant = self.at_word(wanted);
        self.taken(meant)
    }

    /// Takes the next token where it is this word and the language has tokens, and tells its place.
    #[tactic(auto, using(crate::proofs::Steps::token_word_there, crate::proofs::Steps::token_word_nowhere))]
    pub fn take_token_word<L: Language>(&mut self, wanted: &[u8]) -> Option<u32>
        ensures value { result ≡ next_means (token_word L.made.tokens wanted.now) self.old }
        ensures left { self.new ≡ left_by result self.old }
        ensures there { IfSome result (λ at. is_some L.made.tokens ≡ true) }
    {
        if !L::has_tokens() {
            return None;
        }
        self.take_word(wanted)
    }

    /// Takes the next token where it is this sign, and tells its place.
    pub fn take_sign(&mut self, wanted: u8) -> Option<u32>
        ensures value { result ≡ next_means (sign wanted) self.old }
        ensures left { self.new ≡ left_by result self.old }
    {
        let meant = self.at_sign(wanted);
        self.taken(meant)
    }

    /// The word, and its place.
    #[tactic(auto, unfolding(phrases::specs::Reading::one, phrases::specs::Reading::case_next))]
    pub fn word(&mut self, wanted: &[u8]) -> Result<u32, ParseFault>
        ensures { Gives result self.new (one (word wanted.now) self.old) }
    {
        let taken = self.take_word(wanted);
        taken.ok_or(ParseFault::Expected(self.place()))
    }

    /// The sign, and its place.
    #[tactic(auto, unfolding(phrases::specs::Reading::one, phrases::specs::Reading::case_next))]
    pub fn sign(&mut self, wanted: u8) -> Result<u32, ParseFault>
        ensures { Gives result self.new (one (sign wanted) self.old) }
    {
        let taken = self.take_sign(wanted);
        taken.ok_or(ParseFault::Expected(self.place()))
    }

    /// The word, which unless it `fits` is one too many, and its place.
    #[tactic(auto, unfolding(crate::specs::Parts::fitting_word))]
    pub fn fitting_word(&mut self, wanted: &[u8], fits: bool) -> Result<u32, ParseFault>
        ensures exact { Gives result self.new (fitting_word wanted.now fits self.old) }
        ensures within { OnOk result (fits ≡ true) }
    {
        let at = self.word(wanted)?;
        if !fits {
            return Err(ParseFault::TooMany(at));
        }
        Ok(at)
    }

    // The name that stands next, and its place.
    #[tactic(auto, unfolding(proc_grammar::specs::Lexemes::a_name))]
    fn at_name<L: Language>(&self) -> Option<(&'a [u8], u32)>
        ensures { option_map (λ n. record { text = n.0.now; at = n.1 })
            result ≡ next_means (a_name (words_of L.made.tokens)) self.now }
    {
        match self.at_text() {
            Some((text, _)) if L::is_reserved(text) => None,
            named => named,
        }
    }

    // The number that stands next, and its place.
    #[tactic(auto, unfolding(proc_grammar::specs::Lexemes::a_number))]
    fn at_number(&self) -> Option<(u64, u32)>
        ensures { option_map (λ n. record { value = n.0; at = n.1 }) result ≡ next_means a_number self.now }
    {
        match self.rest.first() {
            Some(
                Token {
                    kind: TokenKind::Number(value),
                    at,
                    ..
                },
            ) => Some((*value, *at)),
            _ => None,
        }
    }

    /// A name of at most [`LONGEST_NAME`] bytes.
    #[tactic(auto, unfolding(phrases::specs::Reading::one, phrases::specs::Reading::case_next, proc_grammar::specs::Reading::next_name))]
    pub fn name<L: Language>(&mut self, alloc: Global) -> Result<Name, ParseFault>
        ensures { Gives result self.new (next_name (words_of L.made.tokens) true self.old) }
    {
        let named = self.at_name::<L>();
        let Some((text, at)) = self.taken(named) else {
            return Err(ParseFault::Expected(self.place()));
        };
        if text.len() > LONGEST_NAME as usize {
            return Err(ParseFault::Range(at));
        }
        let text = Items::of(Vec::from_slice(alloc, text)?);
        Ok(Name { text, at })
    }

    /// A name, which unless it `fits` is one too many.
    #[tactic(auto, unfolding(crate::specs::Parts::fitting_name))]
    pub fn fitting_name<L: Language>(
        &mut self,
        alloc: Global,
        fits: bool,
    ) -> Result<Name, ParseFault>
        ensures exact { Gives result self.new (fitting_name L.made fits self.old) }
        ensures within { OnOk result (fits ≡ true) }
    {
        let name = self.name::<L>(alloc)?;
        if !fits {
            return Err(ParseFault::TooMany(name.at));
        }
        Ok(name)
    }

    // Whether `+` or `-` stands next.
    #[tactic(auto, unfolding(proc_grammar::specs::Lexemes::adding))]
    fn at_adding(&self) -> Option<Op>
        ensures { result ≡ next_means adding self.now }
    {
        match self.rest.first()?.kind {
            TokenKind::Sign(b'+') => Some(Op::Plus),
            TokenKind::Sign(b'-') => Some(Op::Minus),
            _ => None,
        }
    }

    // Whether `<` or `==` stands next.
    #[tactic(auto, unfolding(proc_grammar::specs::Lexemes::comparing))]
    fn at_comparing(&self) -> Option<Op>
        ensures { result ≡ next_means comparing self.now }
    {
        match self.rest.first()?.kind {
            TokenKind::Sign(b'<') => Some(Op::Less),
            TokenKind::Equal => Some(Op::Equal),
            _ => None,
        }
    }

    /// Takes the next token where it is `+` or `-`.
    pub fn take_adding(&mut self) -> Option<Op>
        ensures value { result ≡ next_means adding self.old }
        ensures left { self.new ≡ left_by result self.old }
    {
        let meant = self.at_adding();
        self.taken(meant)
    }

    /// Takes the next token where it is `<` or `==`.
    pub fn take_comparing(&mut self) -> Option<Op>
        ensures value { result ≡ next_means comparing self.old }
        ensures left { self.new ≡ left_by result self.old }
    {
        let meant = self.at_comparing();
        self.taken(meant)
    }

    /// Takes the next token where it is a number, and tells its value and place.
    pub fn take_number(&mut self) -> Option<(u64, u32)>
        ensures value { option_map (λ n. record { value = n.0; at = n.1 })
            result ≡ next_means a_number self.old }
        ensures left { self.new ≡ left_by result self.old }
    {
        let meant = self.at_number();
        self.taken(meant)
    }

    /// A number of at most this.
    #[tactic(auto, unfolding(phrases::specs::Reading::one, phrases::specs::Reading::case_next, proc_grammar::specs::Reading::next_num))]
    pub fn up_to(&mut self, most: u32) -> Result<u32, ParseFault>
        ensures { Gives result self.new (next_num true (λ n. nat_le n most) self.old) }
    {
        let Some((number, at)) = self.take_number() else {
            return Err(ParseFault::Expected(self.place()));
        };
        if number > u64::from(most) {
            return Err(ParseFault::Range(at));
        }
        Ok(number as u32)
    }
}

// Whether a statement begins with it: a name, or a word for that.
fn starts_stmt<L: Language>(text: &[u8]) -> bool
    ensures { result ≡ is_there (start_in L.made.tokens (Some text.now)) }
{
    if !L::is_reserved(text) {
        return true;
    }
    if L::has_tokens() && (is_same(text, b"make") || is_same(text, b"spend")) {
        return true;
    }
    is_same(text, b"if")
        || is_same(text, b"while")
        || is_same(text, b"return")
        || is_same(text, b"halt")
}

fn is_same(text: &[u8], word: &[u8]) -> bool
    ensures { result ≡ bytes_eq text.now word.now }
{
    text == word
}
