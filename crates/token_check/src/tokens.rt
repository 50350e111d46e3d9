//! Tokens of a procedure, and which of them are full.
ghost use Rattle.std.specs.Prelude.{◌≡◌, slice_set};
ghost use Rattle.token_check.specs.Tokens.{token_at, is_clear, equal_sets, is_full};
ghost use Rattle.token_language.specs.Tokens.{tokens_of};
ghost use Rattle.token_check.specs.Walk.{filled, emptied, joined, comes_back, let_go, at_first};

use crate::fault::TokenFault;
use proc_language::{MOST_TOKENS, Name};
use proc_names::same;
use token_language::{TokenLocal, TokenParam, TokenProc};

/// For each token of a procedure, by its place, whether it is full.
pub(crate) type Full = [bool; TOKENS];

const TOKENS: usize = MOST_TOKENS as usize;

/// The place of a token of this name among the tokens of a procedure.
pub(crate) fn token_at(p: &TokenProc, x: &Name) -> Option<usize>
    ensures { result ≡ token_at (tokens_of p.now) x.now }
{
    let mut place = 0;
    for q in p.params.as_slice() {
        if let TokenParam::Token(y) = q {
            if same(y, x) {
                return Some(place);
            }
            place += 1;
        }
    }
    for q in p.locals.as_slice() {
        if let TokenLocal::Token(y) = q {
            if same(y, x) {
                return Some(place);
            }
            place += 1;
        }
    }
    None
}

#[tactic(auto, using(crate::proofs::SetLemmas::stays))]
fn put(full: &mut [bool], place: usize, is: bool)
    ensures { full.new ≡ slice_set full.old place is }
{
    if place < full.len() {
        full[place] = is;
    }
}

fn is_full(full: &[bool], place: usize) -> bool
    ensures { result ≡ is_full full.now place }
{
    match full.get(place) {
        Some(is) => *is,
        None => false,
    }
}

/// How the sets begin: the token parameters are full.
pub(crate) fn at_first(p: &TokenProc) -> Full
    ensures { result ≡ at_first p.now }
{
    let mut full = [false; TOKENS];
    let mut place = 0;
    for q in p.params.as_slice() {
        if let TokenParam::Token(_) = q {
            put(&mut full, place, true);
            place += 1;
        }
    }
    full
}

/// A token is filled, which is the one at this place.
#[tactic(auto, unfolding(crate::specs::Walk::filled))]
pub(crate) fn filled(place: Option<usize>, at: u32, full: Full) -> Result<Full, TokenFault>
    ensures { result ≡ filled place at full }
{
    match place {
        None => Err(TokenFault::Full(at)),
        Some(i) => {
            if is_full(&full, i) {
                return Err(TokenFault::Full(at));
            }
            let mut full = full;
            put(&mut full, i, true);
            Ok(full)
        }
    }
}

/// A token is emptied, which is the one at this place.
#[tactic(auto, unfolding(crate::specs::Walk::emptied))]
pub(crate) fn emptied(place: Option<usize>, at: u32, full: Full) -> Result<Full, TokenFault>
    ensures { result ≡ emptied place at full }
{
    match place {
        None => Err(TokenFault::Empty(at)),
        Some(i) => {
            if !is_full(&full, i) {
                return Err(TokenFault::Empty(at));
            }
            let mut full = full;
            put(&mut full, i, false);
            Ok(full)
        }
    }
}

fn is_clear(full: &Full) -> bool
    ensures { result ≡ is_clear full.now }
{
    full.iter().all(|is| !*is)
}

/// Nothing goes on, and no token is full.
#[tactic(auto, unfolding(crate::specs::Walk::let_go))]
pub(crate) fn let_go(at: u32, full: Full) -> Result<Option<Full>, TokenFault>
    ensures { result ≡ let_go at full }
{
    if is_clear(&full) {
        Ok(None)
    } else {
        Err(TokenFault::Kept(at))
    }
}

fn equal_sets(a: &[bool], b: &[bool]) -> bool
    ensures { result ≡ equal_sets a.now b.now }
{
    match (a.split_first(), b.split_first()) {
        (None, None) => true,
        (None, Some(_)) => false,
        (Some(_), None) => false,
        (Some((x, a)), Some((y, b))) => *x == *y && equal_sets(a, b),
    }
}

/// Two ways meet.
#[tactic(auto, unfolding(crate::specs::Walk::joined))]
pub(crate) fn joined(at: u32, a: Option<Full>, b: Option<Full>) -> Result<Option<Full>, TokenFault>
    ensures { result ≡ joined at a b }
{
    match (a, b) {
        (None, b) => Ok(b),
        (Some(s), None) => Ok(Some(s)),
        (Some(s), Some(t)) => {
            if equal_sets(&s, &t) {
                Ok(Some(s))
            } else {
                Err(TokenFault::Split(at))
            }
        }
    }
}

/// The body of a loop comes back to its test.
#[tactic(auto, unfolding(crate::specs::Walk::comes_back))]
pub(crate) fn comes_back(
    at: u32,
    before: Full,
    tested: Full,
    body: Option<Full>,
) -> Result<Option<Full>, TokenFault>
    ensures { result ≡ comes_back at before tested body }
{
    match body {
        None => Ok(Some(tested)),
        Some(t) => {
            if equal_sets(&before, &t) {
                Ok(Some(tested))
            } else {
                Err(TokenFault::Split(at))
            }
        }
    }
}
