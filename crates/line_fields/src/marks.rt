//! Texts cut at the marks in them.
ghost use Rattle.std.specs.Prelude.{◌≡◌, ◌+◌, ◌≤◌, length, option_map, IfSome};
ghost use Rattle.std.specs.List.{position_or_len};
ghost use Rattle.line_fields.specs.Cuts.{is_mark, cut, behind};

// Where the first mark stands, or the text's length.
fn len_before(text: &[u8], mark: u8) -> usize
    ensures { result ≡ position_or_len (is_mark mark) text.now }
{
    text.iter().take_while(|byte| **byte != mark).count()
}

/// What stands before the first mark and what after it, and `None` exactly where there is no mark.
#[tactic(auto, unfolding(crate::specs::Cuts::cut))]
pub fn cut(text: &[u8], mark: u8) -> Option<(&[u8], &[u8])>
    ensures exact { option_map (λ p. (p.0.now, p.1.now)) result ≡ cut mark text.now }
    ensures len { IfSome result (λ p. length p.0.now + length p.1.now + 1 ≡ length text.now) }
{
    let len = len_before(text, mark);
    if len < text.len() {
        Some((&text[..len], &text[len + 1..]))
    } else {
        None
    }
}

/// What stands after this front, and `None` exactly where the text doesn't begin with it.
#[tactic(auto, unfolding(crate::specs::Cuts::behind))]
pub fn behind<'a>(front: &[u8], text: &'a [u8]) -> Option<&'a [u8]>
    ensures exact { option_map (λ t. t.now) result ≡ behind front.now text.now }
    ensures len { IfSome result (λ t. length t.now ≤ length text.now) }
{
    text.strip_prefix(front)
}
