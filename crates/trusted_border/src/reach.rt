//! Sites, parts and entries that a jump can reach, looked up in those of a start.
ghost use Rattle.std.specs.Prelude.{◌≡◌, ◌==◌, ◌&&◌, position, find};
ghost use Rattle.std.specs.Option.{option_copied};
ghost use Rattle.cap_words.specs.Face.{FaceInOrder, ContentInOrder};
ghost use Rattle.trusted_border.specs.Layout.{runs_part, numbered, number_of};
ghost use Rattle.trusted_border.specs.Reaches.{entry_number, content_base, hop_by};

use crate::events::Back;
use cap_words::{CapFields, Content, Face};
use linked_starts::{Entry, Owner, SiteList};

/// The number of a place, where it has 32 bits.
pub fn numbered(place: usize) -> Option<u32>
    ensures { result ≡ numbered place }
{
    if place < 1 << 32 {
        Some(place as u32)
    } else {
        None
    }
}

/// Whether a capability is the normal one with rx over the whole code of a trusted part.
pub fn runs_part(c: &CapFields, owner: &Owner) -> bool
    ensures { result ≡ runs_part c.now owner.now }
{
    owner.trusted
        && c.perm.number() == 3
        && !c.lin.is_linear()
        && c.base == owner.code.base
        && c.end == owner.code.end
}

fn entry_place(entries: &[Entry], at: u32) -> Option<usize>
    ensures { result ≡ position (λ e. e.at == at) entries.now }
{
    entries.iter().position(|entry| entry.at == at)
}

// The first entry of a part, by name, at an address.
fn entry_at(owner: &Owner, at: u32) -> Option<u32>
    ensures { result ≡ number_of (λ e. e.at == at) owner.now.entries }
{
    numbered(entry_place(owner.entries.as_slice(), at)?)
}

/// The first entry of a part, by name, at which pc stands.
pub fn entry_number(owner: &Owner, pc: Face) -> Option<u32>
    requires { FaceInOrder pc }
    ensures { result ≡ entry_number owner.now pc }
{
    let at = pc.target()?;
    entry_at(owner, at)
}

/// The trusted part of a closure seal.
pub fn owner_closed(owners: &[Owner], seal: u32) -> Option<&Owner>
    ensures { option_copied result ≡ find (λ o. o.trusted && (o.closure == seal)) owners.now }
{
    owners
        .iter()
        .find(|owner| owner.trusted && owner.closure == seal)
}

/// The number of the site of a return seal.
pub fn site_sealed(sites: &SiteList, seal: u32) -> Option<u32>
    ensures { result ≡ number_of (λ s. s.seal == seal) sites.now }
{
    numbered(sites.place_sealed(seal)?)
}

/// The base of the range of a capability that was sealed.
pub fn content_base(content: Content) -> u32
    ensures { result ≡ content_base content }
{
    match content {
        Content::Mem(c) => c.base,
        Content::Seal(s) => s.base,
    }
}

/// The entry of a part that code leads to, or that it leads to none.
pub fn hop_by(owner: &Owner, code: Content) -> Back
    requires { ContentInOrder code }
    ensures { result ≡ hop_by owner.now code }
{
    let Content::Mem(c) = code else {
        return Back::Out;
    };
    match entry_number(owner, Face::Memory(c)) {
        Some(entry) => Back::Hop(owner.part, entry),
        None => Back::Out,
    }
}
