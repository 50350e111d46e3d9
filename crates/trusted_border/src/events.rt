//! Events: what is told of a step that went.

/// What an `xjmp rcode rdata` would do.
#[derive(Clone, Copy)]
pub enum Back {
    /// It would go, and neither `Hop` nor `Pair` is so.
    Out,
    /// It would fail.
    Bad,
    /// It would go under the closure seal of a trusted part: the part, by its place among the parts,
    /// and the entry, by its place among the part's.
    Hop(u32, u32),
    /// It would go under a return seal: the site's number, and the base of the data half.
    Pair(u32, u32),
}

/// What a step did at the border of trusted code.
#[derive(Clone, Copy)]
pub enum Event {
    /// A call of trusted code went, to trusted code or not. Its frame is from base to end.
    Called {
        trusted: bool,
        site: u32,
        base: u32,
        end: u32,
    },
    /// A call was returned to, by trusted code or not. Its frame was from base to end.
    Returned {
        trusted: bool,
        site: u32,
        base: u32,
        end: u32,
    },
    /// Untrusted code went to an entry of a trusted part, under its closure seal.
    Entered {
        part: u32,
        entry: u32,
        back: Back,
    },
    /// Code of this trusted part went to untrusted code, outside a call.
    Left {
        part: u32,
    },
}
