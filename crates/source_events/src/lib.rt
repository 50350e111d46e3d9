//! What crosses the border of trusted code, without instructions: the items of a feed, which code outside
//! causes, and what goes out.
//!
//! The lines of runs, the feeds that are read of them and the meanings of sources all tell it in these words.
//! `docs/LANGUAGE.md` has the rules by which a meaning goes through a feed. The crate has types, and
//! definitions about them, alone.
#![tactic(auto)]

use cap_words::Items;

/// What a feed has, one after another. Names are bytes of ASCII, as in the lines of a run.
#[derive(Drop)]
pub enum Item {
    /// A procedure is entered from outside.
    Enter {
        /// The name of its part.
        part: Items<u8>,
        /// Its own name.
        name: Items<u8>,
        /// How many words of the stack are handed over; none where that word of the stack is refused.
        left: Option<u32>,
        /// What the four argument registers hold, where it is an integer.
        args: [Option<i64>; 4],
        /// What each argument register and the next one are as a closure pair.
        pairs: [FeedPair; 3],
        /// What its return would do.
        back: FeedBack,
    },
    /// A call that waits is answered from outside.
    Ret {
        /// The name of the part that called.
        part: Items<u8>,
        /// The number of the call in its part.
        site: u32,
        /// The address at which the frame of the call begins.
        base: u32,
        /// The value, where it is an integer.
        value: Option<i64>,
    },
}

/// What the return of an entered procedure would do.
#[derive(Drop)]
pub enum FeedBack {
    /// It leaves.
    Out,
    /// It fails.
    Bad,
    /// It enters a procedure: the name of its part, and its own.
    Hop(Items<u8>, Items<u8>),
    /// It answers a call: the name of its part, its number, and the address at which its frame begins.
    Pair(Items<u8>, u32, u32),
}

/// What two argument registers are as a closure pair.
#[derive(Drop)]
pub enum FeedPair {
    /// They are none.
    Nothing,
    /// A call of it fails.
    Bad,
    /// A call of it leaves.
    Out,
    /// A call of it enters a procedure: the name of its part, and its own.
    Hop(Items<u8>, Items<u8>),
}

/// What an argument register holds where trusted code is left.
#[derive(Clone, Copy)]
pub enum OutArg {
    /// An integer.
    Int(i64),
    /// Any other word; where a module calls, one half of a closure pair.
    Half,
}

/// What leaves the modules.
#[derive(Drop)]
pub enum OutEvent {
    /// A call: the name of its part, its number, and what the four argument registers hold.
    CallOut(Items<u8>, u32, [OutArg; 4]),
    /// The return of a procedure that was entered: the name of its part, and the value.
    LeaveOut(Items<u8>, i64),
}

/// How a meaning ends.
#[derive(Clone, Copy)]
pub enum End {
    /// By `halt`, with this value.
    Halt(i64),
    /// By something that the rules don't allow.
    Fail,
    /// With nothing left in the feed.
    Waiting,
    /// Where the next tick would pass the fuel.
    OutOfFuel,
}

/// What a meaning tells.
#[derive(Drop)]
pub struct Told {
    /// What left the modules, in order.
    pub events: Items<OutEvent>,
    /// How it ended.
    pub end: End,
    /// The ticks that it took.
    pub ticks: u64,
}
