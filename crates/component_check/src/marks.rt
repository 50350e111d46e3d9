//! A mark for each of 65,536 numbers.
ghost use Rattle.std.specs.Prelude.{◌≡◌, ◌==◌, ◌<◌, ◌≤◌, ◌+◌, ◌-◌, ℕ, false, is_some};
ghost use Rattle.component_check.specs.Places.{first_below};
ghost use Rattle.component_check.specs.Marks.{is_marked, is_among, MarkedToo};

use crate::places::first_place;
use cap_words::LONGEST_STRETCH;

// How many words of 64 bits have them.
const WORDS: usize = LONGEST_STRETCH as usize / 64;

// A bit for each number, so that 8 KiB of the stack do.
#[derive(Drop)]
pub(crate) struct Marks {
    bits: [u64; WORDS],
}

impl Marks {
    /// Nothing is marked.
    pub(crate) fn none() -> Marks
        ensures { (k : ℕ) → k < LONGEST_STRETCH → is_marked result.bits k ≡ false }
    {
        Marks { bits: [0; WORDS] }
    }

    /// Whether a number is marked.
    pub(crate) fn has(&self, number: usize) -> bool
        requires { number < LONGEST_STRETCH }
        ensures { result ≡ is_marked self.now.bits number }
    {
        (self.bits[number / 64] >> (number % 64)) & 1 == 1
    }

    /// Marks a number.
    pub(crate) fn mark(&mut self, number: usize)
        requires { number < LONGEST_STRETCH }
        ensures { MarkedToo self.old.bits self.new.bits (λ k. k == number) }
    {
        let word = self.bits[number / 64];
        self.bits[number / 64] = word | (1 << (number % 64));
    }

    /// Whether a number of these is marked, the last not among them.
    pub(crate) fn has_any(&self, from: usize, to: usize) -> bool
        requires in_order { from ≤ to }
        requires within { to ≤ LONGEST_STRETCH }
        ensures { result ≡ is_some (first_below (λ i. is_marked self.now.bits (from + i)) (to - from)) }
    {
        first_place(to - from, |i| self.has(from + i)).is_some()
    }

    /// Marks each number of these, the last not among them.
    pub(crate) fn mark_all(&mut self, from: usize, to: usize)
        requires in_order { from ≤ to }
        requires within { to ≤ LONGEST_STRETCH }
        ensures { MarkedToo self.old.bits self.new.bits (is_among from to) }
    {
        for number in from..to {
            self.mark(number);
        }
    }
}
