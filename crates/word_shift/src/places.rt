// Maps of places: what a word's place becomes.
ghost use Rattle.std.specs.Prelude.{◌≡◌, ℕ, ◌^◌, ◌<◌, List};

use word_mem::{Span, WordMem};

/// Where the word of each place comes to.
pub trait Places {
    /// The new place of each place, by what the map reads in a memory.
    ghost to: { Self → List ℕ → ℕ → ℕ };

    /// The memory is one in which the map can be asked: what it reads there is as it was when the map was made.
    ghost fits: { Self → List ℕ → Type 0 };

    /// The new place of a place. A place of 62 bits, as pointers have it, comes to one of 62 bits.
    fn place(&self, mem: &WordMem, at: u64) -> u64
        requires { fits self.now mem.now }
        ensures to { result ≡ to self.now mem.now at }
        ensures small { at < 2 ^ 62 → result < 2 ^ 62 };
}

/// The places of one span move to those from `to` on, in order; all others stay. It reads no memory.
#[derive(Clone, Copy)]
pub struct MovedSpan {
    pub from: Span,
    pub to: u64,
}

impl Places for MovedSpan {
    ghost use Rattle.std.specs.Prelude.{◌+◌, ◌-◌, ◌^◌, ◌≤◌};
    ghost use Rattle.word_shift.specs.Moves.{span_moved};

    ghost to = { λ s mem a. span_moved s.from.start s.from.end s.to a };

    ghost fits = { λ s mem. s.to + (s.from.end - s.from.start) ≤ 2 ^ 62 };

    fn place(&self, _mem: &WordMem, at: u64) -> u64 {
        if self.from.start <= at && at < self.from.end {
            self.to + (at - self.from.start)
        } else {
            at
        }
    }
}
