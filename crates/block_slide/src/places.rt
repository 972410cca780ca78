// Where the places of a memory of blocks come to when the blocks in use are packed.
use word_arena::Shifts;
use word_mem::{Span, WordMem};
use word_shift::Places;

/// The map of a slide, by a table of shifts: a place moves down by the free words before it, one outside the memory stays.
#[derive(Clone, Copy)]
pub struct PackedPlaces<'a> {
    pub shifts: &'a Shifts,
}

impl<'a> Places for PackedPlaces<'a> {
    ghost use Rattle.word_arena.specs.Shifts.{IsSummed};
    ghost use Rattle.block_slide.specs.Down.{packed_place};

    ghost to = { λ s mem a. packed_place mem a };

    ghost fits = { λ s mem. IsSummed mem s.shifts.now };

    fn place(&self, mem: &WordMem, at: u64) -> u64 {
        if at > mem.len() {
            return at;
        }
        at.saturating_sub(self.shifts.before(mem, at))
    }
}

/// The same map where it is asked for the words of one part, most of which lead to places of that part: those move down by
/// one number, which is taken from the table once.
#[derive(Clone, Copy)]
pub(crate) struct NearPlaces<'a> {
    pub(crate) all: PackedPlaces<'a>,
    pub(crate) near: Span,
    pub(crate) down: u64,
}

impl<'a> Places for NearPlaces<'a> {
    ghost use Rattle.word_arena.specs.Shifts.{IsSummed};
    ghost use Rattle.block_slide.specs.Down.{packed_place, ComesDown};

    ghost to = { λ s mem a. packed_place mem a };

    ghost fits = { λ s mem. IsSummed mem s.all.shifts.now × ComesDown mem s.near.start s.near.end s.down };

    fn place(&self, mem: &WordMem, at: u64) -> u64 {
        if self.near.start <= at && at < self.near.end {
            return at - self.down;
        }
        self.all.place(mem, at)
    }
}
