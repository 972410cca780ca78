// A chain is turned round.
ghost use Rattle.std.specs.Prelude.{◌≡◌, ℕ, ◌+◌, ◌≤◌, Bool, List, ◌∷◌, length, slice_set};
ghost use Rattle.term_words.specs.Role.{IsSingle, Idle};
ghost use Rattle.term_words.specs.Kept.{Keeps};
ghost use Rattle.off_heap_list.specs.Links.{next_in};
ghost use Rattle.off_heap_list.specs.Turned.{Turning};

use crate::links::{next_of, set_next};
use word_mem::WordMem;

/// A chain that is turned round, as one that a sweep has left in the other order: the first of its objects that are left, 0
/// at its end, and the first of the new chain. It begins at the chain's first object, with no new chain: 0.
#[derive(Clone, Copy)]
pub struct Turn {
    pub rest: u64,
    pub first: u64,
}

/// The next object becomes the first of the new chain. Counts stay.
pub fn turn_next(mem: &mut WordMem, turn: &mut Turn)
    requires { turn.old.rest + 6 ≤ length mem.old }
    ensures rest { turn.new.rest ≡ next_in mem.old turn.old.rest }
    ensures first { turn.new.first ≡ turn.old.rest }
    ensures writes { mem.new ≡ slice_set mem.old (turn.old.rest + 2) turn.old.first }
    ensures kept { (c : ℕ → ℕ → Bool) → Idle c (turn.old.rest + 2) → Keeps c c mem.old mem.new }
    ensures goes_on { (c : ℕ → ℕ → Bool) (p : ℕ) (os kept further : List ℕ) → IsSingle c
        → Turning c mem.old turn.old.rest (p ∷ os) turn.old.first kept further
        → Turning c mem.new turn.new.rest os turn.new.first (turn.old.rest ∷ kept) further }
{
    let object = turn.rest;
    let next = next_of(mem, object);
    set_next(mem, object, turn.first);
    turn.rest = next;
    turn.first = object;
}
