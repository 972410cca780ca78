// Objects come into a chain and leave it.
ghost use Rattle.std.specs.Prelude.{◌≡◌, ℕ, ◌+◌, ◌-◌, ◌^◌, ◌<◌, ◌≤◌, Bool, List, ◌∷◌, length, slice_set};
ghost use Rattle.term_words.specs.Role.{IsSingle, Idle};
ghost use Rattle.term_words.specs.Kept.{Keeps};
ghost use Rattle.term_words.specs.Counted.{In};
ghost use Rattle.shared_rec.specs.Record.{count_in, dropped_to};
ghost use Rattle.off_heap_list.specs.Links.{named, next_in, IsLink, Links};
ghost use Rattle.off_heap_list.specs.Swept.{freed_at};

use crate::links::{next_of, record_of, set_next};
use shared_rec::{Dropped, add, drop_one};
use word_mem::WordMem;

/// What is left of a chain whose first object left it: the new first one, 0 for none, and the record that it named where
/// no other object names it.
#[derive(Clone, Copy)]
pub struct Unchained {
    pub head: u64,
    pub freed: Option<u64>,
}

/// The object becomes the first of the chain, and its record counts it. The answer is its place, the new first one.
pub fn chain(mem: &mut WordMem, head: u64, object: u64) -> u64
    requires object { object + 6 ≤ length mem.old }
    requires of_record { named mem.old object + 4 ≤ length mem.old }
    requires count { count_in mem.old (named mem.old object) < 2 ^ 24 }
    ensures head { result ≡ object }
    ensures writes { mem.new ≡ slice_set (slice_set mem.old (named mem.old object + 2) (count_in mem.old (named mem.old object) + 1)) (object + 2) head }
    ensures kept { (c : ℕ → ℕ → Bool) → Idle c (object + 2) → Idle c (named mem.old object + 2) → Keeps c c mem.old mem.new }
    ensures links { (c : ℕ → ℕ → Bool) (os further : List ℕ) → IsSingle c → Links c mem.old head os further → IsLink c mem.old object → (In object os → ⊥)
        → Links c mem.new result (object ∷ os) further }
{
    mem.bounded();
    let record = record_of(mem, object);
    add(mem, record);
    set_next(mem, object, head);
    object
}

/// The first object leaves the chain, and its record does not count it any more.
pub fn unchain(mem: &mut WordMem, head: u64) -> Unchained
    requires object { head + 6 ≤ length mem.old }
    requires of_record { named mem.old head + 4 ≤ length mem.old }
    requires count { 1 ≤ count_in mem.old (named mem.old head) }
    ensures head { result.head ≡ next_in mem.old head }
    ensures freed { result.freed ≡ freed_at (named mem.old head) (count_in mem.old (named mem.old head) - 1) }
    ensures writes { mem.new ≡ slice_set mem.old (named mem.old head + 2) (count_in mem.old (named mem.old head) - 1) }
    ensures kept { (c : ℕ → ℕ → Bool) → Idle c (named mem.old head + 2) → Keeps c c mem.old mem.new }
    ensures links { (c : ℕ → ℕ → Bool) (p : ℕ) (os further : List ℕ) → IsSingle c → Links c mem.old head (p ∷ os) further
        → Links c mem.new result.head os further }
{
    let record = record_of(mem, head);
    let next = next_of(mem, head);
    let freed = freed_by(drop_one(mem, record), record);
    Unchained { head: next, freed }
}

// The record where it was freed.
pub fn freed_by(dropped: Dropped, at: u64) -> Option<u64>
    ensures { (n : ℕ) → dropped ≡ dropped_to n → result ≡ freed_at at n }
{
    match dropped {
        Dropped::Freed => Some(at),
        Dropped::Kept(_) => None,
    }
}
