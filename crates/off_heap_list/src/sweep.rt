// A chain after a collection.
ghost use Rattle.std.specs.Prelude.{◌≡◌, ℕ, ◌+◌, ◌-◌, ◌<◌, ◌≤◌, ◌==◌, if◌then◌else◌, Bool, true, false, List, [], ◌∷◌, Some, None, length, slice_set};
ghost use Rattle.term_words.specs.Role.{IsSingle, Idle};
ghost use Rattle.term_words.specs.Kept.{Keeps};
ghost use Rattle.shared_rec.specs.Record.{count_in};
ghost use Rattle.off_heap_list.specs.Links.{named, next_in};
ghost use Rattle.off_heap_list.specs.Swept.{is_moved, new_place, bin_words_at, count_less, freed_at, left_behind, kept_after, ends_after, Relinked, IsOld, FrontSweeping, Since};

use crate::chains::freed_by;
use crate::links::{next_of, record_of, set_next};
use shared_rec::drop_one;
use term_tags::{HOLDER, head_of, is_boxed, place_of};
use word_mem::WordMem;

/// What became of an object of a chain: the next object, its new place where it was moved, the record that it named where it
/// was left behind as the last one that did, and the words of bytes of a holder that was moved.
#[derive(Clone, Copy)]
pub struct Swept {
    pub next: u64,
    pub moved: Option<u64>,
    pub freed: Option<u64>,
    pub words: u64,
}

/// Looks at an object of a chain after a collection. Where it was left behind, its record does not count it any more.
pub fn sweep_one(mem: &mut WordMem, at: u64) -> Swept
    requires object { at + 6 ≤ length mem.old }
    requires moved { is_moved mem.old at ≡ true → new_place mem.old at + 6 ≤ length mem.old }
    requires of_record { is_moved mem.old at ≡ false → named mem.old at + 4 ≤ length mem.old }
    requires count { is_moved mem.old at ≡ false → 1 ≤ count_in mem.old (named mem.old at) }
    ensures next { result.next ≡ next_in mem.old at }
    ensures moved { is_moved mem.old at ≡ true
        → (result.moved ≡ Some (new_place mem.old at)) × (result.freed ≡ None) × (result.words ≡ bin_words_at mem.old (new_place mem.old at))
        × (mem.new ≡ mem.old) }
    ensures left { is_moved mem.old at ≡ false
        → (result.moved ≡ None) × (result.freed ≡ freed_at (named mem.old at) (count_in mem.old (named mem.old at) - 1)) × (result.words ≡ 0)
        × (mem.new ≡ slice_set mem.old (named mem.old at + 2) (count_in mem.old (named mem.old at) - 1)) }
    ensures kept { (c : ℕ → ℕ → Bool) → Idle c (named mem.old at + 2) → Keeps c c mem.old mem.new }
{
    let next = next_of(mem, at);
    let first = mem.get(at);
    if is_boxed(first) {
        let place = place_of(first);
        let words = held_in(mem, place);
        return Swept {
            next,
            moved: Some(place),
            freed: None,
            words,
        };
    }
    let record = record_of(mem, at);
    let freed = freed_by(drop_one(mem, record), record);
    Swept {
        next,
        moved: None,
        freed,
        words: 0,
    }
}

/// A sweep of a chain: the object of the old chain that comes next, 0 at its end; the first object of the new chain, which
/// has those that were moved, the last one first; and the last of the objects left behind that ended a record, which lead by
/// their words `next` to those before them. It begins at the old chain's first object, with 0 for the other two.
#[derive(Clone, Copy)]
pub struct Sweep {
    pub rest: u64,
    pub first: u64,
    pub last: u64,
}

/// Sweeps the next object: one that was moved joins the new chain, the record of one that was left behind does not count it
/// any more. The answer is what became of it. Every tree stands at every moment.
pub fn sweep_next(mem: &mut WordMem, sweep: &mut Sweep) -> Swept
    requires object { sweep.old.rest + 6 ≤ length mem.old }
    requires moved { is_moved mem.old sweep.old.rest ≡ true → new_place mem.old sweep.old.rest + 6 ≤ length mem.old }
    requires of_record { is_moved mem.old sweep.old.rest ≡ false → named mem.old sweep.old.rest + 4 ≤ length mem.old }
    requires count { is_moved mem.old sweep.old.rest ≡ false → 1 ≤ count_in mem.old (named mem.old sweep.old.rest) }
    ensures rest { (sweep.new.rest ≡ next_in mem.old sweep.old.rest) × (result.next ≡ next_in mem.old sweep.old.rest) }
    ensures moved { is_moved mem.old sweep.old.rest ≡ true
        → (result.moved ≡ Some (new_place mem.old sweep.old.rest)) × (result.freed ≡ None)
        × (result.words ≡ bin_words_at mem.old (new_place mem.old sweep.old.rest))
        × (sweep.new.first ≡ new_place mem.old sweep.old.rest) × (sweep.new.last ≡ sweep.old.last)
        × (mem.new ≡ slice_set mem.old (new_place mem.old sweep.old.rest + 2) sweep.old.first) }
    ensures left { is_moved mem.old sweep.old.rest ≡ false
        → (result.moved ≡ None) × (result.freed ≡ freed_at (named mem.old sweep.old.rest) (count_less mem.old sweep.old.rest))
        × (result.words ≡ 0) × (sweep.new.first ≡ sweep.old.first)
        × (sweep.new.last ≡ (if count_less mem.old sweep.old.rest == 0 then sweep.old.rest else sweep.old.last))
        × (mem.new ≡ left_behind mem.old sweep.old.rest sweep.old.last) }
    ensures writes { (c : ℕ → ℕ → Bool) → IsOld c mem.old sweep.old.rest → Relinked c (sweep.old.rest ∷ []) mem.old mem.new }
    ensures kept { (c : ℕ → ℕ → Bool) → IsSingle c → IsOld c mem.old sweep.old.rest → Keeps c c mem.old mem.new }
    ensures goes_on { (c : ℕ → ℕ → Bool) (p : ℕ) (os : List ℕ) (to : ℕ) (kept ends further : List ℕ) → IsSingle c
        → FrontSweeping c mem.old sweep.old.rest (p ∷ os) to sweep.old.first kept sweep.old.last ends further
        → FrontSweeping c mem.new sweep.new.rest os to sweep.new.first (kept_after mem.old sweep.old.rest kept) sweep.new.last
        (ends_after mem.old sweep.old.rest ends) further }
    ensures since { (c : ℕ → ℕ → Bool) (p : ℕ) (os : List ℕ) (to : ℕ) (kept ends further start : List ℕ) → IsSingle c
        → FrontSweeping c mem.old sweep.old.rest (p ∷ os) to sweep.old.first kept sweep.old.last ends further → Since c start mem.old (p ∷ os) ends
        → Since c start mem.new os (ends_after mem.old sweep.old.rest ends) }
{
    mem.bounded();
    let at = sweep.rest;
    let word = mem.get(at);
    let swept = sweep_one(mem, at);
    sweep.rest = swept.next;
    if is_boxed(word) {
        let place = place_of(word);
        set_next(mem, place, sweep.first);
        sweep.first = place;
        return swept;
    }
    if swept.freed.is_some() {
        set_next(mem, at, sweep.last);
        sweep.last = at;
    }
    swept
}

/// The words of the bytes that a holder has, 0 for a fun.
pub fn held_in(mem: &WordMem, object: u64) -> u64
    requires { object + 6 ≤ length mem.now }
    ensures { result ≡ bin_words_at mem.now object }
{
    mem.bounded();
    if mem.get(object) != head_of(HOLDER, 5) {
        return 0;
    }
    mem.get(object + 1).div_ceil(8)
}
