// Tuples of given parts, or of one part n times.
ghost use Rattle.std.specs.Prelude.{◌≡◌, ℕ, ◌+◌, ◌≤◌, Bool, List, ◌∷◌, length, replicate};
ghost use Rattle.term_tags.specs.Words.{boxed_word, head_word};
ghost use Rattle.term_tags.specs.declared.layouts.TheConstants.{MOST_PARTS};
ghost use Rattle.plain_term.specs.Tree.{Tree, Trees, same_trees};
ghost use Rattle.plain_term.specs.Tree.Tree.{Tuple};
ghost use Rattle.term_words.specs.Stands.{Stands, AllStand};
ghost use Rattle.term_words.specs.Kept.{Keeps};
ghost use Rattle.term_build.specs.Taken.{Taken, IsFree, Lie, plain};
ghost use Rattle.term_build.specs.Grows.{Built};
ghost use Rattle.term_build.specs.Clear.{IsRoom, Clear, AllClear, KeepsClear, Uses};

use crate::rows::{put, put_row};
use term_tags::{TUPLE, boxed_at, head_of};
use word_mem::{Room, WordMem};

/// A tuple of a header and one word for each part.
pub fn tuple(mem: &mut WordMem, room: &mut Room, parts: &[u64]) -> u64
    requires places { IsRoom room.old mem.old }
    requires few { length parts.now ≤ MOST_PARTS }
    requires words { room.old.top + (1 + length parts.now) ≤ room.old.end }
    ensures uses { Uses (1 + length parts.now) room.old room.new mem.old mem.new }
    ensures place { result ≡ boxed_word room.old.top }
    ensures words { Lie mem.new room.old.top (head_word TUPLE (length parts.now) ∷ parts.now) }
    ensures made { (c d : ℕ → ℕ → Bool) (shared : List (List ℕ)) (ts : Trees) → Taken plain c d room.old.top (1 + length parts.now)
        → AllStand c shared mem.old parts.now ts → Stands d shared mem.new result (Tuple ts) }
    ensures kept { (roles : ℕ → ℕ) (c d : ℕ → ℕ → Bool) → Taken roles c d room.old.top (1 + length parts.now) → Keeps c d mem.old mem.new }
    ensures built { (c : ℕ → ℕ → Bool) (shared : List (List ℕ)) (ts : Trees) → IsFree c room.old.top (room.old.top + (1 + length parts.now))
        → AllStand c shared mem.old parts.now ts → Built c room.old.top (1 + length parts.now) mem.old mem.new shared result (Tuple ts) }
    ensures made_clear { (shared : List (List ℕ)) (ts : Trees) → AllClear room.old shared mem.old parts.now ts
        → Clear room.new shared mem.new result (Tuple ts) }
    ensures kept_clear { KeepsClear room.old room.new mem.old mem.new }
{
    mem.bounded();
    let place = room.top;
    let count = parts.len() as u64;
    mem.set(place, head_of(TUPLE, count));
    put_row(mem, place + 1, parts);
    room.top = place + (1 + count);
    boxed_at(place)
}

/// A tuple of a header and `n` words that are all `w`.
pub fn same_tuple(mem: &mut WordMem, room: &mut Room, n: u64, w: u64) -> u64
    requires places { IsRoom room.old mem.old }
    requires few { n ≤ MOST_PARTS }
    requires words { room.old.top + (1 + n) ≤ room.old.end }
    ensures uses { Uses (1 + n) room.old room.new mem.old mem.new }
    ensures place { result ≡ boxed_word room.old.top }
    ensures words { Lie mem.new room.old.top (head_word TUPLE n ∷ replicate n w) }
    ensures made { (c d : ℕ → ℕ → Bool) (shared : List (List ℕ)) (t : Tree) → Taken plain c d room.old.top (1 + n)
        → Stands c shared mem.old w t → Stands d shared mem.new result (Tuple (same_trees n t)) }
    ensures kept { (roles : ℕ → ℕ) (c d : ℕ → ℕ → Bool) → Taken roles c d room.old.top (1 + n) → Keeps c d mem.old mem.new }
    ensures built { (c : ℕ → ℕ → Bool) (shared : List (List ℕ)) (t : Tree) → IsFree c room.old.top (room.old.top + (1 + n))
        → Stands c shared mem.old w t → Built c room.old.top (1 + n) mem.old mem.new shared result (Tuple (same_trees n t)) }
    ensures made_clear { (shared : List (List ℕ)) (t : Tree) → Clear room.old shared mem.old w t
        → Clear room.new shared mem.new result (Tuple (same_trees n t)) }
    ensures kept_clear { KeepsClear room.old room.new mem.old mem.new }
{
    mem.bounded();
    let place = put(mem, room, &[head_of(TUPLE, n)]);
    put_same(mem, room, n, w);
    boxed_at(place)
}

// Takes the first n free words of the room, each of which becomes w.
fn put_same(mem: &mut WordMem, room: &mut Room, n: u64, w: u64)
    requires places { IsRoom room.old mem.old }
    requires words { room.old.top + n ≤ room.old.end }
    ensures uses { Uses n room.old room.new mem.old mem.new }
    ensures words { Lie mem.new room.old.top (replicate n w) }
{
    mem.bounded();
    let place = room.top;
    for i in 0..n {
        mem.set(place + i, w);
    }
    room.top = place + n;
}
