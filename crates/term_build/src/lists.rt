// One cons.
ghost use Rattle.std.specs.Prelude.{◌≡◌, ℕ, ◌+◌, ◌*◌, ◌≤◌, Bool, List, [], ◌∷◌};
ghost use Rattle.term_tags.specs.Words.{list_word};
ghost use Rattle.plain_term.specs.Tree.{Tree};
ghost use Rattle.plain_term.specs.Tree.Tree.{Cons};
ghost use Rattle.term_words.specs.Stands.{Stands};
ghost use Rattle.term_words.specs.Kept.{Keeps};
ghost use Rattle.term_build.specs.Taken.{Taken, IsFree, Lie, plain};
ghost use Rattle.term_build.specs.Grows.{Built};
ghost use Rattle.term_build.specs.Clear.{IsRoom, Clear, KeepsClear, Uses};

use term_tags::list_at;
use word_mem::{Room, WordMem};

/// A cons of two words.
pub fn cons(mem: &mut WordMem, room: &mut Room, h: u64, t: u64) -> u64
    requires places { IsRoom room.old mem.old }
    requires words { room.old.top + 2 ≤ room.old.end }
    ensures uses { Uses 2 room.old room.new mem.old mem.new }
    ensures place { result ≡ list_word room.old.top }
    ensures words { Lie mem.new room.old.top (h ∷ t ∷ []) }
    ensures made { (c d : ℕ → ℕ → Bool) (shared : List (List ℕ)) (a b : Tree) → Taken plain c d room.old.top 2
        → Stands c shared mem.old h a → Stands c shared mem.old t b → Stands d shared mem.new result (Cons a b) }
    ensures kept { (roles : ℕ → ℕ) (c d : ℕ → ℕ → Bool) → Taken roles c d room.old.top 2 → Keeps c d mem.old mem.new }
    ensures built { (c : ℕ → ℕ → Bool) (shared : List (List ℕ)) (a b : Tree) → IsFree c room.old.top (room.old.top + 2)
        → Stands c shared mem.old h a → Stands c shared mem.old t b → Built c room.old.top 2 mem.old mem.new shared result (Cons a b) }
    ensures made_clear { (shared : List (List ℕ)) (a b : Tree) → Clear room.old shared mem.old h a → Clear room.old shared mem.old t b
        → Clear room.new shared mem.new result (Cons a b) }
    ensures kept_clear { KeepsClear room.old room.new mem.old mem.new }
{
    mem.bounded();
    let place = room.top;
    mem.set(place, h);
    mem.set(place + 1, t);
    room.top = place + 2;
    list_at(place)
}
