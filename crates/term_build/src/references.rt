// References.
ghost use Rattle.std.specs.Prelude.{◌≡◌, ℕ, ◌+◌, ◌≤◌, Bool, List, [], ◌∷◌};
ghost use Rattle.term_tags.specs.Words.{boxed_word, head_word};
ghost use Rattle.term_tags.specs.declared.layouts.TheConstants.{REF};
ghost use Rattle.plain_term.specs.Tree.Tree.{Ref};
ghost use Rattle.term_words.specs.Stands.{Stands};
ghost use Rattle.term_words.specs.Kept.{Keeps};
ghost use Rattle.term_build.specs.Taken.{Taken, IsFree, Lie, plain};
ghost use Rattle.term_build.specs.Grows.{Built};
ghost use Rattle.term_build.specs.Clear.{IsRoom, Clear, KeepsClear, Uses};

use crate::rows::put;
use term_tags::{REF, boxed_at, head_of};
use word_mem::{Room, WordMem};

/// The reference with number `k` of process `n`, in three words.
pub fn reference(mem: &mut WordMem, room: &mut Room, n: u64, k: u64) -> u64
    requires places { IsRoom room.old mem.old }
    requires words { room.old.top + 3 ≤ room.old.end }
    ensures uses { Uses 3 room.old room.new mem.old mem.new }
    ensures place { result ≡ boxed_word room.old.top }
    ensures words { Lie mem.new room.old.top (head_word REF 2 ∷ n ∷ k ∷ []) }
    ensures made { (c d : ℕ → ℕ → Bool) (shared : List (List ℕ)) → Taken plain c d room.old.top 3 → Stands d shared mem.new result (Ref n k) }
    ensures kept { (roles : ℕ → ℕ) (c d : ℕ → ℕ → Bool) → Taken roles c d room.old.top 3 → Keeps c d mem.old mem.new }
    ensures built { (c : ℕ → ℕ → Bool) (shared : List (List ℕ)) → IsFree c room.old.top (room.old.top + 3)
        → Built c room.old.top 3 mem.old mem.new shared result (Ref n k) }
    ensures made_clear { (shared : List (List ℕ)) → Clear room.new shared mem.new result (Ref n k) }
    ensures kept_clear { KeepsClear room.old room.new mem.old mem.new }
{
    mem.bounded();
    let place = put(mem, room, &[head_of(REF, 2), n, k]);
    boxed_at(place)
}
