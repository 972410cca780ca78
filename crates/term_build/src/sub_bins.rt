// Parts of binaries.
ghost use Rattle.std.specs.Prelude.{◌≡◌, ℕ, ◌+◌, ◌≤◌, Bool, List, [], ◌∷◌, length};
ghost use Rattle.term_tags.specs.Words.{boxed_word, head_word};
ghost use Rattle.term_tags.specs.declared.layouts.TheConstants.{SUB_BIN};
ghost use Rattle.plain_term.specs.Bytes.{bytes_of};
ghost use Rattle.plain_term.specs.Tree.{Tree};
ghost use Rattle.plain_term.specs.Tree.Tree.{Part};
ghost use Rattle.term_words.specs.Stands.{Stands, IsBase};
ghost use Rattle.term_words.specs.Kept.{Keeps};
ghost use Rattle.term_build.specs.Taken.{Taken, IsFree, Lie, plain};
ghost use Rattle.term_build.specs.Grows.{Built};
ghost use Rattle.term_build.specs.Clear.{IsRoom, Clear, KeepsClear, Uses};

use crate::rows::put;
use term_tags::{SUB_BIN, boxed_at, head_of};
use word_mem::{Room, WordMem};

/// The part of `len` bytes from byte `off` of a binary that is no part of another, in five words.
pub fn sub_bin(mem: &mut WordMem, room: &mut Room, base: u64, off: u64, len: u64) -> u64
    requires places { IsRoom room.old mem.old }
    requires words { room.old.top + 5 ≤ room.old.end }
    ensures uses { Uses 5 room.old room.new mem.old mem.new }
    ensures place { result ≡ boxed_word room.old.top }
    ensures words { Lie mem.new room.old.top (head_word SUB_BIN 4 ∷ len ∷ off ∷ 0 ∷ base ∷ []) }
    ensures made { (c d : ℕ → ℕ → Bool) (shared : List (List ℕ)) (t : Tree) → Taken plain c d room.old.top 5 → IsBase t
        → off + len ≤ length (bytes_of shared t)
        → Stands c shared mem.old base t → Stands d shared mem.new result (Part t off len) }
    ensures kept { (roles : ℕ → ℕ) (c d : ℕ → ℕ → Bool) → Taken roles c d room.old.top 5 → Keeps c d mem.old mem.new }
    ensures built { (c : ℕ → ℕ → Bool) (shared : List (List ℕ)) (t : Tree) → IsFree c room.old.top (room.old.top + 5) → IsBase t
        → off + len ≤ length (bytes_of shared t)
        → Stands c shared mem.old base t → Built c room.old.top 5 mem.old mem.new shared result (Part t off len) }
    ensures made_clear { (shared : List (List ℕ)) (t : Tree) → IsBase t → off + len ≤ length (bytes_of shared t) → Clear room.old shared mem.old base t
        → Clear room.new shared mem.new result (Part t off len) }
    ensures kept_clear { KeepsClear room.old room.new mem.old mem.new }
{
    mem.bounded();
    let place = put(mem, room, &[head_of(SUB_BIN, 4), len, off, 0, base]);
    boxed_at(place)
}
