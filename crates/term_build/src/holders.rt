// Holders of shared binaries.
ghost use Rattle.std.specs.Prelude.{◌≡◌, ℕ, ◌+◌, ◌<◌, ◌≤◌, Bool, List, [], ◌∷◌, length};
ghost use Rattle.term_tags.specs.Words.{boxed_word, head_word};
ghost use Rattle.term_tags.specs.declared.layouts.TheConstants.{HOLDER};
ghost use Rattle.plain_term.specs.Tree.Tree.{Shared};
ghost use Rattle.term_words.specs.Role.{outside};
ghost use Rattle.term_words.specs.Stands.{Stands};
ghost use Rattle.term_words.specs.Kept.{Keeps};
ghost use Rattle.term_build.specs.Taken.{Taken, IsFree, Lie, of_holder};
ghost use Rattle.term_build.specs.Grows.{BuiltLink};
ghost use Rattle.term_build.specs.Parts.{IsRecordOf};
ghost use Rattle.term_build.specs.Clear.{IsRoom, Clear, KeepsClear, Uses};

use crate::rows::put;
use term_tags::{HOLDER, boxed_at, head_of};
use word_mem::{Room, WordMem};

/// The holder of the binary of `len` bytes in the record at place `rec`, in six words; `next` is the place of the next in
/// a chain, 0 at its end. The record's count stays.
pub fn holder(mem: &mut WordMem, room: &mut Room, rec: u64, len: u64, next: u64) -> u64
    requires places { IsRoom room.old mem.old }
    requires words { room.old.top + 6 ≤ room.old.end }
    ensures uses { Uses 6 room.old room.new mem.old mem.new }
    ensures place { result ≡ boxed_word room.old.top }
    ensures words { Lie mem.new room.old.top (head_word HOLDER 5 ∷ len ∷ next ∷ rec ∷ 0 ∷ 0 ∷ []) }
    ensures made { (c d : ℕ → ℕ → Bool) (shared : List (List ℕ)) (id : ℕ) → Taken of_holder c d room.old.top 6
        → IsRecordOf c shared mem.old rec len id → Stands d shared mem.new result (Shared id) }
    ensures kept { (roles : ℕ → ℕ) (c d : ℕ → ℕ → Bool) → Taken roles c d room.old.top 6 → Keeps c d mem.old mem.new }
    ensures built { (c : ℕ → ℕ → Bool) (shared : List (List ℕ)) (id : ℕ) → IsFree c room.old.top (room.old.top + 6)
        → IsRecordOf c shared mem.old rec len id → BuiltLink c room.old.top 6 mem.old mem.new shared result (Shared id) }
    ensures made_clear { (shared : List (List ℕ)) (id : ℕ) → IsRecordOf (outside room.old.top room.old.end) shared mem.old rec len id
        → Clear room.new shared mem.new result (Shared id) }
    ensures kept_clear { KeepsClear room.old room.new mem.old mem.new }
{
    mem.bounded();
    let place = put(mem, room, &[head_of(HOLDER, 5), len, next, rec, 0, 0]);
    boxed_at(place)
}
