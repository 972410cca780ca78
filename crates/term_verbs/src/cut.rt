// A part of a binary.
ghost use Rattle.std.specs.Prelude.{◌≡◌, ℕ, ◌+◌, ◌≤◌, ◌<◌, ◌^◌, Bool, List, IfSome, Some, is_some};
ghost use Rattle.plain_term.specs.Tree.{Tree};
ghost use Rattle.plain_machine.specs.Parts.{part_in};
ghost use Rattle.term_words.specs.Stands.{IsTerm, Stands};
ghost use Rattle.term_build.specs.Taken.{IsFree};
ghost use Rattle.term_build.specs.Grows.{Built};
ghost use Rattle.term_build.specs.Clear.{IsRoom, Uses};
ghost use Rattle.term_verbs.specs.Cut.{HasPart, IsCut};

use term_build::sub_bin;
use term_read::{Look, look_at};
use word_mem::{Room, WordMem};

// The bytes of a binary: the word of the binary that has them, which is no part of another, the first of them there, and how
// many they are.
#[derive(Clone, Copy)]
pub struct Cut {
    pub base: u64,
    pub start: u64,
    pub len: u64,
}

/// Whether the term is a binary that has `len` bytes from byte `offset` on.
pub fn has_part(mem: &WordMem, w: u64, offset: u64, len: u64) -> bool
    requires { IsTerm mem.now w }
    ensures { (c : ℕ → ℕ → Bool) (shared : List (List ℕ)) (t : Tree) → Stands c shared mem.now w t → result ≡ is_some (part_in shared offset len t) }
{
    let Some(cut) = cut_of(mem, w) else {
        return false;
    };
    offset <= cut.len && len <= cut.len - offset
}

/// The part of `len` bytes from byte `offset` on of a binary, in five words. The part of a part is one of the same original.
pub fn sub_part(mem: &mut WordMem, room: &mut Room, w: u64, offset: u64, len: u64) -> u64
    requires places { IsRoom room.old mem.old }
    requires words { room.old.top + 5 ≤ room.old.end }
    requires part { HasPart mem.old w offset len }
    ensures uses { Uses 5 room.old room.new mem.old mem.new }
    ensures built { (c : ℕ → ℕ → Bool) (shared : List (List ℕ)) (t u : Tree) → IsFree c room.old.top (room.old.top + 5) → Stands c shared mem.old w t
        → part_in shared offset len t ≡ Some u → Built c room.old.top 5 mem.old mem.new shared result u }
{
    let Some(cut) = cut_of(mem, w) else {
        unreachable!()
    };
    sub_bin(mem, room, cut.base, cut.start + offset, len)
}

// Where the bytes of a binary are; `None` where the term is none.
fn cut_of(mem: &WordMem, w: u64) -> Option<Cut>
    requires { IsTerm mem.now w }
    ensures cut { (c : ℕ → ℕ → Bool) (shared : List (List ℕ)) (t : Tree) → Stands c shared mem.now w t → IsCut c shared mem.now t result }
    ensures small { IfSome result (λ cut. (n : ℕ) → n ≤ cut.len → cut.start + n < 2 ^ 64) }
{
    mem.bounded();
    match look_at(mem, w) {
        Look::Heap(bytes) | Look::Holder(bytes) => Some(Cut {
            base: w,
            start: 0,
            len: bytes.len,
        }),
        Look::Part(part) => Some(Cut {
            base: part.base,
            start: part.bytes.start,
            len: part.bytes.len,
        }),
        _ => None,
    }
}
