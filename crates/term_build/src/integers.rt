// Integers, small and big.
ghost use Rattle.std.specs.Prelude.{◌≡◌, ℕ, ◌+◌, ◌^◌, ◌<◌, ◌≤◌, Bool, true, false, List};
ghost use Rattle.term_tags.specs.Words.{boxed_word, small_word};
ghost use Rattle.plain_term.specs.Measures.{is_small, magnitude, int_flat};
ghost use Rattle.plain_term.specs.Tree.Tree.{Int};
ghost use Rattle.term_words.specs.Object.{sign_tag};
ghost use Rattle.term_words.specs.Stands.{Stands};
ghost use Rattle.term_words.specs.Kept.{Keeps};
ghost use Rattle.term_build.specs.Taken.{Taken, IsFree, Lie, plain};
ghost use Rattle.term_build.specs.Grows.{Built};
ghost use Rattle.term_build.specs.Parts.{integer_words};
ghost use Rattle.term_build.specs.Clear.{IsRoom, Clear, KeepsClear, Uses};

use crate::rows::put;
use term_tags::{NEG_BIG, POS_BIG, boxed_at, head_of, small};
use word_mem::{Room, WordMem};

/// An integer of magnitude below 2^127: no word where it is small, else two or three.
pub fn integer(mem: &mut WordMem, room: &mut Room, i: i128) -> u64
    requires places { IsRoom room.old mem.old }
    requires range { magnitude i < 2 ^ 127 }
    requires words { room.old.top + int_flat i ≤ room.old.end }
    ensures uses { Uses (int_flat i) room.old room.new mem.old mem.new }
    ensures small { is_small i ≡ true → result ≡ small_word i }
    ensures place { is_small i ≡ false → result ≡ boxed_word room.old.top }
    ensures words { Lie mem.new room.old.top (integer_words i) }
    ensures made { (c d : ℕ → ℕ → Bool) (shared : List (List ℕ)) → Taken plain c d room.old.top (int_flat i) → Stands d shared mem.new result (Int i) }
    ensures kept { (roles : ℕ → ℕ) (c d : ℕ → ℕ → Bool) → Taken roles c d room.old.top (int_flat i) → Keeps c d mem.old mem.new }
    ensures built { (c : ℕ → ℕ → Bool) (shared : List (List ℕ)) → IsFree c room.old.top (room.old.top + int_flat i)
        → Built c room.old.top (int_flat i) mem.old mem.new shared result (Int i) }
    ensures made_clear { (shared : List (List ℕ)) → Clear room.new shared mem.new result (Int i) }
    ensures kept_clear { KeepsClear room.old room.new mem.old mem.new }
{
    put_integer(mem, room, i)
}

// The word of the integer, whose object takes free words of the room where it is not small.
fn put_integer(mem: &mut WordMem, room: &mut Room, i: i128) -> u64
    requires places { IsRoom room.old mem.old }
    requires range { magnitude i < 2 ^ 127 }
    requires words { room.old.top + int_flat i ≤ room.old.end }
    ensures uses { Uses (int_flat i) room.old room.new mem.old mem.new }
    ensures small { is_small i ≡ true → result ≡ small_word i }
    ensures place { is_small i ≡ false → result ≡ boxed_word room.old.top }
    ensures words { Lie mem.new room.old.top (integer_words i) }
{
    if -(1 << 59) <= i && i < 1 << 59 {
        return small(i as i64);
    }
    mem.bounded();
    let tag = sign_tag(i);
    let digits = i.unsigned_abs();
    let low = (digits % (1 << 64)) as u64;
    let high = (digits / (1 << 64)) as u64;
    if high == 0 {
        boxed_at(put(mem, room, &[head_of(tag, 1), low]))
    } else {
        boxed_at(put(mem, room, &[head_of(tag, 2), low, high]))
    }
}

// The subtag of a big integer.
fn sign_tag(i: i128) -> u8
    ensures { result ≡ sign_tag i }
{
    if i < 0 { NEG_BIG } else { POS_BIG }
}
