// Binaries with their bytes on the heap.
ghost use Rattle.std.specs.Prelude.{◌≡◌, ℕ, ◌+◌, ◌<◌, ◌≤◌, Bool, List, [], ◌∷◌, length, slice_index};
ghost use Rattle.term_tags.specs.Words.{boxed_word, head_word};
ghost use Rattle.term_tags.specs.declared.layouts.TheConstants.{HEAP_BIN, MOST_HEAP_BYTES};
ghost use Rattle.plain_term.specs.Measures.{bin_words};
ghost use Rattle.plain_term.specs.Tree.Tree.{Bin};
ghost use Rattle.term_words.specs.Object.{BytesLie, byte_of};
ghost use Rattle.term_words.specs.Stands.{Stands};
ghost use Rattle.term_words.specs.Kept.{Keeps};
ghost use Rattle.term_build.specs.Taken.{Taken, IsFree, Lie, plain};
ghost use Rattle.term_build.specs.Grows.{Built};
ghost use Rattle.term_build.specs.Clear.{IsRoom, Clear, KeepsClear, Uses};

use crate::rows::put;
use term_tags::{HEAP_BIN, boxed_at, head_of};
use word_mem::{Room, WordMem};

/// The binary of these bytes, at most 64, in two words and one for each eight bytes begun.
pub fn heap_bin(mem: &mut WordMem, room: &mut Room, bytes: &[u8]) -> u64
    requires places { IsRoom room.old mem.old }
    requires few { length bytes.now ≤ MOST_HEAP_BYTES }
    requires words { room.old.top + (2 + bin_words (length bytes.now)) ≤ room.old.end }
    ensures uses { Uses (2 + bin_words (length bytes.now)) room.old room.new mem.old mem.new }
    ensures place { result ≡ boxed_word room.old.top }
    ensures words { Lie mem.new room.old.top (head_word HEAP_BIN (1 + bin_words (length bytes.now)) ∷ length bytes.now ∷ []) }
    ensures bytes { BytesLie mem.new (room.old.top + 2) bytes.now }
    ensures made { (c d : ℕ → ℕ → Bool) (shared : List (List ℕ)) → Taken plain c d room.old.top (2 + bin_words (length bytes.now))
        → Stands d shared mem.new result (Bin bytes.now) }
    ensures kept { (roles : ℕ → ℕ) (c d : ℕ → ℕ → Bool) → Taken roles c d room.old.top (2 + bin_words (length bytes.now)) → Keeps c d mem.old mem.new }
    ensures built { (c : ℕ → ℕ → Bool) (shared : List (List ℕ)) → IsFree c room.old.top (room.old.top + (2 + bin_words (length bytes.now)))
        → Built c room.old.top (2 + bin_words (length bytes.now)) mem.old mem.new shared result (Bin bytes.now) }
    ensures made_clear { (shared : List (List ℕ)) → Clear room.new shared mem.new result (Bin bytes.now) }
    ensures kept_clear { KeepsClear room.old room.new mem.old mem.new }
{
    mem.bounded();
    let count = bytes.len() as u64;
    let place = put(mem, room, &[head_of(HEAP_BIN, 1 + (count + 7) / 8), count]);
    put_bytes(mem, room, bytes);
    boxed_at(place)
}

// Takes the first free words of the room for the bytes.
fn put_bytes(mem: &mut WordMem, room: &mut Room, bytes: &[u8])
    requires places { IsRoom room.old mem.old }
    requires words { room.old.top + bin_words (length bytes.now) ≤ room.old.end }
    ensures uses { Uses (bin_words (length bytes.now)) room.old room.new mem.old mem.new }
    ensures bytes { BytesLie mem.new room.old.top bytes.now }
{
    mem.bounded();
    let place = room.top;
    let words = (bytes.len() + 7) / 8;
    for j in 0..words {
        mem.set(place + j as u64, word_at(bytes, j * 8));
    }
    room.top = place + words as u64;
}

// Eight bytes from one on as a word, the lowest byte first; past the end each is 0.
fn word_at(bytes: &[u8], from: usize) -> u64
    requires { from ≤ length bytes.now }
    ensures { (i k : ℕ) → k < 8 → i ≡ from + k → byte_of result k ≡ slice_index bytes.now i }
{
    // The length of a row is one of the machine, so that a place in it and 7 more has no overflow.
    let _len = bytes.len();
    u64::from_le_bytes([
        byte_at(bytes, from),
        byte_at(bytes, from + 1),
        byte_at(bytes, from + 2),
        byte_at(bytes, from + 3),
        byte_at(bytes, from + 4),
        byte_at(bytes, from + 5),
        byte_at(bytes, from + 6),
        byte_at(bytes, from + 7),
    ])
}

// A byte, 0 past the end.
fn byte_at(bytes: &[u8], i: usize) -> u8
    ensures { result ≡ slice_index bytes.now i }
{
    bytes.get(i).copied().unwrap_or(0)
}
