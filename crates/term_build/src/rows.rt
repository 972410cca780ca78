// Words are written side by side.
ghost use Rattle.std.specs.Prelude.{◌≡◌, ℕ, ◌+◌, ◌<◌, ◌≤◌, ◌⊎◌, length, slice_index};
ghost use Rattle.term_build.specs.Taken.{Lie};
ghost use Rattle.term_build.specs.Clear.{IsRoom, Uses};

use word_mem::{Room, WordMem};

// Takes the first free words of the room for these words, and answers the place of the first.
pub fn put(mem: &mut WordMem, room: &mut Room, words: &[u64]) -> u64
    requires places { IsRoom room.old mem.old }
    requires words { room.old.top + length words.now ≤ room.old.end }
    ensures uses { Uses (length words.now) room.old room.new mem.old mem.new }
    ensures words { Lie mem.new room.old.top words.now }
    ensures place { result ≡ room.old.top }
{
    mem.bounded();
    let place = room.top;
    put_row(mem, place, words);
    room.top = place + words.len() as u64;
    place
}

// Writes the words from a place on.
pub fn put_row(mem: &mut WordMem, at: u64, words: &[u64])
    requires { at + length words.now ≤ length mem.old }
    ensures row { (q i : ℕ) → i < length words.now → q ≡ at + i → slice_index mem.new q ≡ slice_index words.now i }
    ensures others { (q : ℕ) → (q < at) ⊎ (at + length words.now ≤ q) → slice_index mem.new q ≡ slice_index mem.old q }
    ensures same_len { length mem.new ≡ length mem.old }
{
    mem.bounded();
    for (i, w) in words.iter().enumerate() {
        mem.set(at + i as u64, *w);
    }
}
