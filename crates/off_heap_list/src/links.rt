// The words of a holder or fun that lead to the next object and to its record.
ghost use Rattle.std.specs.Prelude.{◌≡◌, ℕ, ◌+◌, ◌<◌, ◌≤◌, Bool, true, List, length, slice_index, slice_set};
ghost use Rattle.term_words.specs.Role.{NAMES, IsSingle, Idle};
ghost use Rattle.term_words.specs.Kept.{Keeps};
ghost use Rattle.off_heap_list.specs.Links.{name_place, named, next_in, SameContent};

use term_tags::{HOLDER, head_of};
use word_mem::WordMem;

/// The place of the object after this one, 0 at the end of a chain.
#[inline]
pub fn next_of(mem: &WordMem, object: u64) -> u64
    requires { object + 6 ≤ length mem.now }
    ensures { result ≡ next_in mem.now object }
{
    mem.bounded();
    mem.get(object + 2)
}

/// The place of the record that the object names.
#[inline]
pub fn record_of(mem: &WordMem, object: u64) -> u64
    requires { object + 6 ≤ length mem.now }
    ensures { result ≡ named mem.now object }
{
    mem.get(name_of(mem, object))
}

// The place of the word that names the object's record.
fn name_of(mem: &WordMem, object: u64) -> u64
    requires { object + 6 ≤ length mem.now }
    ensures place { result ≡ name_place mem.now object }
    ensures inside { result < length mem.now }
{
    mem.bounded();
    if mem.get(object) == head_of(HOLDER, 5) {
        object + 3
    } else {
        object + 1
    }
}

/// Lets this object lead to the one at `next`, 0 for none. Counts stay.
pub fn set_next(mem: &mut WordMem, object: u64, next: u64)
    requires { object + 6 ≤ length mem.old }
    ensures writes { mem.new ≡ slice_set mem.old (object + 2) next }
    ensures kept { (c : ℕ → ℕ → Bool) → Idle c (object + 2) → Keeps c c mem.old mem.new }
{
    mem.bounded();
    mem.set(object + 2, next);
}

/// Lets this object name the record at `at`. Counts stay; trees keep standing where that record has the content of the one
/// that was named before.
pub fn set_record(mem: &mut WordMem, object: u64, at: u64)
    requires { object + 6 ≤ length mem.old }
    ensures writes { mem.new ≡ slice_set mem.old (name_place mem.old object) at }
    ensures kept { (c : ℕ → ℕ → Bool) → IsSingle c → c (name_place mem.old object) NAMES ≡ true
        → SameContent c mem.old (named mem.old object) at → Keeps c c mem.old mem.new }
{
    let place = name_of(mem, object);
    mem.set(place, at);
}
