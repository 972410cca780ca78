// Memories laid out by hand.
ghost use Rattle.std.specs.Prelude.{◌≡◌, ◌≤◌, ◌^◌, length, IfOk};

use std::alloc::Global;
use word_mem::{OpenFault, Room, WordMem};

// A memory of these words.
pub(crate) fn laid(alloc: Global, words: &[u64]) -> Result<WordMem, OpenFault>
    requires least { 1 ≤ length words.now }
    requires most { length words.now ≤ 2 ^ 24 }
    ensures { IfOk result (λ m. m ≡ words.now) }
{
    let mut mem = WordMem::new(alloc, words.len() as u64)?;
    for i in 0..words.len() {
        mem.set(i as u64, words[i]);
    }
    Ok(mem)
}

// Whether the memory holds these words from a place on.
pub(crate) fn holds(mem: &WordMem, from: u64, words: &[u64]) -> bool
    requires { from ≤ 2 ^ 24 }
{
    let len = mem.len();
    for i in 0..words.len() {
        let place = from + i as u64;
        if place >= len {
            return false;
        }
        if mem.get(place) != words[i] {
            return false;
        }
    }
    true
}

// An empty room.
pub(crate) fn empty(start: u64, end: u64) -> Room
    requires { start ≤ end }
    ensures { result ≡ record { start = start; top = start; end = end } }
{
    Room {
        start,
        top: start,
        end,
    }
}
