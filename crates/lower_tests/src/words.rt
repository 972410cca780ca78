// A memory of words is written and copied, where ranges overlap too, and objects are built in its free words.
ghost use Rattle.std.specs.Prelude.{◌≡◌, ◌≤◌, ◌^◌, length};

use crate::term_parts::parts_are_read;
use std::alloc::Global;
use term_build::{cons, tuple};
use term_tags::{nil, small};
use word_mem::{Room, WordMem};

// What is tried on a new memory.
#[derive(Clone, Copy)]
pub(crate) enum Trial {
    // The words 1 to 6 are copied from a place to a place, so many, and then these stand.
    Copies(u64, u64, u64, [u64; 6]),
    // The words of its first half are copied to the second.
    Doubles,
    Builds,
    Reads,
}

// Memories of so many words.
const TRIALS: [(u64, Trial); 8] = [
    (6, Trial::Copies(0, 2, 4, [1, 2, 1, 2, 3, 4])),
    (6, Trial::Copies(2, 0, 4, [3, 4, 5, 6, 5, 6])),
    (6, Trial::Copies(0, 4, 2, [1, 2, 3, 4, 1, 2])),
    (6, Trial::Copies(3, 3, 3, [1, 2, 3, 4, 5, 6])),
    (6, Trial::Copies(6, 0, 0, [1, 2, 3, 4, 5, 6])),
    (16, Trial::Doubles),
    (18, Trial::Doubles),
    (8, Trial::Builds),
];

// The cons of 2 and nil, then the tuple of 1 and the cons.
const BUILT: [u64; 5] = [47, 59, 128, 31, 1];

// Whether the words are the first of a memory.
fn are_first(mem: &WordMem, words: &[u64]) -> bool {
    for (at, word) in words.iter().enumerate() {
        if at as u64 >= mem.len() || mem.get(at as u64) != *word {
            return false;
        }
    }
    true
}

// Writes 1 to n at the first places of a new memory, whose last word must be 0.
fn counted(mem: &mut WordMem, n: u64) -> bool
    requires some { 1 ≤ length mem.old }
    requires inside { n ≤ length mem.old }
    ensures { length mem.new ≡ length mem.old }
{
    let is_new = mem.get(mem.len() - 1) == 0;
    for at in 0..n {
        mem.set(at, at + 1);
    }
    is_new
}

fn copies(mem: &mut WordMem, src: u64, dst: u64, n: u64, after: &[u64]) -> bool {
    if mem.len() != 6 || n > 6 || src > 6 - n || dst > 6 - n {
        return false;
    }
    let is_new = counted(mem, 6);
    mem.copy_words(src, dst, n);
    is_new && are_first(mem, after)
}

fn doubles(mem: &mut WordMem) -> bool {
    let n = mem.len() / 2;
    if n == 0 || !counted(mem, n) {
        return false;
    }
    mem.copy_apart(0, n, n);
    for at in 0..2 * n {
        if mem.get(at) != at % n + 1 {
            return false;
        }
    }
    true
}

fn builds(mem: &mut WordMem) -> bool {
    if mem.len() != 8 {
        return false;
    }
    let mut room = Room {
        start: 0,
        top: 0,
        end: 8,
    };
    let list = cons(mem, &mut room, small(2), nil());
    let word = tuple(mem, &mut room, &[small(1), list]);
    list == 1 && word == 10 && room.top == 5 && are_first(mem, &BUILT)
}

pub(crate) fn holds(alloc: Global, words: u64, trial: Trial) -> bool
    requires { (1 ≤ words) × (words ≤ 2 ^ 24) }
{
    let Ok(mut mem) = WordMem::new(alloc, words) else {
        return false;
    };
    match trial {
        Trial::Copies(src, dst, n, after) => copies(&mut mem, src, dst, n, &after),
        Trial::Doubles => doubles(&mut mem),
        Trial::Builds => builds(&mut mem),
        Trial::Reads => parts_are_read(&mut mem),
    }
}

#[test]
fn memories_are_written_copied_and_built_in(rt: HostRuntime) {
    for (words, trial) in &TRIALS {
        assert!(rt; holds(rt.alloc(), *words, *trial));
    }
}
