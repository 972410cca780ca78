// A term in many places.
ghost use Rattle.std.specs.Prelude.{◌≡◌, ℕ, ◌+◌, ◌*◌, ◌≤◌, Bool, List};
ghost use Rattle.plain_term.specs.Tree.{Tree, same_trees};
ghost use Rattle.term_words.specs.Stands.{Stands};
ghost use Rattle.term_build.specs.Taken.{IsFree};
ghost use Rattle.term_build.specs.Grows.{Built};
ghost use Rattle.term_build.specs.Clear.{IsRoom, Uses};
ghost use Rattle.plain_term.specs.Tree.Tree.{Nil};
ghost use Rattle.plain_machine.specs.Made.{list_tree};
ghost use Rattle.plain_machine.specs.Parts.{repeated as tree_by};
ghost use Rattle.plain_machine.specs.Tightness.{repeat_words as words_by};

use plain_machine::{MOST_PLACES, Shape};
use term_build::{cons, same_tuple};
use term_tags::nil;
use word_mem::{Room, WordMem};

/// The words of a tuple or a list of so many places.
pub fn repeat_words(shape: Shape, n: u64) -> u64
    requires { n ≤ MOST_PLACES }
    ensures { result ≡ words_by shape n }
{
    match shape {
        Shape::Tuple => 1 + n,
        Shape::List => 2 * n,
    }
}

/// A tuple or a list of `n` times the term.
pub fn repeated(mem: &mut WordMem, room: &mut Room, shape: Shape, n: u64, w: u64) -> u64
    requires few { n ≤ MOST_PLACES }
    requires places { IsRoom room.old mem.old }
    requires words { room.old.top + words_by shape n ≤ room.old.end }
    ensures uses { Uses (words_by shape n) room.old room.new mem.old mem.new }
    ensures built { (c : ℕ → ℕ → Bool) (shared : List (List ℕ)) (t : Tree) → IsFree c room.old.top (room.old.top + words_by shape n)
        → Stands c shared mem.old w t
        → Built c room.old.top (words_by shape n) mem.old mem.new shared result (tree_by shape n t) }
{
    match shape {
        Shape::Tuple => same_tuple(mem, room, n, w),
        Shape::List => same_list(mem, room, n, w),
    }
}

// A list of `n` times the term, built from its end in two words for each place.
fn same_list(mem: &mut WordMem, room: &mut Room, n: u64, w: u64) -> u64
    requires places { IsRoom room.old mem.old }
    requires words { room.old.top + 2 * n ≤ room.old.end }
    ensures uses { Uses (2 * n) room.old room.new mem.old mem.new }
    ensures built { (c : ℕ → ℕ → Bool) (shared : List (List ℕ)) (t : Tree) → IsFree c room.old.top (room.old.top + 2 * n) → Stands c shared mem.old w t
        → Built c room.old.top (2 * n) mem.old mem.new shared result (list_tree (same_trees n t) Nil) }
{
    let mut list = nil();
    for i in 0..n {
        list = cons(mem, room, w, list);
    }
    list
}
