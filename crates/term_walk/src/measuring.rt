// The measures of a term.
ghost use Rattle.std.specs.Prelude.{◌≡◌, ℕ, ◌≤◌, Bool, List, IfNone, IfSome};
ghost use Rattle.plain_term.specs.Tree.{Tree};
ghost use Rattle.plain_term.specs.Beyond.{is_beyond as beyond};
ghost use Rattle.term_words.specs.Stands.{Stands, IsTerm};
ghost use Rattle.term_walk.specs.Measured.{Measures};

use crate::levels::{DEPTH_LIMIT, FEW_LEVELS, Further, NODE_LIMIT, Rest, go_on};
use crate::measured::{Measure, Measured};
use crate::runs::{cells_left, pass_cells};
use crate::weights::{own_flat, own_nodes};
use arrayvec::ArrayVec;
use term_read::look_at;
use word_mem::WordMem;

/// Measures a term, on a walk that ends at the walk limit.
pub fn measure(mem: &WordMem, w: u64) -> Measured
    requires { IsTerm mem.now w }
    ensures { Measures mem.now w result }
{
    if w % 4 == 3 {
        return Measured::Within(Measure { nodes: 1, flat: 0 });
    }
    if let Some(found) = measure_on::<FEW_LEVELS>(mem, w) {
        return found;
    }
    measure_deep(mem, w)
}

/// Whether a term is beyond the walk limit.
pub fn is_beyond(mem: &WordMem, w: u64) -> bool
    requires { IsTerm mem.now w }
    ensures { (c : ℕ → ℕ → Bool) (shared : List (List ℕ)) (t : Tree) → Stands c shared mem.now w t → result ≡ beyond shared t }
{
    match measure(mem, w) {
        Measured::Within(_) => false,
        Measured::Beyond => true,
    }
}

// Measures a term on all levels of a walk.
#[cold]
#[inline(never)]
fn measure_deep(mem: &WordMem, w: u64) -> Measured
    requires { IsTerm mem.now w }
    ensures { Measures mem.now w result }
{
    match measure_on::<DEPTH_LIMIT>(mem, w) {
        Some(found) => found,
        None => Measured::Beyond,
    }
}

// Measures a term on a walk of `N` levels; `None` where they do not suffice.
fn measure_on<const N: usize>(mem: &WordMem, w: u64) -> Option<Measured>
    requires most { N ≤ DEPTH_LIMIT }
    requires term { IsTerm mem.now w }
    ensures found { IfSome result (Measures mem.now w) }
    ensures deep { IfNone result (N ≡ DEPTH_LIMIT → Measures mem.now w Measured.Beyond) }
{
    mem.bounded();
    let mut levels: ArrayVec<Rest, N> = ArrayVec::new();
    let mut word = w;
    let mut nodes = 0;
    let mut flat = 0;
    loop {
        let passed = pass_cells(mem, word, cells_left(&levels, nodes));
        let look = look_at(mem, passed.word);
        nodes += 2 * passed.cells + own_nodes(look);
        if nodes > NODE_LIMIT {
            return Some(Measured::Beyond);
        }
        flat += 2 * passed.cells + own_flat(mem, look);
        match go_on(mem, &mut levels, look) {
            Further::Word(next) => word = next,
            Further::End => return Some(Measured::Within(Measure { nodes, flat })),
            Further::TooDeep => return None,
        }
    }
}
