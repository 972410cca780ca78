// The order of two terms.
ghost use Rattle.std.specs.Prelude.{◌≡◌, ℕ, ◌*◌, ◌<◌, ◌≤◌, Bool, false, List, reverse, IfNone, IfSome};
ghost use Rattle.plain_term.specs.Tree.{Tree};
ghost use Rattle.term_words.specs.Stands.{Stands, IsTerm};
ghost use Rattle.term_walk.specs.Left.{CanGo};
ghost use Rattle.term_order.specs.Compared.{AreNamed, Compares, BothWithin, IsDeeper, Orders, StepsOn, at_end};
ghost use Rattle.term_order.specs.Runs.{is_beyond_after};

use crate::compared::Compared;
use crate::looks::order_looks;
use crate::runs::{Pair, pass_same};
use crate::same::is_same;
use arrayvec::ArrayVec;
use atom_names::AtomNames;
use std::cmp::Ordering;
use term_read::{Look, look_at};
use term_walk::{
    DEPTH_LIMIT, FEW_LEVELS, Further, Measured, NODE_LIMIT, Rest, go_on, measure, next_word,
};
use word_mem::WordMem;

// Behind fewer cells than these, a term that is found to be the same in few nodes is within the walk limit.
const FEW_CELLS: u64 = 524_000;

/// The order of two terms; `Beyond` exactly where one of them is beyond the walk limit.
pub fn compare(mem: &WordMem, names: &AtomNames, a: u64, b: u64) -> Compared
    requires { AreNamed mem.now names.now a b }
    ensures { Compares mem.now names.now a b result }
{
    let behind = pass_same(mem, a, b, NODE_LIMIT / 2);
    if behind.cells < FEW_CELLS {
        if is_same(mem, behind.left, behind.right) {
            return Compared::Same;
        }
    }
    if is_beyond_behind(mem, behind.left, behind.cells) {
        return Compared::Beyond;
    }
    if is_other_beyond(mem, behind) {
        return Compared::Beyond;
    }
    match order_within(mem, names, behind.left, behind.right) {
        Ordering::Less => Compared::Less,
        Ordering::Equal => Compared::Same,
        Ordering::Greater => Compared::More,
    }
}

// Whether a term behind so many cells of a list makes the list one beyond the walk limit.
fn is_beyond_behind(mem: &WordMem, w: u64, cells: u64) -> bool
    requires term { IsTerm mem.now w }
    requires few { 2 * cells ≤ NODE_LIMIT }
    ensures { (c : ℕ → ℕ → Bool) (shared : List (List ℕ)) (t : Tree) → Stands c shared mem.now w t → result ≡ is_beyond_after shared cells t }
{
    match measure(mem, w) {
        Measured::Within(found) => found.nodes > NODE_LIMIT - 2 * cells,
        Measured::Beyond => true,
    }
}

// The same of the right one, where the left one is not beyond the walk limit.
fn is_other_beyond(mem: &WordMem, behind: Pair) -> bool
    requires term { IsTerm mem.now behind.right }
    requires few { 2 * behind.cells ≤ NODE_LIMIT }
    requires left { (c : ℕ → ℕ → Bool) (shared : List (List ℕ)) (t : Tree) → Stands c shared mem.now behind.left t
        → false ≡ is_beyond_after shared behind.cells t }
    ensures { (c : ℕ → ℕ → Bool) (shared : List (List ℕ)) (t : Tree) → Stands c shared mem.now behind.right t → result ≡ is_beyond_after shared behind.cells t }
{
    if behind.left == behind.right {
        return false;
    }
    is_beyond_behind(mem, behind.right, behind.cells)
}

// The order of two terms within the walk limit: of two equal words, of two whose own order tells it, or by walks.
#[inline(never)]
fn order_within(mem: &WordMem, names: &AtomNames, a: u64, b: u64) -> Ordering
    requires named { AreNamed mem.now names.now a b }
    requires within { BothWithin mem.now a b }
    ensures { Orders mem.now names.now a b result }
{
    if a == b {
        return Ordering::Equal;
    }
    let l = look_at(mem, a);
    let m = look_at(mem, b);
    let order = order_looks(mem, names, l, m);
    if order != Ordering::Equal {
        return order;
    }
    if let Some(order) = order_on::<FEW_LEVELS>(mem, names, a, b) {
        return order;
    }
    order_deep(mem, names, a, b)
}

// The same on all levels of a walk.
#[cold]
#[inline(never)]
fn order_deep(mem: &WordMem, names: &AtomNames, a: u64, b: u64) -> Ordering
    requires named { AreNamed mem.now names.now a b }
    requires within { BothWithin mem.now a b }
    ensures { Orders mem.now names.now a b result }
{
    match order_on::<DEPTH_LIMIT>(mem, names, a, b) {
        Some(order) => order,
        None => unreachable!(),
    }
}

// The same on walks of `N` levels: the order of the first words of the walks that differ. Where both walks are at one word,
// they pass over its parts. `None` where the levels do not suffice.
fn order_on<const N: usize>(mem: &WordMem, names: &AtomNames, a: u64, b: u64) -> Option<Ordering>
    requires most { N ≤ DEPTH_LIMIT }
    requires named { AreNamed mem.now names.now a b }
    requires within { BothWithin mem.now a b }
    ensures orders { IfSome result (Orders mem.now names.now a b) }
    ensures deep { IfNone result (N < DEPTH_LIMIT) }
{
    let mut left: ArrayVec<Rest, N> = ArrayVec::new();
    let mut right: ArrayVec<Rest, N> = ArrayVec::new();
    let mut x = a;
    let mut y = b;
    let mut steps: u64 = 0;
    loop {
        if x == y {
            let p = next_word(mem, &mut left);
            let q = next_word(mem, &mut right);
            let Some(p) = p else {
                return Some(ended(q));
            };
            let Some(q) = q else {
                return Some(Ordering::Greater);
            };
            x = p;
            y = q;
            steps += 1;
            continue;
        }
        let l = look_at(mem, x);
        let m = look_at(mem, y);
        let order = order_looks(mem, names, l, m);
        if order != Ordering::Equal {
            return Some(order);
        }
        let Some(first) = next(mem, &mut left, l) else {
            return None;
        };
        let Some(second) = next(mem, &mut right, m) else {
            return None;
        };
        let Some(p) = first else {
            return Some(ended(second));
        };
        let Some(q) = second else {
            return Some(Ordering::Greater);
        };
        x = p;
        y = q;
        steps += 1;
    }
}

// The order of a list of terms at its end and another of which this is next.
fn ended(next: Option<u64>) -> Ordering
    ensures { result ≡ at_end next }
{
    match next {
        Some(_) => Ordering::Less,
        None => Ordering::Equal,
    }
}

// The next word of a walk, if it has one; `None` where the word's parts lie deeper than there are levels.
fn next<const N: usize>(
    mem: &WordMem,
    levels: &mut ArrayVec<Rest, N>,
    look: Look,
) -> Option<Option<u64>>
    requires most { N ≤ DEPTH_LIMIT }
    requires go { CanGo mem.now (reverse levels.old.items) look }
    ensures steps { IfSome result (λ next. StepsOn mem.now (reverse levels.old.items) look next (reverse levels.new.items)) }
    ensures deep { IfNone result (IsDeeper N mem.now (reverse levels.old.items) look) }
{
    match go_on(mem, levels, look) {
        Further::Word(word) => Some(Some(word)),
        Further::End => Some(None),
        Further::TooDeep => None,
    }
}
