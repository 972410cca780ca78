// Nodes, depth and flat size of a tree.
#![tactic(auto, using(crate::proofs::ViewLemmas::view_steps))]

ghost use Rattle.std.specs.Prelude.{◌≡◌, ◌+◌, ◌*◌, ◌-◌, ◌^◌, ℕ, min, List, [], map, length, IsTrue};
ghost use Rattle.plain_term.specs.View.{view, trees_of, pairs_of, pair_of, has_no_shared};
ghost use Rattle.plain_term.specs.Measures.{nodes as nodes_of, nodes_of_all, nodes_of_pairs, bin_nodes, bin_words, int_flat, depth as depth_of, greatest_depth, greatest_depth_of_pairs, flat as flat_of, flat_of_all, flat_of_pairs};

use crate::tree::{Tree, bytes};

/// The nodes of a term, up to 2^64 - 1. The length of a shared binary is not in the tree: one that is
/// named counts as if it had no bytes.
pub fn nodes(t: &Tree) -> u64
    ensures value { result ≡ min (nodes_of [] (view t.now)) (2 ^ 64 - 1) }
    ensures exact { (shared : List (List ℕ)) → IsTrue (has_no_shared (view t.now)) → result ≡ min (nodes_of shared (view t.now)) (2 ^ 64 - 1) }
{
    count_nodes(t)
}

#[cycle(count)]
fn count_nodes(t: &Tree) -> u64
    ensures { result ≡ min (nodes_of [] (view t.now)) (2 ^ 64 - 1) }
{
    match t {
        Tree::Cons(head, tail) => count_nodes(head.get())
            .saturating_add(count_nodes(tail.get()))
            .saturating_add(1),
        Tree::Tuple(parts) => count_all_nodes(parts.as_slice()).saturating_add(1),
        Tree::Map(pairs) => count_pair_nodes(pairs.as_slice()).saturating_add(1),
        Tree::Fun(_, _, _, env) => count_all_nodes(env.as_slice()).saturating_add(1),
        Tree::Bin(_) | Tree::Part(..) => binary_nodes(bytes(t)),
        _ => 1,
    }
}

#[cycle(count)]
fn count_all_nodes(ts: &[Tree]) -> u64
    ensures { result ≡ min (nodes_of_all [] (trees_of (map view ts.now))) (2 ^ 64 - 1) }
{
    let mut sum: u64 = 0;
    for t in ts {
        sum = sum.saturating_add(count_nodes(t));
    }
    sum
}

#[cycle(count)]
fn count_pair_nodes(ps: &[(Tree, Tree)]) -> u64
    ensures { result ≡ min (nodes_of_pairs [] (pairs_of (map pair_of ps.now))) (2 ^ 64 - 1) }
{
    let mut sum: u64 = 0;
    for (key, value) in ps {
        sum = sum
            .saturating_add(count_nodes(key))
            .saturating_add(count_nodes(value));
    }
    sum
}

// One node, and one for each 64 bytes begun.
fn binary_nodes(bytes: &[u8]) -> u64
    ensures { result ≡ bin_nodes (length bytes.now) }
{
    1 + bytes.len().div_ceil(64) as u64
}

/// How deep a term's tuples, maps, funs and heads of lists stand inside one another.
#[cycle(deep)]
pub fn depth(t: &Tree) -> u64
    ensures { result ≡ min (depth_of (view t.now)) (2 ^ 64 - 1) }
{
    match t {
        Tree::Cons(head, tail) => {
            let inside = depth(head.get()).saturating_add(1);
            inside.max(depth(tail.get()))
        }
        Tree::Tuple(parts) => deepest(parts.as_slice()).saturating_add(1),
        Tree::Map(pairs) => deepest_of_pairs(pairs.as_slice()).saturating_add(1),
        Tree::Fun(_, _, _, env) => deepest(env.as_slice()).saturating_add(1),
        _ => 0,
    }
}

#[cycle(deep)]
fn deepest(ts: &[Tree]) -> u64
    ensures { result ≡ min (greatest_depth (trees_of (map view ts.now))) (2 ^ 64 - 1) }
{
    let mut most: u64 = 0;
    for t in ts {
        most = most.max(depth(t));
    }
    most
}

#[cycle(deep)]
fn deepest_of_pairs(ps: &[(Tree, Tree)]) -> u64
    ensures { result ≡ min (greatest_depth_of_pairs (pairs_of (map pair_of ps.now))) (2 ^ 64 - 1) }
{
    let mut most: u64 = 0;
    for (key, value) in ps {
        most = most.max(depth(key)).max(depth(value));
    }
    most
}

/// The heap words of a copy of a term; the bytes of a shared binary are in no heap.
#[cycle(flat)]
pub fn flat(t: &Tree) -> u64
    ensures { result ≡ min (flat_of (view t.now)) (2 ^ 64 - 1) }
{
    match t {
        Tree::Int(i) => integer_words(*i),
        Tree::Ref(..) => 3,
        Tree::Cons(head, tail) => flat(head.get())
            .saturating_add(flat(tail.get()))
            .saturating_add(2),
        Tree::Tuple(parts) => flat_parts(parts.as_slice()).saturating_add(1),
        Tree::Map(pairs) => flat_pairs(pairs.as_slice()).saturating_add(4),
        Tree::Fun(_, _, _, env) => flat_parts(env.as_slice()).saturating_add(6),
        Tree::Bin(bytes) => binary_words(bytes.as_slice()),
        Tree::Shared(_) => 6,
        Tree::Part(base, _, _) => flat(base.get()).saturating_add(5),
        _ => 0,
    }
}

// The parts with a word for each.
#[cycle(flat)]
fn flat_parts(ts: &[Tree]) -> u64
    ensures { result ≡ min (length ts.now + flat_of_all (trees_of (map view ts.now))) (2 ^ 64 - 1) }
{
    let mut sum: u64 = 0;
    for t in ts {
        sum = sum.saturating_add(flat(t)).saturating_add(1);
    }
    sum
}

// The pairs with two words for each.
#[cycle(flat)]
fn flat_pairs(ps: &[(Tree, Tree)]) -> u64
    ensures { result ≡ min (2 * length ps.now + flat_of_pairs (pairs_of (map pair_of ps.now))) (2 ^ 64 - 1) }
{
    let mut sum: u64 = 0;
    for (key, value) in ps {
        sum = sum
            .saturating_add(flat(key))
            .saturating_add(flat(value))
            .saturating_add(2);
    }
    sum
}

// A header, the size, and the bytes by eights.
fn binary_words(bytes: &[u8]) -> u64
    ensures { result ≡ 2 + bin_words (length bytes.now) }
{
    2 + bytes.len().div_ceil(8) as u64
}

// A small integer takes no word, a big one a header and its digits.
fn integer_words(i: i128) -> u64
    ensures { result ≡ int_flat i }
{
    if -(1 << 59) <= i && i < 1 << 59 {
        0
    } else if i.unsigned_abs() < 1 << 64 {
        2
    } else {
        3
    }
}
