// The order of two trees.
#![tactic(auto, using(crate::proofs::ViewLemmas::view_steps))]

ghost use Rattle.std.specs.Prelude.{◌≡◌, ℕ, List, [], map, IsTrue};
ghost use Rattle.plain_term.specs.View.{view, trees_of, pairs_of, pair_of, has_no_shared};
ghost use Rattle.plain_term.specs.Order.{order as order_of, kind_rank, name_of};
ghost use Rattle.plain_term.specs.Tree.Tree.{Tuple as plain_tuple, Map as plain_map};

use crate::tree::{Tree, bytes};
use std::cmp::Ordering;

/// The order of two terms: by value, and for different kinds integers first, then atoms,
/// references, funs, pids, tuples, maps, nil, lists and binaries.
///
/// A shared binary that is named is compared as if it had no bytes, for they are not in the tree. A name that is
/// not among `names` has no bytes.
pub fn order(a: &Tree, b: &Tree, names: &[Vec<u8>]) -> Ordering
    ensures value { result ≡ order_of (map (λ v. v.items) names.now) [] (view a.now) (view b.now) }
    ensures exact { (shared : List (List ℕ)) → IsTrue (has_no_shared (view a.now)) → IsTrue (has_no_shared (view b.now))
        → result ≡ order_of (map (λ v. v.items) names.now) shared (view a.now) (view b.now) }
{
    compare(a, b, names)
}

#[cycle(order)]
fn compare(a: &Tree, b: &Tree, names: &[Vec<u8>]) -> Ordering
    ensures { result ≡ order_of (map (λ v. v.items) names.now) [] (view a.now) (view b.now) }
{
    match (a, b) {
        (Tree::Int(i), Tree::Int(j)) => i.cmp(j),
        (Tree::Atom(k), Tree::Atom(j)) => name(names, *k).cmp(name(names, *j)),
        (Tree::Ref(n, k), Tree::Ref(m, j)) => n.cmp(m).then(k.cmp(j)),
        (Tree::Fun(f, n, c, env), Tree::Fun(g, m, d, others)) => name(names, *f)
            .cmp(name(names, *g))
            .then(
                n.cmp(m).then(
                    c.cmp(d)
                        .then(compare_all(env.as_slice(), others.as_slice(), names)),
                ),
            ),
        (Tree::Pid(n), Tree::Pid(m)) => n.cmp(m),
        (Tree::Tuple(xs), Tree::Tuple(ys)) => compare_all(xs.as_slice(), ys.as_slice(), names),
        (Tree::Map(ps), Tree::Map(qs)) => compare_pairs(ps.as_slice(), qs.as_slice(), names),
        (Tree::Nil, Tree::Nil) => Ordering::Equal,
        (Tree::Cons(head, tail), Tree::Cons(other, rest)) => {
            compare(head.get(), other.get(), names).then(compare(tail.get(), rest.get(), names))
        }
        _ => rank(a).cmp(&rank(b)).then(bytes(a).cmp(bytes(b))),
    }
}

// Parts by their number, then from the left, as the tuples of them.
#[cycle(order)]
fn compare_all(xs: &[Tree], ys: &[Tree], names: &[Vec<u8>]) -> Ordering
    ensures { result ≡ order_of (map (λ v. v.items) names.now) [] (plain_tuple (trees_of (map view xs.now))) (plain_tuple (trees_of (map view ys.now))) }
{
    if xs.len() != ys.len() {
        return xs.len().cmp(&ys.len());
    }
    for i in 0..xs.len() {
        match compare(&xs[i], &ys[i], names) {
            Ordering::Equal => {}
            order => return order,
        }
    }
    Ordering::Equal
}

// Pairs by their number, then by the keys, then by the values, as the maps of them.
#[cycle(order)]
fn compare_pairs(ps: &[(Tree, Tree)], qs: &[(Tree, Tree)], names: &[Vec<u8>]) -> Ordering
    ensures { result ≡ order_of (map (λ v. v.items) names.now) [] (plain_map (pairs_of (map pair_of ps.now))) (plain_map (pairs_of (map pair_of qs.now))) }
{
    if ps.len() != qs.len() {
        return ps.len().cmp(&qs.len());
    }
    let mut values = Ordering::Equal;
    for i in 0..ps.len() {
        match compare(&ps[i].0, &qs[i].0, names) {
            Ordering::Equal => values = values.then(compare(&ps[i].1, &qs[i].1, names)),
            keys => return keys,
        }
    }
    values
}

// The bytes of the k-th name; none where there are fewer.
fn name(names: &[Vec<u8>], k: u64) -> &[u8]
    ensures { result.now ≡ name_of (map (λ v. v.items) names.now) k }
{
    match names.get(k as usize) {
        Some(name) => name.as_slice(),
        None => &[],
    }
}

// The kinds of terms, from the least.
fn rank(t: &Tree) -> u64
    ensures { result ≡ kind_rank (view t.now) }
{
    match t {
        Tree::Int(_) => 0,
        Tree::Atom(_) => 1,
        Tree::Ref(..) => 2,
        Tree::Fun(..) => 3,
        Tree::Pid(_) => 4,
        Tree::Tuple(_) => 5,
        Tree::Map(_) => 6,
        Tree::Nil => 7,
        Tree::Cons(..) => 8,
        Tree::Bin(_) | Tree::Shared(_) | Tree::Part(..) => 9,
    }
}
