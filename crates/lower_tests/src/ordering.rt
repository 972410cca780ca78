// The order of terms, kind by kind.
use plain_term::{Item, Tree, flat, nodes, order};
use sqlite_items::{Boxed, Items};
use std::alloc::Global;
use std::cmp::Ordering;

// A term of the ladder: one item or more, a reference, a fun with the places of its environment as a tuple, a map of integers by its
// pairs, or a part of some bytes.
#[derive(Clone, Copy)]
enum Rung {
    One(Item),
    Items(&'static [Item]),
    Ref(u64, u64),
    Fun(u64, u64, u64, &'static [Item]),
    Map(&'static [[i128; 2]]),
    Part(&'static [u8], u64, u64),
}

// The names of the atoms and funs.
const NAMES: [&[u8]; 4] = [b"b", b"a", b"ab", b"aa"];

// Each term is less than the next, from one table to the next too.
const INTEGERS_AND_NAMES: [Rung; 17] = [
    Rung::One(Item::Int(-170141183460469231731687303715884105727)),
    Rung::One(Item::Int(-18446744073709551616)),
    Rung::One(Item::Int(-576460752303423489)),
    Rung::One(Item::Int(-576460752303423488)),
    Rung::One(Item::Int(-1)),
    Rung::One(Item::Int(0)),
    Rung::One(Item::Int(576460752303423487)),
    Rung::One(Item::Int(576460752303423488)),
    Rung::One(Item::Int(18446744073709551615)),
    Rung::One(Item::Int(170141183460469231731687303715884105727)),
    Rung::One(Item::Atom(1)),
    Rung::One(Item::Atom(3)),
    Rung::One(Item::Atom(2)),
    Rung::One(Item::Atom(0)),
    Rung::Ref(1, 2),
    Rung::Ref(2, 1),
    Rung::Ref(2, 2),
];

const FUNS_AND_PIDS: [Rung; 9] = [
    Rung::Fun(1, 2, 2, &[Item::Tuple(0)]),
    Rung::Fun(1, 3, 1, &[Item::Tuple(0)]),
    Rung::Fun(1, 3, 2, &[Item::Tuple(0)]),
    Rung::Fun(1, 3, 2, &[Item::Tuple(1), Item::Int(1)]),
    Rung::Fun(1, 3, 2, &[Item::Tuple(1), Item::Nil]),
    Rung::Fun(1, 3, 2, &[Item::Tuple(2), Item::Int(0), Item::Int(0)]),
    Rung::Fun(0, 0, 1, &[Item::Tuple(0)]),
    Rung::One(Item::Pid(1)),
    Rung::One(Item::Pid(2)),
];

const TUPLES_AND_MAPS: [Rung; 11] = [
    Rung::One(Item::Tuple(0)),
    Rung::Items(&[Item::Tuple(1), Item::Nil]),
    Rung::Items(&[Item::Tuple(2), Item::Int(0), Item::Int(0)]),
    Rung::Items(&[Item::Tuple(2), Item::Int(0), Item::Nil]),
    Rung::Map(&[]),
    Rung::Map(&[[1, 9]]),
    Rung::Map(&[[2, 0]]),
    Rung::Map(&[[2, 1]]),
    Rung::Map(&[[0, 0], [1, 0]]),
    Rung::Map(&[[0, 1], [1, 0]]),
    Rung::Map(&[[0, 0], [2, 0]]),
];

const LISTS_AND_PARTS: [Rung; 10] = [
    Rung::One(Item::Nil),
    Rung::Items(&[Item::Cons, Item::Int(0), Item::Int(0)]),
    Rung::Items(&[Item::Cons, Item::Int(0), Item::Nil]),
    Rung::Items(&[
        Item::Cons,
        Item::Int(0),
        Item::Cons,
        Item::Int(0),
        Item::Nil,
    ]),
    Rung::Items(&[Item::Cons, Item::Int(1), Item::Nil]),
    Rung::Part(&[7, 7], 1, 0),
    Rung::Part(&[7, 1], 1, 1),
    Rung::Part(&[0, 1, 2, 3], 1, 2),
    Rung::Part(&[1, 2, 0], 0, 3),
    Rung::Part(&[2], 0, 1),
];

// Each table is named in a function of its own: many slices in one body are dear to prove.
fn integers_and_names() -> &'static [Rung] {
    &INTEGERS_AND_NAMES
}

fn funs_and_pids() -> &'static [Rung] {
    &FUNS_AND_PIDS
}

fn tuples_and_maps() -> &'static [Rung] {
    &TUPLES_AND_MAPS
}

fn lists_and_parts() -> &'static [Rung] {
    &LISTS_AND_PARTS
}

fn tree_of(alloc: Global, rung: &Rung) -> Option<Tree> {
    match rung {
        Rung::One(item) => Tree::of_items(alloc, &[*item]).ok(),
        Rung::Items(items) => Tree::of_items(alloc, items).ok(),
        Rung::Ref(number, k) => Some(Tree::Ref(*number, *k)),
        Rung::Fun(name, arity, creator, env) => fun_of(alloc, *name, *arity, *creator, env),
        Rung::Map(pairs) => map_of(alloc, pairs),
        Rung::Part(bytes, offset, len) => part_of(alloc, bytes, *offset, *len),
    }
}

// The places of the environment are written as those of a tuple.
fn fun_of(alloc: Global, name: u64, arity: u64, creator: u64, env: &[Item]) -> Option<Tree> {
    match Tree::of_items(alloc, env) {
        Ok(Tree::Tuple(places)) => Some(Tree::Fun(name, arity, creator, places)),
        _ => None,
    }
}

fn map_of(alloc: Global, pairs: &[[i128; 2]]) -> Option<Tree> {
    let mut trees = Items::new(alloc);
    for [key, value] in pairs {
        trees.push((Tree::Int(*key), Tree::Int(*value))).ok()?;
    }
    Some(Tree::Map(trees))
}

fn part_of(alloc: Global, bytes: &[u8], offset: u64, len: u64) -> Option<Tree> {
    let base = Tree::Bin(Items::from_slice(alloc, bytes).ok()?);
    Some(Tree::Part(Boxed::new(alloc, base).ok()?, offset, len))
}

fn put_names(alloc: Global, names: &mut Vec<Vec<u8>>) -> Option<()> {
    for name in &NAMES {
        names.push(Vec::from_slice(alloc, name).ok()?).ok()?;
    }
    Some(())
}

// Whether the trees stand in their order, each compared with each.
fn is_in_order(trees: &[Tree], names: &[Vec<u8>]) -> bool {
    for (i, a) in trees.iter().enumerate() {
        for (j, b) in trees.iter().enumerate() {
            if order(a, b, names) != i.cmp(&j) {
                return false;
            }
        }
    }
    true
}

// Puts the terms of these rungs behind the others.
fn climb(alloc: Global, trees: &mut Items<Tree>, rungs: &[Rung]) -> Option<()> {
    for rung in rungs {
        trees.push(tree_of(alloc, rung)?).ok()?;
    }
    Some(())
}

const PART_AND_BYTES: [Rung; 2] = [
    Rung::Part(&[0, 1, 2, 3], 1, 2),
    Rung::Items(&[Item::Bin(2), Item::Byte(1), Item::Byte(2)]),
];

fn part_and_bytes() -> &'static [Rung] {
    &PART_AND_BYTES
}

// A part of two bytes, at the end, is equal to them, has their nodes, and its own words beside those of the whole.
fn part_is_its_bytes(trees: &[Tree]) -> bool {
    match trees {
        [.., part, bytes] => {
            order(part, bytes, &[]) == Ordering::Equal && nodes(part) == 2 && flat(part) == 8
        }
        _ => false,
    }
}

fn terms_hold(alloc: Global, trees: &mut Items<Tree>, names: &mut Vec<Vec<u8>>) -> Option<bool> {
    put_names(alloc, names)?;
    climb(alloc, trees, integers_and_names())?;
    climb(alloc, trees, funs_and_pids())?;
    climb(alloc, trees, tuples_and_maps())?;
    climb(alloc, trees, lists_and_parts())?;
    let is_ladder = is_in_order(trees.as_slice(), names.as_slice());
    climb(alloc, trees, part_and_bytes())?;
    Some(is_ladder && part_is_its_bytes(trees.as_slice()))
}

#[test]
fn terms_are_in_order(rt: HostRuntime) {
    let mut trees = Items::new(rt.alloc());
    let mut names = Vec::new(rt.alloc());
    assert!(rt; terms_hold(rt.alloc(), &mut trees, &mut names).unwrap_or(false));
}
