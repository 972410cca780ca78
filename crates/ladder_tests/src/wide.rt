// Maps of many keys, and of a key beyond the walk limit.
ghost use Rattle.std.specs.Prelude.{◌+◌};
ghost use Rattle.ladder_tests.specs.Bench.{IsBench, shared_of};

use crate::ladder::{WORDS, named, whole};
use crate::objects::map_of;
use crate::rungs::ROLLS;
use crate::steps::{SPARE, Step, WAITING, put, put_all};
use arrayvec::ArrayVec;
use atom_names::AtomNames;
use std::alloc::Global;
use std::test::Fail;
use term_maps::MapStop;
use word_mem::{Room, WordMem};

// A term of 1,049,601 nodes.
const BEYOND: [Step; 3] = [Step::Int(0), Step::Same(1_024), Step::Same(1_024)];

// Distinct keys, keys that are equal to the first, keys beyond the walk limit, and why there is no map, or its words.
const ROWS: [(u64, u64, u64, Result<u64, MapStop>); 7] = [
    (32, 0, 0, Ok(68)),
    (32, 8, 0, Ok(68)),
    (1, 40, 0, Ok(6)),
    (33, 0, 0, Err(MapStop::Size)),
    (33, 8, 0, Err(MapStop::Size)),
    (33, 0, 1, Err(MapStop::Big)),
    (0, 0, 1, Err(MapStop::Big)),
];

// Puts integers, each greater than the one before by so much.
fn put_ints(
    mem: &mut WordMem,
    room: &mut Room,
    names: &AtomNames,
    words: &mut ArrayVec<u64, WAITING>,
    count: u64,
    by: u64,
) -> bool
    requires { IsBench (shared_of ROLLS) names.now room.old mem.old words.old.items }
    ensures { IsBench (shared_of ROLLS) names.now room.new mem.new words.new.items }
{
    'ints: for k in 0..count {
        let step = Step::Int(k.wrapping_mul(by) as i128);
        if !put(mem, room, names, &ROLLS, words, step) {
            return false;
        }
    }
    true
}

// Puts the keys and a value for each.
fn put_pairs(
    mem: &mut WordMem,
    room: &mut Room,
    names: &AtomNames,
    words: &mut ArrayVec<u64, WAITING>,
    distinct: u64,
    again: u64,
    beyond: u64,
) -> bool
    requires { IsBench (shared_of ROLLS) names.now room.old mem.old words.old.items }
    ensures { IsBench (shared_of ROLLS) names.now room.new mem.new words.new.items }
{
    if !put_ints(mem, room, names, words, distinct, 1) {
        return false;
    }
    if !put_ints(mem, room, names, words, again, 0) {
        return false;
    }
    if beyond == 1 && !put_all(mem, room, names, &ROLLS, words, &BEYOND) {
        return false;
    }
    let keys = words.len() as u64;
    put_ints(mem, room, names, words, keys, 0)
}

// The words that the map takes, or why there is none.
fn wide(
    alloc: Global,
    distinct: u64,
    again: u64,
    beyond: u64,
) -> Result<Option<Result<u64, MapStop>>, Fail> {
    let mut mem = WordMem::new(alloc, WORDS)?;
    let mut room = whole();
    let names = named(alloc)?;
    let mut words = ArrayVec::new();
    if !put_pairs(
        &mut mem, &mut room, &names, &mut words, distinct, again, beyond,
    ) {
        return Ok(None);
    }
    if room.end - room.top < SPARE {
        return Ok(None);
    }
    let top = room.top;
    let made = map_of(
        &mut mem,
        &mut room,
        &names,
        &ROLLS,
        words.as_slice(),
        words.len() / 2,
    );
    let used = room.top.wrapping_sub(top);
    Ok(Some(made.map(|_| used)))
}

fn is_same(a: Option<Result<u64, MapStop>>, b: &Result<u64, MapStop>) -> bool {
    match (a, b) {
        (Some(Ok(m)), Ok(n)) => m == *n,
        (Some(Err(MapStop::Big)), Err(MapStop::Big)) => true,
        (Some(Err(MapStop::Size)), Err(MapStop::Size)) => true,
        _ => false,
    }
}

#[test]
fn maps_have_32_keys_at_most_and_none_beyond_the_walk_limit(rt: HostRuntime) -> Result<(), Fail> {
    for (distinct, again, beyond, want) in &ROWS {
        assert!(rt; is_same(wide(rt.alloc(), *distinct, *again, *beyond)?, want));
    }
    Ok(())
}
