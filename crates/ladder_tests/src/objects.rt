// Terms of parts that stand already, and terms that have none but numbers.
ghost use Rattle.std.specs.Prelude.{◌≡◌, ℕ, ◌+◌, ◌<◌, ◌≤◌, true, List, length};
ghost use Rattle.std.specs.Result.{result_ok};
ghost use Rattle.term_tags.specs.declared.kinds.TheConstants.{ATOMS};
ghost use Rattle.term_build.specs.Clear.{IsRoom};
ghost use Rattle.word_mem.specs.declared.ranges.Room.{Room};
ghost use Rattle.ladder_tests.specs.Bench.{AreGood, ArePairs, Makes, shared_of};

use crate::records::put_entry;
use arrayvec::ArrayVec;
use atom_names::AtomNames;
use term_build::{cons, fun_thing, integer, map_in_order, reference, same_tuple, tuple};
use term_maps::{MapStop, map};
use term_tags::{ATOMS, PIDS};
use word_mem::{Room, WordMem};

/// The most parts that a step takes.
const MOST_PARTS: usize = 64;

pub fn integer_of(
    mem: &mut WordMem,
    room: &mut Room,
    names: &AtomNames,
    rolls: &[(u64, u8)],
    i: i128,
) -> Option<u64>
    requires place { IsRoom room.old mem.old }
    requires spare { room.old.top + 4096 ≤ room.old.end }
    ensures { Makes (shared_of rolls.now) names.now room.old room.new mem.old mem.new result }
{
    if i.unsigned_abs() >= 1 << 127 {
        return None;
    }
    Some(integer(mem, room, i))
}

pub fn reference_of(
    mem: &mut WordMem,
    room: &mut Room,
    names: &AtomNames,
    rolls: &[(u64, u8)],
    n: u64,
    k: u64,
) -> Option<u64>
    requires place { IsRoom room.old mem.old }
    requires spare { room.old.top + 4096 ≤ room.old.end }
    ensures { Makes (shared_of rolls.now) names.now room.old room.new mem.old mem.new result }
{
    Some(reference(mem, room, n, k))
}

pub fn cons_of(
    mem: &mut WordMem,
    room: &mut Room,
    names: &AtomNames,
    rolls: &[(u64, u8)],
    parts: &[u64],
) -> Option<u64>
    requires place { IsRoom room.old mem.old }
    requires spare { room.old.top + 4096 ≤ room.old.end }
    requires good { AreGood (shared_of rolls.now) names.now room.old mem.old parts.now }
    ensures { Makes (shared_of rolls.now) names.now room.old room.new mem.old mem.new result }
{
    if parts.len() != 2 {
        return None;
    }
    Some(cons(mem, room, parts[0], parts[1]))
}

pub fn tuple_of(
    mem: &mut WordMem,
    room: &mut Room,
    names: &AtomNames,
    rolls: &[(u64, u8)],
    parts: &[u64],
) -> Option<u64>
    requires place { IsRoom room.old mem.old }
    requires spare { room.old.top + 4096 ≤ room.old.end }
    requires good { AreGood (shared_of rolls.now) names.now room.old mem.old parts.now }
    ensures { Makes (shared_of rolls.now) names.now room.old room.new mem.old mem.new result }
{
    if parts.len() > MOST_PARTS {
        return None;
    }
    Some(tuple(mem, room, parts))
}

pub fn same_of(
    mem: &mut WordMem,
    room: &mut Room,
    names: &AtomNames,
    rolls: &[(u64, u8)],
    parts: &[u64],
    n: u64,
) -> Option<u64>
    requires place { IsRoom room.old mem.old }
    requires spare { room.old.top + 4096 ≤ room.old.end }
    requires good { AreGood (shared_of rolls.now) names.now room.old mem.old parts.now }
    ensures { Makes (shared_of rolls.now) names.now room.old room.new mem.old mem.new result }
{
    if parts.len() != 1 {
        return None;
    }
    if n > 4_000 {
        return None;
    }
    Some(same_tuple(mem, room, n, parts[0]))
}

pub fn rising_of(
    mem: &mut WordMem,
    room: &mut Room,
    names: &AtomNames,
    rolls: &[(u64, u8)],
    parts: &[u64],
    n: usize,
) -> Option<u64>
    requires place { IsRoom room.old mem.old }
    requires spare { room.old.top + 4096 ≤ room.old.end }
    requires good { AreGood (shared_of rolls.now) names.now room.old mem.old parts.now }
    ensures { Makes (shared_of rolls.now) names.now room.old room.new mem.old mem.new result }
{
    if n > 32 {
        return None;
    }
    if parts.len() != 2 * n {
        return None;
    }
    Some(map_in_order(mem, room, &parts[..n], &parts[n..]))
}

/// The map of keys in any order, or why there is none.
pub fn map_of(
    mem: &mut WordMem,
    room: &mut Room,
    names: &AtomNames,
    rolls: &[(u64, u8)],
    parts: &[u64],
    n: usize,
) -> Result<u64, MapStop>
    requires place { IsRoom room.old mem.old }
    requires spare { room.old.top + 4096 ≤ room.old.end }
    requires good { AreGood (shared_of rolls.now) names.now room.old mem.old parts.now }
    ensures { Makes (shared_of rolls.now) names.now room.old room.new mem.old mem.new (result_ok result) }
{
    if n > MOST_PARTS {
        return Err(MapStop::Size);
    }
    if parts.len() != 2 * n {
        return Err(MapStop::Size);
    }
    let pairs = paired(&parts[..n], &parts[n..]);
    map(mem, room, names, pairs.as_slice())
}

pub fn fun_of(
    mem: &mut WordMem,
    room: &mut Room,
    names: &AtomNames,
    rolls: &[(u64, u8)],
    env: &[u64],
    name: u64,
    arity: u64,
    creator: u64,
) -> Option<u64>
    requires place { IsRoom room.old mem.old }
    requires spare { room.old.top + 4096 ≤ room.old.end }
    requires good { AreGood (shared_of rolls.now) names.now room.old mem.old env.now }
    ensures { Makes (shared_of rolls.now) names.now room.old room.new mem.old mem.new result }
{
    if env.len() > MOST_PARTS {
        return None;
    }
    if !is_entry(names.count(), name, arity) {
        return None;
    }
    if creator >= PIDS {
        return None;
    }
    let rec = put_entry(mem, room, name, arity);
    Some(fun_thing(mem, room, rec, 0, arity, creator, env))
}

// Whether there is a fun with this name and arity.
fn is_entry(count: u64, name: u64, arity: u64) -> bool
    ensures { result ≡ true → (name < count) × (name < ATOMS) × (arity ≤ 255) }
{
    name < count && name < ATOMS && arity <= 255
}

// The first words and the others, two by two.
fn paired(firsts: &[u64], others: &[u64]) -> ArrayVec<(u64, u64), MOST_PARTS>
    requires few { length firsts.now ≤ 64 }
    requires same { length others.now ≡ length firsts.now }
    ensures { (shared names : List (List ℕ)) (room : Room) (mem : List ℕ) → AreGood shared names room mem firsts.now → AreGood shared names room mem others.now
        → ArePairs shared names room mem result.items }
{
    let mut pairs = ArrayVec::new();
    for i in 0..firsts.len() {
        pairs.push((firsts[i], others[i]));
    }
    pairs
}
