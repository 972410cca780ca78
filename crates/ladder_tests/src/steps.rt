// Terms are made in steps: the words of its parts stand before what is made of them.
ghost use Rattle.std.specs.Prelude.{ℕ, List, IfSome};
ghost use Rattle.term_build.specs.Clear.{IsRoom};
ghost use Rattle.ladder_tests.specs.Bench.{AreGood, IsBench, IsGood, Makes, shared_of};

use crate::binaries::{bytes_of, holder_of, part_of, piece_of};
use crate::objects::{
    cons_of, fun_of, integer_of, map_of, reference_of, rising_of, same_of, tuple_of,
};
use arrayvec::ArrayVec;
use atom_names::AtomNames;
use term_tags::{ATOMS, PIDS, atom, nil, pid};
use word_mem::{Room, WordMem};

/// The most words that wait for what is made of them.
pub const WAITING: usize = 256;

/// The free words that there are before each step.
pub const SPARE: u64 = 4_096;

/// A step: it takes the last words, as many as it has parts, and its own word stands in their place.
#[derive(Clone, Copy)]
pub enum Step {
    Int(i128),
    Atom(u64),
    Pid(u64),
    /// A reference by process and count.
    Ref(u64, u64),
    Nil,
    /// Of a head and a tail.
    Cons,
    /// Of so many parts.
    Tuple(usize),
    /// A tuple of one part so many times.
    Same(u64),
    /// A map of so many keys, which rise, and then their values.
    Rising(usize),
    /// A map of so many keys in any order, and then their values.
    Map(usize),
    Bytes(&'static [u8]),
    /// Of these bytes the ones from an offset, so many.
    Part(&'static [u8], u64, u64),
    /// The shared binary with this number.
    Shared(u64),
    /// Of a shared binary the bytes from an offset, so many.
    Piece(u64, u64, u64),
    /// A fun by its name, arity and creator, and so many places.
    Fun(u64, u64, u64, usize),
}

// How many words a step takes.
fn parts(step: Step) -> usize {
    match step {
        Step::Cons => 2,
        Step::Same(_) => 1,
        Step::Tuple(n) => n,
        Step::Fun(_, _, _, n) => n,
        Step::Rising(n) => n.saturating_mul(2),
        Step::Map(n) => n.saturating_mul(2),
        _ => 0,
    }
}

/// Makes one step, or answers false where there is no such term.
pub fn put(
    mem: &mut WordMem,
    room: &mut Room,
    names: &AtomNames,
    rolls: &[(u64, u8)],
    words: &mut ArrayVec<u64, WAITING>,
    step: Step,
) -> bool
    requires { IsBench (shared_of rolls.now) names.now room.old mem.old words.old.items }
    ensures { IsBench (shared_of rolls.now) names.now room.new mem.new words.new.items }
{
    let count = parts(step);
    if count > words.len() {
        return false;
    }
    let left = words.len() - count;
    let made = make(mem, room, names, rolls, &words.as_slice()[left..], step);
    words.truncate(left);
    if words.is_full() {
        return false;
    }
    match made {
        Some(word) => {
            words.push(word);
            true
        }
        None => false,
    }
}

/// Makes all steps.
pub fn put_all(
    mem: &mut WordMem,
    room: &mut Room,
    names: &AtomNames,
    rolls: &[(u64, u8)],
    words: &mut ArrayVec<u64, WAITING>,
    steps: &[Step],
) -> bool
    requires { IsBench (shared_of rolls.now) names.now room.old mem.old words.old.items }
    ensures { IsBench (shared_of rolls.now) names.now room.new mem.new words.new.items }
{
    'steps: for step in steps {
        if !put(mem, room, names, rolls, words, *step) {
            return false;
        }
    }
    true
}

// The word of the term of a step over its parts.
fn make(
    mem: &mut WordMem,
    room: &mut Room,
    names: &AtomNames,
    rolls: &[(u64, u8)],
    parts: &[u64],
    step: Step,
) -> Option<u64>
    requires place { IsRoom room.old mem.old }
    requires good { AreGood (shared_of rolls.now) names.now room.old mem.old parts.now }
    ensures { Makes (shared_of rolls.now) names.now room.old room.new mem.old mem.new result }
{
    if room.end - room.top < SPARE {
        return None;
    }
    match step {
        Step::Int(i) => integer_of(mem, room, names, rolls, i),
        Step::Atom(_) | Step::Pid(_) | Step::Nil => immediate_of(mem, room, names, step),
        Step::Ref(n, k) => reference_of(mem, room, names, rolls, n, k),
        Step::Cons => cons_of(mem, room, names, rolls, parts),
        Step::Tuple(_) => tuple_of(mem, room, names, rolls, parts),
        Step::Same(n) => same_of(mem, room, names, rolls, parts, n),
        Step::Rising(n) => rising_of(mem, room, names, rolls, parts, n),
        Step::Map(n) => map_of(mem, room, names, rolls, parts, n).ok(),
        Step::Bytes(bytes) => bytes_of(mem, room, names, rolls, bytes),
        Step::Part(bytes, off, len) => part_of(mem, room, names, rolls, bytes, off, len),
        Step::Shared(id) => holder_of(mem, room, names, rolls, id),
        Step::Piece(id, off, len) => piece_of(mem, room, names, rolls, id, off, len),
        Step::Fun(name, arity, creator, _) => fun_of(
            mem, room, names, rolls, parts, name, arity, creator,
        ),
    }
}

// The word of an atom, a pid or nil.
fn immediate_of(mem: &WordMem, room: &Room, names: &AtomNames, step: Step) -> Option<u64>
    ensures { (shared : List (List ℕ)) → IfSome result (λ w. IsGood shared names.now room.now mem.now w) }
{
    match step {
        Step::Atom(k) => {
            if k >= names.count() {
                return None;
            }
            if k >= ATOMS {
                return None;
            }
            Some(atom(k))
        }
        Step::Pid(n) => {
            if n >= PIDS {
                return None;
            }
            Some(pid(n))
        }
        Step::Nil => Some(nil()),
        _ => None,
    }
}
