// Terms at the walk limit, and just beyond it.
ghost use Rattle.std.specs.Prelude.{◌≡◌};
ghost use Rattle.ladder_tests.specs.Bench.{AreTerms, IsBench, shared_of};

use crate::ladder::{WORDS, named, whole};
use crate::rungs::ROLLS;
use crate::steps::Step::{Cons, Int, Nil, Same, Tuple};
use crate::steps::{Step, WAITING, put_all};
use arrayvec::ArrayVec;
use atom_names::AtomNames;
use std::alloc::Global;
use std::test::Fail;
use term_order::{Compared, compare};
use term_walk::{Measured, measure};
use word_mem::{Room, WordMem};

// The steps of a term, steps that are made so many times after them, and the nodes and heap words of what is made, if it
// is not beyond the limit.
type Row = (&'static [Step], &'static [Step], u64, Option<[u64; 2]>);

const ROWS: [Row; 8] = [
    (
        &[Int(0), Same(1_024), Same(1_023)],
        &[],
        0,
        Some([1_048_576, 1_049_599]),
    ),
    (&[Int(0), Same(1_024), Same(1_024)], &[], 0, None),
    (&[Nil], &[Tuple(1)], 1_024, Some([1_025, 2_048])),
    (&[Nil], &[Tuple(1)], 1_025, None),
    (&[Tuple(0)], &[Tuple(1)], 1_023, Some([1_024, 2_047])),
    (&[Tuple(0)], &[Tuple(1)], 1_024, None),
    (&[Nil], &[Nil, Cons], 1_024, Some([2_049, 2_048])),
    (&[Nil], &[Nil, Cons], 1_025, None),
];

/// Makes steps so many times.
pub fn put_times(
    mem: &mut WordMem,
    room: &mut Room,
    names: &AtomNames,
    words: &mut ArrayVec<u64, WAITING>,
    steps: &[Step],
    times: u64,
) -> bool
    requires { IsBench (shared_of ROLLS) names.now room.old mem.old words.old.items }
    ensures { IsBench (shared_of ROLLS) names.now room.new mem.new words.new.items }
{
    'times: for _ in 0..times {
        if !put_all(mem, room, names, &ROLLS, words, steps) {
            return false;
        }
    }
    true
}

// Whether the one term has these measures, and is equal to itself; or is beyond the limit for both.
fn is_found(mem: &WordMem, names: &AtomNames, words: &[u64], want: &Option<[u64; 2]>) -> bool
    requires { AreTerms names.now mem.now words.now }
{
    if words.len() != 1 {
        return false;
    }
    let found = measure(mem, words[0]);
    let told = compare(mem, names, words[0], words[0]);
    match want {
        Some([nodes, flat]) => {
            matches!(found, Measured::Within(m) if m.nodes == *nodes && m.flat == *flat)
                && matches!(told, Compared::Same)
        }
        None => matches!(found, Measured::Beyond) && matches!(told, Compared::Beyond),
    }
}

fn holds(
    alloc: Global,
    steps: &[Step],
    more: &[Step],
    times: u64,
    want: &Option<[u64; 2]>,
) -> Result<bool, Fail> {
    let mut mem = WordMem::new(alloc, WORDS)?;
    let mut room = whole();
    let names = named(alloc)?;
    let mut words = ArrayVec::new();
    if !put_times(&mut mem, &mut room, &names, &mut words, steps, 1) {
        return Ok(false);
    }
    if !put_times(&mut mem, &mut room, &names, &mut words, more, times) {
        return Ok(false);
    }
    Ok(is_found(&mem, &names, words.as_slice(), want))
}

fn row_holds(alloc: Global, row: &Row) -> Result<bool, Fail> {
    let (steps, more, times, want) = row;
    holds(alloc, steps, more, *times, want)
}

#[test]
fn walks_go_to_the_limit_and_not_beyond(rt: HostRuntime) -> Result<(), Fail> {
    for row in &ROWS {
        assert!(rt; row_holds(rt.alloc(), row)?);
    }
    Ok(())
}
