// Terms of each kind are measured and compared with one another.
ghost use Rattle.std.specs.Prelude.{◌+◌, ◌≤◌, ◌≡◌, []};
ghost use Rattle.term_build.specs.Clear.{IsRoom};
ghost use Rattle.ladder_tests.specs.Bench.{AreTerms, IsBench, shared_of};

use crate::rungs::{NAMES, ROLLS, Rung, ladder};
use crate::steps::{WAITING, put_all};
use arrayvec::ArrayVec;
use atom_names::AtomNames;
use std::alloc::Global;
use std::test::Fail;
use term_order::{Compared, compare};
use term_walk::{Measured, measure};
use word_mem::{Room, WordMem};

/// The words of the memory in which terms are made.
pub const WORDS: u64 = 16_384;

/// A room of all of it.
pub fn whole() -> Room
    ensures { result ≡ record { start = 0; top = 0; end = 16384 } }
{
    Room {
        start: 0,
        top: 0,
        end: WORDS,
    }
}

/// The names of the terms.
pub fn named(alloc: Global) -> Result<AtomNames, Fail> {
    let mut names = AtomNames::new(alloc)?;
    for name in &NAMES {
        if name.len() == 0 || name.len() > 63 {
            return Ok(names);
        }
        names.intern(name);
    }
    Ok(names)
}

// Makes the terms of all rungs, one after the other.
fn raise(
    mem: &mut WordMem,
    room: &mut Room,
    names: &AtomNames,
    words: &mut ArrayVec<u64, WAITING>,
    rungs: &[Rung],
) -> bool
    requires { IsBench (shared_of ROLLS) names.now room.old mem.old words.old.items }
    ensures { IsBench (shared_of ROLLS) names.now room.new mem.new words.new.items }
{
    'rungs: for (steps, _) in rungs {
        if !put_all(mem, room, names, &ROLLS, words, steps) {
            return false;
        }
    }
    words.len() == rungs.len()
}

fn measures(mem: &WordMem, names: &AtomNames, words: &[u64], rungs: &[Rung]) -> bool
    requires { AreTerms names.now mem.now words.now }
{
    for i in 0..words.len() {
        if i >= rungs.len() {
            return false;
        }
        match measure(mem, words[i]) {
            Measured::Within(found) => {
                if found.nodes != rungs[i].1[1] || found.flat != rungs[i].1[2] {
                    return false;
                }
            }
            Measured::Beyond => return false,
        }
    }
    true
}

// Whether the answer is as the places are.
fn is_told(got: Compared, a: u64, b: u64) -> bool {
    match got {
        Compared::Less => a < b,
        Compared::Same => a == b,
        Compared::More => b < a,
        Compared::Beyond => false,
    }
}

fn are_in_order(mem: &WordMem, names: &AtomNames, words: &[u64], rungs: &[Rung]) -> bool
    requires { AreTerms names.now mem.now words.now }
{
    for i in 0..words.len() {
        for j in 0..words.len() {
            if i >= rungs.len() || j >= rungs.len() {
                return false;
            }
            let got = compare(mem, names, words[i], words[j]);
            if !is_told(got, rungs[i].1[0], rungs[j].1[0]) {
                return false;
            }
        }
    }
    true
}

// Whether the terms of the rungs are made, measured and compared as they say.
fn stands(alloc: Global, rungs: &[Rung]) -> Result<bool, Fail> {
    let mut mem = WordMem::new(alloc, WORDS)?;
    let mut room = whole();
    let names = named(alloc)?;
    let mut words = ArrayVec::new();
    if !raise(&mut mem, &mut room, &names, &mut words, rungs) {
        return Ok(false);
    }
    let words = words.as_slice();
    Ok(measures(&mem, &names, words, rungs) && are_in_order(&mem, &names, words, rungs))
}

#[test]
fn terms_of_each_kind_are_measured_and_in_order(rt: HostRuntime) -> Result<(), Fail> {
    let rungs = ladder(rt.alloc())?;
    assert!(rt; stands(rt.alloc(), rungs.as_slice())?);
    Ok(())
}
