// Terms of every kind, from the least to the greatest.
use crate::steps::Step;
use crate::steps::Step::{
    Atom, Bytes, Cons, Fun, Int, Map, Nil, Part, Pid, Piece, Ref, Rising, Same, Shared, Tuple,
};
use std::alloc::Global;
use std::test::Fail;

/// A term by its steps; and its place among the places, its nodes and its heap words. Equal terms have one place.
pub type Rung = (&'static [Step], [u64; 3]);

/// The names of atoms and funs, by number.
pub const NAMES: [&[u8]; 5] = [
    b"b",
    b"a",
    b"ab",
    b"aa",
    b"the_longest_name_of_an_atom_has_as_many_bytes_as_there_are_here",
];

/// The lengths of the shared binaries, from number 1 on, and the byte of each.
pub const ROLLS: [(u64, u8); 3] = [(3, 7), (5, 7), (65, 7)];

const INTEGERS: [Rung; 16] = [
    // integers, at the ends of the small ones and of one digit and two
    (
        &[Int(-170_141_183_460_469_231_731_687_303_715_884_105_727)],
        [1, 1, 3],
    ),
    (&[Int(-18_446_744_073_709_551_617)], [2, 1, 3]),
    (&[Int(-18_446_744_073_709_551_616)], [3, 1, 3]),
    (&[Int(-18_446_744_073_709_551_615)], [4, 1, 2]),
    (&[Int(-576_460_752_303_423_489)], [5, 1, 2]),
    (&[Int(-576_460_752_303_423_488)], [6, 1, 0]),
    (&[Int(-1)], [7, 1, 0]),
    (&[Int(0)], [8, 1, 0]),
    (&[Int(1)], [9, 1, 0]),
    (&[Int(576_460_752_303_423_487)], [10, 1, 0]),
    (&[Int(576_460_752_303_423_488)], [11, 1, 2]),
    (&[Int(18_446_744_073_709_551_615)], [12, 1, 2]),
    (&[Int(18_446_744_073_709_551_616)], [13, 1, 3]),
    (&[Int(18_446_744_073_709_551_617)], [14, 1, 3]),
    (&[Int(36_893_488_147_419_103_232)], [15, 1, 3]),
    (
        &[Int(170_141_183_460_469_231_731_687_303_715_884_105_727)],
        [16, 1, 3],
    ),
];

const NAMED: [Rung; 20] = [
    // a, aa, ab, b
    (&[Atom(1)], [17, 1, 0]),
    (&[Atom(3)], [18, 1, 0]),
    (&[Atom(2)], [19, 1, 0]),
    (&[Atom(0)], [20, 1, 0]),
    // references by process and count
    (&[Ref(1, 1)], [21, 1, 3]),
    (&[Ref(1, 2)], [22, 1, 3]),
    (&[Ref(2, 1)], [23, 1, 3]),
    // funs by name, arity, creator, number of places, and places
    (&[Fun(1, 2, 2, 0)], [24, 1, 6]),
    (&[Fun(1, 3, 1, 0)], [25, 1, 6]),
    (&[Int(1), Fun(1, 3, 1, 1)], [26, 2, 7]),
    (&[Fun(1, 3, 2, 0)], [27, 1, 6]),
    (&[Int(1), Fun(1, 3, 2, 1)], [28, 2, 7]),
    (&[Nil, Fun(1, 3, 2, 1)], [29, 2, 7]),
    (&[Int(0), Int(0), Fun(1, 3, 2, 2)], [30, 3, 8]),
    (&[Int(0), Int(0), Nil, Cons, Fun(1, 3, 2, 2)], [31, 5, 10]),
    (&[Fun(2, 0, 1, 0)], [32, 1, 6]),
    (&[Fun(0, 0, 1, 0)], [33, 1, 6]),
    // pids
    (&[Pid(1)], [34, 1, 0]),
    (&[Pid(2)], [35, 1, 0]),
    (&[Pid(2_199_023_255_551)], [36, 1, 0]),
];

const TUPLES: [Rung; 8] = [
    // tuples by size, then parts
    (&[Tuple(0)], [37, 1, 1]),
    (&[Nil, Tuple(1)], [38, 2, 2]),
    (&[Int(0), Int(0), Tuple(2)], [39, 3, 3]),
    (&[Int(0), Same(2)], [39, 3, 3]),
    (&[Int(0), Nil, Tuple(2)], [40, 3, 3]),
    (&[Int(1), Int(0), Tuple(2)], [41, 3, 3]),
    (&[Int(1), Int(2), Nil, Cons, Tuple(2)], [42, 5, 5]),
    (&[Int(0), Same(3)], [43, 4, 4]),
];

const MAPS: [Rung; 15] = [
    // maps by size, then keys, then values; where two keys are equal, the later pair stands with its own key
    (&[Rising(0)], [44, 1, 4]),
    (&[Int(1), Int(9), Rising(1)], [45, 3, 6]),
    (&[Int(2), Int(0), Rising(1)], [46, 3, 6]),
    (&[Int(2), Int(1), Rising(1)], [47, 3, 6]),
    (&[Int(0), Int(1), Int(0), Int(0), Rising(2)], [48, 5, 8]),
    (&[Int(1), Int(0), Int(0), Int(0), Map(2)], [48, 5, 8]),
    (&[Int(0), Int(1), Int(0), Int(1), Rising(2)], [49, 5, 8]),
    (&[Int(0), Int(1), Int(1), Int(0), Rising(2)], [50, 5, 8]),
    (
        &[Int(1), Int(0), Int(0), Int(0), Int(7), Int(1), Map(3)],
        [50, 5, 8],
    ),
    (&[Int(0), Int(2), Int(0), Int(0), Rising(2)], [51, 5, 8]),
    (&[Atom(1), Atom(0), Int(0), Int(0), Rising(2)], [52, 5, 8]),
    (&[Atom(0), Atom(1), Int(0), Int(0), Map(2)], [52, 5, 8]),
    (
        &[Atom(0), Bytes(&[7, 7, 7]), Int(0), Int(0), Rising(2)],
        [53, 6, 11],
    ),
    (
        &[
            Bytes(&[7, 7, 7]),
            Atom(0),
            Shared(1),
            Int(9),
            Int(0),
            Int(0),
            Map(3),
        ],
        [53, 6, 14],
    ),
    (
        &[
            Shared(1),
            Atom(0),
            Bytes(&[7, 7, 7]),
            Int(9),
            Int(0),
            Int(0),
            Map(3),
        ],
        [53, 6, 11],
    ),
];

const LISTS: [Rung; 9] = [
    // nil, and list places by heads, then tails
    (&[Nil], [54, 1, 0]),
    (&[Int(0), Int(0), Cons], [55, 3, 2]),
    (&[Int(0), Atom(1), Cons], [56, 3, 2]),
    (&[Int(0), Nil, Cons], [57, 3, 2]),
    (&[Int(0), Int(0), Nil, Cons, Cons], [58, 5, 4]),
    (&[Int(0), Int(1), Nil, Cons, Cons], [59, 5, 4]),
    (&[Int(1), Nil, Cons], [60, 3, 2]),
    (&[Int(1), Int(2), Atom(1), Cons, Cons], [61, 5, 4]),
    (&[Int(0), Nil, Cons, Nil, Cons], [62, 5, 4]),
];

const BINARIES: [Rung; 18] = [
    // binaries by bytes, wherever they lie
    (&[Bytes(&[])], [63, 1, 2]),
    (&[Piece(1, 3, 0)], [63, 1, 11]),
    (&[Bytes(&[0])], [64, 2, 3]),
    (&[Bytes(&[1])], [65, 2, 3]),
    (&[Bytes(&[1, 2])], [66, 2, 3]),
    (&[Part(&[0, 1, 2, 3], 1, 2)], [66, 2, 8]),
    (&[Bytes(&[1, 2, 0])], [67, 2, 3]),
    (&[Bytes(&[1, 2, 3, 4, 5, 6, 7, 8])], [68, 2, 3]),
    (&[Bytes(&[1, 2, 3, 4, 5, 6, 7, 8, 9])], [69, 2, 4]),
    (&[Bytes(&[1, 2, 3, 4, 5, 6, 7, 9])], [70, 2, 3]),
    (&[Bytes(&[7, 7, 7])], [71, 2, 3]),
    (&[Shared(1)], [71, 2, 6]),
    (&[Piece(2, 1, 3)], [71, 2, 11]),
    (&[Part(&[1, 7, 7, 7], 1, 3)], [71, 2, 8]),
    (&[Shared(2)], [72, 2, 6]),
    (&[Shared(3)], [73, 3, 6]),
    (&[Piece(3, 0, 65)], [73, 3, 11]),
    (&[Bytes(&[255])], [74, 2, 3]),
];

// Each table is named in a function of its own: many slices in one body are dear to prove.
fn integer_rungs() -> &'static [Rung] {
    &INTEGERS
}

fn named_rungs() -> &'static [Rung] {
    &NAMED
}

fn tuple_rungs() -> &'static [Rung] {
    &TUPLES
}

fn map_rungs() -> &'static [Rung] {
    &MAPS
}

fn list_rungs() -> &'static [Rung] {
    &LISTS
}

fn binary_rungs() -> &'static [Rung] {
    &BINARIES
}

/// All rungs: each is less than those behind it, but for those of its own place.
pub fn ladder(alloc: Global) -> Result<Vec<Rung>, Fail> {
    let mut rungs = Vec::new(alloc);
    for part in [
        integer_rungs(),
        named_rungs(),
        tuple_rungs(),
        map_rungs(),
        list_rungs(),
        binary_rungs(),
    ] {
        for rung in part {
            rungs.push(*rung)?;
        }
    }
    Ok(rungs)
}
