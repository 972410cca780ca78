// An object of each kind is moved.
use crate::memory::{empty, holds, laid};
use cheney::{Moving, Stay, collect, collect_with, evacuate_places, scan};
use std::alloc::Global;
use std::rt::HostRuntime;
use word_mem::{OpenFault, Span};

// 2^63, a big integer's digit.
const BIG: u64 = 1 << 63;

// An object of each kind; the word of place p is p * 4 + 1 for a cons, else p * 4 + 2. At 1 the cons [1]; at 3 a
// tuple of an atom and that list; at 6 the bytes 7, 8, 9; at 9 the record of the shared bytes 1, 2, at 14 its holder, at 20
// byte 1 of these; at 25 the record of a fun, at 29 the fun, with one place; at 36 the keys of a map, at 38 the map of an
// atom to 9; at 42 a reference, which stays; at 45 2^63; at 47 the empty tuple; at 48 2^64. From 51 on all is free, but for
// a stack of the roots at 91.
const BEFORE: [u64; 144] = [
    0, 31, 59, 128, 331, 5, 164, 3, 591879, 86, 1, 1, 2, 513, 352, 2, 0, 9, 0, 0, 296, 1, 1, 0, 58,
    71, 770, 1, 0, 404, 25, 0, 2, 1, 19, 79, 64, 75, 252, 1, 146, 159, 144, 1, 7, 72, BIG, 0, 136,
    0, 1, 0, 0, 0, 0, 0, 0, 0, 0, 0, 0, 0, 0, 0, 0, 0, 0, 0, 0, 0, 0, 0, 0, 0, 0, 0, 0, 0, 0, 0, 0,
    0, 0, 0, 0, 0, 0, 0, 0, 0, 0, 5, 14, 26, 58, 82, 118, 154, 170, 182, 190, 194, 5, 79, 0, 0, 0,
    0, 0, 0, 0, 0, 0, 0, 0, 0, 0, 0, 0, 0, 0, 0, 0, 0, 0, 0, 0, 0, 0, 0, 0, 0, 0, 0, 0, 0, 0, 0, 0,
    0, 0, 0, 0, 0,
];

// A moved object has its new word in its first place, a moved cons in its second. From 51 on: the cons, the
// tuple, the bytes. From 60 on: the holder, the part of it, the fun, the map, 2^63, the empty tuple, 2^64, the keys.
const AFTER: [u64; 91] = [
    0, 0, 205, 214, 331, 5, 226, 3, 591879, 86, 1, 1, 2, 513, 242, 2, 0, 9, 0, 0, 266, 1, 1, 0, 58,
    71, 770, 1, 0, 286, 25, 0, 2, 1, 19, 79, 354, 75, 314, 1, 146, 159, 144, 1, 7, 330, BIG, 338,
    342, 0, 1, 31, 59, 128, 331, 205, 164, 3, 591879, 0, 352, 2, 0, 9, 0, 0, 296, 1, 1, 0, 242,
    404, 25, 0, 2, 1, 19, 79, 252, 1, 354, 159, 72, BIG, 0, 136, 0, 1, 64, 75, 0,
];

// The same from 104 on, in the order of the roots.
const AGAIN: [u64; 40] = [
    31, 59, 128, 331, 417, 164, 3, 591879, 352, 2, 0, 9, 0, 0, 296, 1, 1, 0, 450, 404, 25, 0, 2, 1,
    19, 79, 252, 1, 562, 159, 72, BIG, 0, 136, 0, 1, 64, 75, 0, 0,
];

// The roots, the word of the cons twice and an integer at the end; and what they become.
const ROOTS: [u64; 13] = [5, 14, 26, 58, 82, 118, 154, 170, 182, 190, 194, 5, 79];

const MOVED: [u64; 13] = [
    205, 214, 226, 242, 266, 286, 314, 170, 330, 338, 342, 205, 79,
];

const MOVED_AGAIN: [u64; 13] = [
    417, 426, 438, 450, 474, 494, 522, 170, 538, 546, 550, 417, 79,
];

// The first two roots as registers, what they become, and the stack after that: its first two places are not given.
const REGISTERS: [u64; 2] = [5, 14];

const MOVED_REGISTERS: [u64; 2] = [205, 214];

const MOVED_STACK: [u64; 13] = [5, 14, 226, 242, 266, 286, 314, 170, 330, 338, 342, 205, 79];

// A collection of each kind, and a second one of what it has moved: the roots, the ends of the rooms and all words are
// as they have to be after each.
fn is_moved_twice(alloc: Global) -> Result<bool, OpenFault> {
    let mut mem = laid(alloc, &BEFORE)?;
    let stay = Stay::none().with(Span { start: 42, end: 45 });
    let mut again = Moving {
        stay: stay.copied(),
        from_space: Span { start: 51, end: 90 },
        mature: Span { start: 0, end: 0 },
        aged: empty(0, 0),
        young: empty(104, 144),
    };
    let mut mv = Moving {
        stay,
        from_space: Span { start: 1, end: 42 },
        mature: Span { start: 1, end: 9 },
        aged: empty(51, 60),
        young: empty(60, 91),
    };
    let mut roots = ROOTS;
    collect(&mut mem, &mut mv, &mut roots);
    if roots != MOVED || mv.aged.top != 59 || mv.young.top != 90 || !holds(&mem, 0, &AFTER) {
        return Ok(false);
    }
    collect(&mut mem, &mut again, &mut roots);
    Ok(
        roots == MOVED_AGAIN
            && again.aged.top == 0
            && again.young.top == 142
            && holds(&mem, 104, &AGAIN),
    )
}

// The same roots, as they stand on a stack in the memory.
fn is_moved_from_a_stack(alloc: Global) -> Result<bool, OpenFault> {
    let mut mem = laid(alloc, &BEFORE)?;
    let mut mv = Moving {
        stay: Stay::none().with(Span { start: 42, end: 45 }),
        from_space: Span { start: 1, end: 42 },
        mature: Span { start: 1, end: 9 },
        aged: empty(51, 60),
        young: empty(60, 91),
    };
    evacuate_places(&mut mem, &mut mv, 91, 1, 13);
    scan(&mut mem, &mut mv);
    Ok(holds(&mem, 0, &AFTER) && holds(&mem, 91, &MOVED))
}

// The first two roots as registers, and the others as they stand on that stack.
fn is_moved_with_registers(alloc: Global) -> Result<bool, OpenFault> {
    let mut mem = laid(alloc, &BEFORE)?;
    let mut mv = Moving {
        stay: Stay::none().with(Span { start: 42, end: 45 }),
        from_space: Span { start: 1, end: 42 },
        mature: Span { start: 1, end: 9 },
        aged: empty(51, 60),
        young: empty(60, 91),
    };
    let mut regs = REGISTERS;
    collect_with(&mut mem, &mut mv, &mut regs, 93, 11);
    Ok(regs == MOVED_REGISTERS && holds(&mem, 0, &AFTER) && holds(&mem, 91, &MOVED_STACK))
}

#[test]
fn each_kind_is_moved_once(rt: HostRuntime) {
    assert!(rt; is_moved_twice(rt.alloc()).expect(&rt, "a memory"));
}

#[test]
fn roots_on_a_stack_are_moved(rt: HostRuntime) {
    assert!(rt; is_moved_from_a_stack(rt.alloc()).expect(&rt, "a memory"));
}

#[test]
fn registers_and_a_stack_are_moved(rt: HostRuntime) {
    assert!(rt; is_moved_with_registers(rt.alloc()).expect(&rt, "a memory"));
}

// Places, and whether they stay by the spans of the test below.
const STAYING: [(u64, bool); 9] = [
    (3, false),
    (4, true),
    (7, true),
    (8, false),
    (9, false),
    (10, true),
    (14, true),
    (25, true),
    (30, false),
];

#[test]
fn spans_that_overlap_are_found(rt: HostRuntime) {
    let stay = Stay::none()
        .with(Span { start: 10, end: 20 })
        .with(Span { start: 4, end: 8 })
        .with(Span { start: 12, end: 13 })
        .with(Span { start: 15, end: 30 });
    for (place, want) in &STAYING {
        assert!(rt; stay.has(*place) == *want, "place {place}");
    }
}
