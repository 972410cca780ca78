// A row, a stack and registers are relocated in place.
use crate::memory::{holds, laid};
use std::alloc::Global;
use std::rt::HostRuntime;
use word_mem::{OpenFault, Span};
use word_shift::{MovedSpan, relocate_all, relocate_row, relocate_words};

// A row from 2 on: a cons of a pid and the holder, the holder at 4, at 10 a fun with the cons in its environment, which leads on to
// the holder, a tuple of the fun and the pid, a sub binary of the holder, and a big integer whose digit looks like a pointer. At 27 a
// word behind the row, at 30 a stack of three words.
const BEFORE: [u64; 34] = [
    0, 0, 79, 18, 352, 2, 0, 40, 0, 0, 404, 45, 4, 2, 1, 19, 9, 128, 42, 79, 296, 1, 0, 0, 18, 72,
    41, 42, 0, 0, 42, 79, 9, 0,
];

// The same where all places from 2 up to 60 come to 100 places further up: 0, the end of a chain, is not among them.
const AFTER: [u64; 34] = [
    0, 0, 79, 418, 352, 2, 0, 140, 0, 0, 404, 145, 104, 2, 1, 19, 409, 128, 442, 79, 296, 1, 0, 0,
    418, 72, 41, 42, 0, 0, 442, 79, 409, 0,
];

// Where the places come to.
const UP: MovedSpan = MovedSpan {
    from: Span { start: 2, end: 60 },
    to: 102,
};

// Each word of the row and of the stack that leads to a place leads to the new one, and no other word changed.
fn are_relocated(alloc: Global) -> Result<bool, OpenFault> {
    let mut mem = laid(alloc, &BEFORE)?;
    relocate_row(&mut mem, 2, 27, &UP);
    relocate_words(&mut mem, 30, 33, &UP);
    let mut registers = [9, 79, 42];
    relocate_all(&mut registers, &mem, &UP);
    let told = registers[0] == 409 && registers[1] == 79 && registers[2] == 442;
    Ok(told && holds(&mem, 0, &AFTER))
}

#[test]
fn words_lead_to_new_places(rt: HostRuntime) {
    assert!(rt; are_relocated(rt.alloc()).expect(&rt, "a memory"));
}
