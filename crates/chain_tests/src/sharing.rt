// Holders and funs that share records.
use crate::memory::{empty, holds, laid};
use cheney::{Moving, Stay, collect};
use off_heap_list::{Order, deal_chain, sweep_chain, sweep_front};
use record_move::move_records;
use std::alloc::Global;
use std::rt::HostRuntime;
use word_mem::{OpenFault, Span};

// At 2, 8 and 14 three holders, at 20 and 27 two funs with one place: the chain goes from 27 back to 2. At 40 a record of two
// bytes, which the first two holders name, at 45 one of one byte, at 50 a fun's record. From 54 on all is free.
pub(crate) const BEFORE: [u64; 128] = [
    0, 0, 352, 2, 0, 40, 0, 0, 352, 2, 2, 40, 0, 0, 352, 1, 8, 45, 0, 0, 404, 50, 14, 2, 1, 19, 79,
    404, 50, 20, 2, 1, 19, 79, 0, 0, 0, 0, 0, 0, 86, 1, 2, 2, 513, 86, 2, 1, 1, 3, 71, 770, 2, 0,
    0, 0, 0, 0, 0, 0, 0, 0, 0, 0, 0, 0, 0, 0, 0, 0, 0, 0, 0, 0, 0, 0, 0, 0, 0, 0, 0, 0, 0, 0, 0, 0,
    0, 0, 0, 0, 0, 0, 0, 0, 0, 0, 0, 0, 0, 0, 0, 0, 0, 0, 0, 0, 0, 0, 0, 0, 0, 0, 0, 0, 0, 0, 0, 0,
    0, 0, 0, 0, 0, 0, 0, 0, 0, 0,
];

// The first holder and both funs.
const ROOTS: [u64; 3] = [10, 82, 110];

// The records as the sweep leaves them: the first is named once, the second by none, the third twice.
const COUNTED: [u64; 14] = [86, 1, 1, 2, 513, 86, 2, 0, 1, 3, 71, 770, 2, 0];

// What was moved, in the order of the roots, and what it names in the end.
const OBJECTS: [u64; 20] = [
    352, 2, 0, 119, 0, 0, 404, 124, 66, 2, 1, 19, 79, 404, 124, 72, 2, 1, 19, 79,
];

// The records that are left, the last one named first.
const RECORDS: [u64; 9] = [86, 1, 1, 2, 513, 71, 770, 2, 0];

// A collection leaves two holders behind: the count of the one's record falls to 1, the other's record is freed. The two
// records that are left move once each.
fn are_swept_and_moved(alloc: Global) -> Result<bool, OpenFault> {
    let mut mem = laid(alloc, &BEFORE)?;
    let mut mv = Moving {
        stay: Stay::none(),
        from_space: Span { start: 2, end: 34 },
        mature: Span { start: 0, end: 0 },
        aged: empty(64, 64),
        young: empty(66, 100),
    };
    let mut roots = ROOTS;
    collect(&mut mem, &mut mv, &mut roots);
    let left = sweep_chain(&mut mem, 27, 5, Order::Same);
    let swept = left.first == 79 && left.len == 3 && left.words == 1;
    let told = left.last == 14 && left.freed == 1;
    if !swept || !told || !holds(&mem, 40, &COUNTED) {
        return Ok(false);
    }
    let low = move_records(&mut mem, left.first, left.len, 128);
    Ok(low == 119 && holds(&mem, 66, &OBJECTS) && holds(&mem, 119, &RECORDS))
}

// The front part of a chain is swept, here all of it, and dealt: the two funs, which lie behind the span, come before the holder in it.
fn are_swept_and_dealt(alloc: Global) -> Result<bool, OpenFault> {
    let mut mem = laid(alloc, &BEFORE)?;
    let mut mv = Moving {
        stay: Stay::none(),
        from_space: Span { start: 2, end: 34 },
        mature: Span { start: 0, end: 0 },
        aged: empty(64, 64),
        young: empty(66, 100),
    };
    let mut roots = ROOTS;
    collect(&mut mem, &mut mv, &mut roots);
    let front = sweep_front(&mut mem, 27, 5);
    let swept = front.rest == 0 && front.left.first == 66 && front.left.len == 3;
    let span = Span { start: 66, end: 72 };
    let dealt = deal_chain(&mut mem, front.left.first, front.left.len, span, front.rest);
    let told = dealt.first == 72 && dealt.young == 2 && dealt.words == 0;
    let linked = holds(&mem, 74, &[79]) && holds(&mem, 81, &[66]) && holds(&mem, 68, &[0]);
    Ok(swept && told && linked)
}

#[test]
fn sharers_are_swept_and_their_records_moved(rt: HostRuntime) {
    assert!(rt; are_swept_and_moved(rt.alloc()).expect(&rt, "a memory"));
    assert!(rt; are_swept_and_dealt(rt.alloc()).expect(&rt, "a memory"));
}
