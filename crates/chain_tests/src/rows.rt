// The holders and funs of a row of objects.
use crate::memory::{holds, laid};
use crate::sharing::BEFORE;
use object_rows::{chain_row, drop_next, raise_row};
use std::alloc::Global;
use std::rt::HostRuntime;
use word_mem::OpenFault;

// The records of the row when each of its objects is counted twice.
const RAISED: [u64; 14] = [86, 1, 4, 2, 513, 86, 2, 2, 1, 3, 71, 770, 4, 0];

// Three holders and two funs come into a chain, and hold a word of bytes each: the last fun is its first object.
fn are_chained(alloc: Global) -> Result<bool, OpenFault> {
    let mut mem = laid(alloc, &BEFORE)?;
    let chained = chain_row(&mut mem, 2, 34, 0);
    Ok(
        chained.head == 27
            && chained.count == 5
            && chained.words == 3
            && holds(&mem, 27, &[404, 50, 20]),
    )
}

// Each record counts those of the row that name it once more.
fn are_counted_twice(alloc: Global) -> Result<bool, OpenFault> {
    let mut mem = laid(alloc, &BEFORE)?;
    raise_row(&mut mem, 2, 34);
    Ok(holds(&mem, 40, &RAISED))
}

// From the last holder on: its record has no other, so it is told.
fn is_dropped(alloc: Global) -> Result<bool, OpenFault> {
    let mut mem = laid(alloc, &BEFORE)?;
    match drop_next(&mut mem, 14, 34) {
        Some(told) => Ok(told.object == 14 && told.next == 20 && told.freed == Some(45)),
        None => Ok(false),
    }
}

#[test]
fn rows_are_chained_and_counted(rt: HostRuntime) {
    assert!(rt; are_chained(rt.alloc()).expect(&rt, "a memory"));
    assert!(rt; are_counted_twice(rt.alloc()).expect(&rt, "a memory"));
    assert!(rt; is_dropped(rt.alloc()).expect(&rt, "a memory"));
}
