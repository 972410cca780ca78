// What a status is outside.
use machine_run::{Status, complaint, number};

// The number that the process ends with, and the line that standard error gets.
const STATUSES: [(Status, u8, Option<&str>); 6] = [
    (Status::Done, 0, None),
    (
        Status::Usage,
        1,
        Some("usage: beam_heap [--arena N] [--space one|own] [--gen N]"),
    ),
    (Status::ReadFault, 2, Some("beam_heap: read fault")),
    (Status::WriteFault, 3, Some("beam_heap: write fault")),
    (Status::Memory, 4, Some("beam_heap: no memory")),
    (Status::TooMuch, 5, Some("beam_heap: script too long")),
];

// Whether each status has its number and its line.
fn are_outside() -> bool {
    for (status, wanted, line) in &STATUSES {
        if number(*status) != *wanted || complaint(*status) != *line {
            return false;
        }
    }
    true
}

#[test]
fn statuses_have_their_numbers_and_lines(rt: HostRuntime) {
    assert!(rt; are_outside());
}
