// The limits of a reader.
use crate::runs::ROOM;
use engine::serve;
use line_io::{Limits, LineReader, MemSink, MemSource};
use machine_run::{Status, first_machine};
use std::alloc::Global;

// A reader of two lines at most.
const TWO_LINES: Limits = Limits {
    lines: 2,
    bytes: 100,
};

// Three lines, and the replies to the first two.
const THREE_LINES: &[u8] = b"1 print 0\n1 print 0\n1 print 0\n";

const TWO_REPLIES: &[u8] = b"[]\n[]\n";

// Whether of three lines the two that such a reader allows are answered, and no more.
fn two_of_three_are_answered(alloc: Global) -> bool {
    if let Ok(mut reader) = LineReader::new(alloc, TWO_LINES)
        && let Ok(mut source) = MemSource::new(alloc, THREE_LINES, 7, &[])
        && let Ok(mut sink) = MemSink::new(alloc, ROOM, 7, &[])
        && let Some(mut machine) = first_machine(alloc, 4096)
    {
        let status = serve(&mut machine, &mut reader, &mut source, &mut sink);
        matches!(status, Status::TooMuch) && sink.bytes() == TWO_REPLIES
    } else {
        false
    }
}

#[test]
fn more_lines_than_are_allowed_are_too_much(rt: HostRuntime) {
    assert!(rt; two_of_three_are_answered(rt.alloc()));
}
