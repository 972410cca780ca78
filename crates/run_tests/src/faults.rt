// Reads and writes that fail, each call in turn.
ghost use Rattle.std.specs.Prelude.{◌<◌, ◌≤◌};

use crate::runs::{Ending, Failing, Left, NAME_ALONE, ends};
use machine_run::{Status, number};
use std::alloc::Global;

// A line, its reply, and a script of such lines with its replies.
const LINE: &[u8] = b"1 print 0\n";

const REPLY: &[u8] = b"[]\n";

const LINES: usize = 3;

const SCRIPT: &[u8] = b"1 print 0\n1 print 0\n1 print 0\n";

const REPLIES: &[u8] = b"[]\n[]\n[]\n";

// More calls than the script or its replies take.
const CALLS: usize = 32;

// What a run comes to: its status, and how many bytes of the replies were written.
#[derive(Clone, Copy)]
struct End {
    status: Status,
    written: usize,
}

// The same with the replies.
fn ending_of(end: End) -> Ending<'static>
    requires { end.written ≤ 9 }
{
    Ending {
        ends: number(end.status),
        written: &REPLIES[..end.written],
        left: Left::Machine,
    }
}

// The end where this read fails: the whole lines that came before were answered. The last read finds the end.
fn reading_ends(call: usize, piece: usize) -> End
    requires call { 0 < call }
    requires piece { 0 < piece }
    ensures { result.written ≤ 9 }
{
    if call > SCRIPT.len().div_ceil(piece) + 1 {
        return End {
            status: Status::Done,
            written: REPLIES.len(),
        };
    }
    let came = (call - 1).saturating_mul(piece).min(SCRIPT.len());
    End {
        status: Status::ReadFault,
        written: came / LINE.len() * REPLY.len(),
    }
}

// The end where this write fails: the replies leave one by one, in pieces.
fn writing_ends(call: usize, piece: usize) -> End
    requires call { 0 < call }
    requires piece { 0 < piece }
    ensures { result.written ≤ 9 }
{
    let each = REPLY.len().div_ceil(piece);
    if call > LINES * each {
        return End {
            status: Status::Done,
            written: REPLIES.len(),
        };
    }
    let whole = (call - 1) / each * REPLY.len();
    let part = ((call - 1) % each).saturating_mul(piece);
    End {
        status: Status::WriteFault,
        written: whole.saturating_add(part).min(REPLIES.len()),
    }
}

// Whether a fault of this read is told, in pieces of this size.
fn is_reading_told(alloc: Global, call: usize, piece: usize) -> bool
    requires call { 0 < call }
    requires piece { 0 < piece }
{
    let failing = Failing {
        reads: &[call as u64],
        writes: &[],
    };
    let ending = ending_of(reading_ends(call, piece));
    ends(alloc, NAME_ALONE, SCRIPT, piece, failing, ending)
}

// The same of this write.
fn is_writing_told(alloc: Global, call: usize, piece: usize) -> bool
    requires call { 0 < call }
    requires piece { 0 < piece }
{
    let failing = Failing {
        reads: &[],
        writes: &[call as u64],
    };
    let ending = ending_of(writing_ends(call, piece));
    ends(alloc, NAME_ALONE, SCRIPT, piece, failing, ending)
}

// The same of each call.
fn are_told(alloc: Global, piece: usize) -> bool
    requires { 0 < piece }
{
    for call in 1..CALLS {
        if !is_reading_told(alloc, call, piece) || !is_writing_told(alloc, call, piece) {
            return false;
        }
    }
    true
}

#[test]
fn faults_are_told(rt: HostRuntime) {
    assert!(rt; are_told(rt.alloc(), 1) && are_told(rt.alloc(), 7));
}
