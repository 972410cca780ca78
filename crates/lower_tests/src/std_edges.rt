// What std's readers and writers do, as sources and sinks tell it.
ghost use Rattle.std.specs.Prelude.{◌≤◌, IfOk};

use crate::parsing::UNREAD;
use line_io::{Got, Sink, Source, StdSink, StdSource, Took, put_all};
use std::io;
use std::io::{ErrorKind, Read, Write};

// What a reader or writer does at a call: it gives or takes at most so many bytes, is interrupted, or fails.
#[derive(Clone, Copy)]
enum Turn {
    Moves(usize),
    Interrupt,
    Fails(ErrorKind),
}

// One of the errors that are faults.
const BREAK: Turn = Turn::Fails(ErrorKind::BrokenPipe);

// A reader of the byte `x` and a writer that does its turns one after the other, and then the last one for ever.
#[derive(Drop)]
struct Scripted<'a> {
    turns: &'a [Turn],
    last: Turn,
}

impl<'a> Scripted<'a> {
    fn turn(&mut self, len: usize) -> io::Result<usize>
        ensures { IfOk result (λ n. n ≤ len) }
    {
        match self.next_turn() {
            Turn::Moves(n) => Ok(len.min(n)),
            Turn::Interrupt => Err(io::Error::from(ErrorKind::Interrupted)),
            Turn::Fails(kind) => Err(io::Error::from(kind)),
        }
    }

    fn next_turn(&mut self) -> Turn {
        match self.turns.split_first() {
            Some((turn, others)) => {
                self.turns = others;
                *turn
            }
            None => self.last,
        }
    }
}

impl<'a> Read for Scripted<'a> {
    fn read(&mut self, buf: &mut [u8]) -> io::Result<usize> {
        let n = self.turn(buf.len())?;
        buf[..n].fill(b'x');
        Ok(n)
    }
}

impl<'a> Write for Scripted<'a> {
    fn write(&mut self, bytes: &[u8]) -> io::Result<usize> {
        self.turn(bytes.len())
    }

    fn flush(&mut self) -> io::Result<()> {
        self.turn(0)?;
        Ok(())
    }
}

// What a read is to bring.
enum Reading {
    Bytes(usize),
    End,
    Fault,
}

// The turns of a reader, what it does from then on, and what reads into `abcd` bring and make of it.
const READS: [(&[Turn], Turn, &[(Reading, [u8; 4])]); 4] = [
    (
        &[Turn::Moves(2), BREAK, Turn::Moves(9), BREAK],
        Turn::Moves(0),
        &[
            (Reading::Bytes(2), *b"xxcd"),
            (Reading::Fault, *b"abcd"),
            (Reading::Bytes(4), *b"xxxx"),
            (Reading::Fault, *b"abcd"),
            (Reading::End, *b"abcd"),
        ],
    ),
    (
        &[Turn::Interrupt, Turn::Moves(3), Turn::Interrupt],
        Turn::Moves(0),
        &[(Reading::Bytes(3), *b"xxxd"), (Reading::End, *b"abcd")],
    ),
    (&[Turn::Interrupt], BREAK, &[(Reading::Fault, *b"abcd")]),
    (
        &[],
        Turn::Interrupt,
        &[(Reading::Fault, *b"abcd"), (Reading::Fault, *b"abcd")],
    ),
];

fn is_reading(got: Got, reading: &Reading) -> bool {
    match reading {
        Reading::Bytes(count) => matches!(got, Got::Got(n) if n == *count),
        Reading::End => matches!(got, Got::End),
        Reading::Fault => matches!(got, Got::Failed),
    }
}

fn reads_as(turns: &[Turn], last: Turn, readings: &[(Reading, [u8; 4])]) -> bool {
    let mut source = StdSource::new(Scripted { turns, last });
    let mut all = true;
    for (reading, text) in readings {
        let mut buf = *b"abcd";
        all &= is_reading(source.read(&mut buf), reading);
        all &= buf == *text;
    }
    all
}

// A reader of std gives its bytes, its faults and its end.
fn readers_give() -> bool {
    for (turns, last, readings) in &READS {
        if !reads_as(turns, *last, readings) {
            return false;
        }
    }
    true
}

// The turns of a write of four bytes and of the flush after it, and how many bytes are told; none for a fault.
const WRITES: [(&[Turn], Option<usize>); 10] = [
    (&[Turn::Moves(2), Turn::Moves(0)], Some(2)),
    (&[Turn::Moves(9), Turn::Moves(0)], Some(4)),
    (&[Turn::Moves(0), Turn::Moves(0)], None),
    (&[Turn::Moves(0), BREAK], None),
    (&[Turn::Moves(4), BREAK], None),
    (&[BREAK, Turn::Moves(0)], None),
    (&[Turn::Interrupt, Turn::Moves(3), Turn::Moves(0)], Some(3)),
    (&[Turn::Moves(3), Turn::Interrupt, Turn::Moves(0)], Some(3)),
    (&[], None),
    (&[Turn::Moves(4)], None),
];

fn takes_as(turns: &[Turn], taken: Option<usize>) -> bool {
    let last = Turn::Interrupt;
    let mut sink = StdSink::new(Scripted { turns, last });
    match sink.write(b"abcd") {
        Took::Took(n) => taken == Some(n),
        Took::Failed => taken.is_none(),
    }
}

// A writer of std takes bytes or fails.
fn writers_take() -> bool {
    for (turns, taken) in &WRITES {
        if !takes_as(turns, *taken) {
            return false;
        }
    }
    true
}

// Errors that are no interrupt.
const FAULTS: [ErrorKind; 6] = [
    ErrorKind::WouldBlock,
    ErrorKind::UnexpectedEof,
    ErrorKind::BrokenPipe,
    ErrorKind::StorageFull,
    ErrorKind::TimedOut,
    ErrorKind::Other,
];

// What two reads bring where the first fails.
const FAULTY: [(Reading, [u8; 4]); 2] = [(Reading::Fault, *b"abcd"), (Reading::End, *b"abcd")];

// Whether an error is a fault of a read, of a write and of a flush.
fn is_fault(kind: ErrorKind) -> bool {
    let turns = [Turn::Fails(kind)];
    let flushing = [Turn::Moves(4), Turn::Fails(kind)];
    reads_as(&turns, Turn::Moves(0), &FAULTY) && takes_as(&turns, None) && takes_as(&flushing, None)
}

fn errors_are_faults() -> bool {
    for kind in &FAULTS {
        if !is_fault(*kind) {
            return false;
        }
    }
    true
}

// A writer that takes at most 300 bytes at once, and keeps them.
#[derive(Drop)]
struct Keeps<'a> {
    kept: &'a mut Vec<u8>,
}

impl<'a> Write for Keeps<'a> {
    fn write(&mut self, bytes: &[u8]) -> io::Result<usize> {
        let n = bytes.len().min(300);
        self.kept.extend_from_slice(&bytes[..n])?;
        Ok(n)
    }

    fn flush(&mut self) -> io::Result<()> {
        Ok(())
    }
}

// The lines of a text, which is longer than two parts, come whole and in order to a writer that takes them in parts.
fn parts_arrive(kept: &mut Vec<u8>) -> bool {
    let mut sink = StdSink::new(Keeps { kept: &mut *kept });
    let written = put_all(&mut sink, UNREAD).is_ok();
    written & (UNREAD.len() > 600) & (kept.as_slice() == UNREAD)
}

#[test]
fn readers_and_writers_of_std_are_sources_and_sinks(rt: HostRuntime) {
    let mut kept = Vec::new(rt.alloc());
    assert!(rt; parts_arrive(&mut kept));
    assert!(rt; readers_give());
    assert!(rt; writers_take());
    assert!(rt; errors_are_faults());
}
