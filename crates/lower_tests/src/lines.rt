// Lines come with ample memory, whatever the pieces; limits and faults stay.
ghost use Rattle.std.specs.Prelude.{◌<◌};

use line_io::{Limits, LineGot, LineReader, MemSource};
use std::alloc::{AllocError, Global};

// What a call for the next line is to answer: a line by its length.
enum Answer {
    Line(usize),
    Long,
    End,
    Fault,
    TooMuch,
}

// An input is so many letters and then some bytes.
struct Row {
    letters: usize,
    bytes: &'static [u8],
    limits: Limits,
    answers: &'static [Answer],
}

const AMPLE: Limits = Limits {
    lines: 100,
    bytes: 100_000,
};

const TWO_LINES: Limits = Limits {
    lines: 2,
    bytes: 100,
};

const FIFTEEN_BYTES: Limits = Limits {
    lines: 100,
    bytes: 15,
};

const THREE: &[u8] = b"1 print 0\n1 print 0\n1 print 0\n";

const ROWS: [Row; 11] = [
    Row {
        letters: 0,
        bytes: b"",
        limits: AMPLE,
        answers: &[Answer::End, Answer::End],
    },
    Row {
        letters: 0,
        bytes: b"\n",
        limits: AMPLE,
        answers: &[Answer::Line(0), Answer::End, Answer::End],
    },
    Row {
        letters: 0,
        bytes: b"ab\r\ncd",
        limits: AMPLE,
        answers: &[Answer::Line(2), Answer::Line(2), Answer::End, Answer::End],
    },
    Row {
        letters: 0,
        bytes: b"a\rb\r\r\n\rc\r",
        limits: AMPLE,
        answers: &[Answer::Line(4), Answer::Line(3), Answer::End, Answer::End],
    },
    Row {
        letters: 4095,
        bytes: b"\n",
        limits: AMPLE,
        answers: &[Answer::Line(4095), Answer::End],
    },
    Row {
        letters: 4096,
        bytes: b"\n",
        limits: AMPLE,
        answers: &[Answer::Line(4096), Answer::End],
    },
    Row {
        letters: 4097,
        bytes: b"\n",
        limits: AMPLE,
        answers: &[Answer::Long, Answer::End],
    },
    Row {
        letters: 20_000,
        bytes: b"\n",
        limits: AMPLE,
        answers: &[Answer::Long, Answer::End, Answer::End],
    },
    Row {
        letters: 0,
        bytes: THREE,
        limits: TWO_LINES,
        answers: &[
            Answer::Line(9),
            Answer::Line(9),
            Answer::TooMuch,
            Answer::TooMuch,
        ],
    },
    Row {
        letters: 0,
        bytes: THREE,
        limits: FIFTEEN_BYTES,
        answers: &[Answer::Line(9), Answer::TooMuch, Answer::TooMuch],
    },
    Row {
        letters: 0,
        bytes: THREE,
        limits: AMPLE,
        answers: &[
            Answer::Line(9),
            Answer::Line(9),
            Answer::Line(9),
            Answer::End,
            Answer::End,
        ],
    },
];

fn put_input(input: &mut Vec<u8>, row: &Row) -> Result<(), AllocError> {
    input.resize(row.letters, b'a')?;
    input.extend_from_slice(row.bytes)
}

fn is_answer(got: LineGot, len: usize, answer: &Answer) -> bool {
    match answer {
        Answer::Line(wanted) => matches!(got, LineGot::Line) && len == *wanted,
        Answer::Long => matches!(got, LineGot::Long),
        Answer::End => matches!(got, LineGot::End),
        Answer::Fault => matches!(got, LineGot::Fault),
        Answer::TooMuch => matches!(got, LineGot::TooMuch),
    }
}

// Whether the calls for the next line, one after the other, are answered so.
fn all_come(source: &mut MemSource, reader: &mut LineReader, answers: &[Answer]) -> bool {
    for answer in answers {
        let got = reader.next(source);
        if !is_answer(got, reader.line().len(), answer) {
            return false;
        }
    }
    true
}

fn reads_as(
    alloc: Global,
    bytes: &[u8],
    piece: usize,
    failing: &[u64],
    limits: Limits,
    answers: &[Answer],
) -> bool
    requires { 0 < piece }
{
    let Ok(mut source) = MemSource::new(alloc, bytes, piece, failing) else {
        return false;
    };
    let Ok(mut reader) = LineReader::new(alloc, limits) else {
        return false;
    };
    all_come(&mut source, &mut reader, answers)
}

fn row_holds(alloc: Global, row: &Row) -> bool {
    let mut input = Vec::new(alloc);
    if put_input(&mut input, row).is_err() {
        return false;
    }
    let bytes = input.as_slice();
    reads_as(alloc, bytes, 1, &[], row.limits, row.answers)
        && reads_as(alloc, bytes, 7, &[], row.limits, row.answers)
        && reads_as(alloc, bytes, 8192, &[], row.limits, row.answers)
}

#[test]
fn lines_come_whatever_the_pieces(rt: HostRuntime) {
    for row in &ROWS {
        assert!(rt; row_holds(rt.alloc(), row));
    }
}

// At a source whose eleventh read of one byte fails.
const FAULTY: [Answer; 4] = [Answer::Line(9), Answer::Fault, Answer::Fault, Answer::Fault];

#[test]
fn a_fault_stays(rt: HostRuntime) {
    assert!(rt; reads_as(rt.alloc(), THREE, 1, &[11], AMPLE, &FAULTY));
}
