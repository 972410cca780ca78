// Command lines, and what the program makes of them.
use crate::cuts::cut;
use crate::runs::{Ending, Left, NONE, Words, done, ends, told};
use arrayvec::ArrayVec;
use machine_run::{Status, number};
use std::alloc::Global;
use std::test::Fail;

// A script that is read, and its reply.
const SCRIPT: &[u8] = b"1 print 0\n";

const REPLY: &[u8] = b"[]\n";

// Words as the system gives them, which need be no text, a mark `|` behind each: in the rows with a `+` before them they are taken,
// in those with a `-` they are a faulty command line.
const ROWS: &[u8] = b"+beam_heap|
+
+beam_heap|--arena|4096|
+|--arena|4096|
+beam_heap|--arena|0004096|
+beam_heap|--arena|16777216|
+beam_heap|--space|one|
+beam_heap|--space=one|--arena=4098|
+beam_heap|--|
+beam_heap|--arena|4096|--|
-beam_heap|--arena|4097|
-beam_heap|--arena|4094|
-beam_heap|--arena|16777218|
-beam_heap|--arena|+4096|
-beam_heap|--arena||
-beam_heap|--arena|4096|--arena|4096|
-beam_heap|--arena|
-beam_heap|--arena|4096||
-beam_heap|--arena|4\xff96|
-beam_heap|--space|two|
-beam_heap|--space|own|
-beam_heap|--space|one|--help|
-beam_heap|--gen|18446744073709551616|
-beam_heap|--gen|-1|
-beam_heap|--gen|1|--gen|1|
-beam_heap|--help|
-beam_heap|script|
-beam_heap|--|script|
-beam_heap|--|--arena|4096|
-beam_heap|--gen|--|
-beam_heap|--|--|
-beam_heap||
-\xff|
";

// How many rows there are, and how many words a row has at most.
const COUNT: usize = 33;

const MOST: usize = 5;

// How a run by the words of a row with this mark must end.
fn ending_of(mark: u8) -> Option<Ending<'static>> {
    match mark {
        b'+' => Some(done(REPLY, Left::Machine)),
        b'-' => Some(Ending {
            ends: number(Status::Usage),
            written: b"",
            left: Left::Vacant,
        }),
        _ => None,
    }
}

// Puts the words of a row behind one another, and tells whether each found a place.
fn put_words<'a>(row: &'a [u8], words: &mut ArrayVec<&'a [u8], MOST>) -> bool {
    let mut have_room = true;
    let mut rest = row;
    for _ in 0..row.len() {
        if !rest.is_empty() {
            let (word, others) = cut(rest, b'|');
            have_room &= words.try_push(word).is_ok();
            rest = others;
        }
    }
    have_room
}

// Whether a run by the words of a row ends as it says.
fn is_row_taken(alloc: Global, row: &[u8]) -> bool {
    let mut words = ArrayVec::new();
    if let Some((mark, rest)) = row.split_first()
        && let Some(ending) = ending_of(*mark)
        && put_words(rest, &mut words)
    {
        ends(
            alloc,
            Words::Bytes(words.as_slice()),
            SCRIPT,
            7,
            NONE,
            ending,
        )
    } else {
        false
    }
}

// The first row that is taken otherwise; there are so many, and behind the last there is none.
fn wrong_row(alloc: Global) -> Option<&'static [u8]> {
    let mut rest = ROWS;
    for _ in 0..COUNT {
        let (row, others) = cut(rest, b'\n');
        if !is_row_taken(alloc, row) {
            return Some(row);
        }
        rest = others;
    }
    if rest.is_empty() {
        return None;
    }
    Some(b"there are more rows")
}

#[test]
fn words_are_options_or_usage(rt: HostRuntime) -> Result<(), Fail> {
    told(wrong_row(rt.alloc()))
}
