// Tables of scripts, each with its replies, and the short ones among them.
use crate::cuts::cut;
use crate::repeats::whole_of;
use crate::runs::{Left, NAME_ALONE, Words, done, is_answered, told};
use crate::{binaries, grown, messages, rows, small, verbs};
use std::alloc::Global;
use std::test::Fail;

// What a script shows, the script, and its replies.
#[derive(Clone, Copy)]
struct Row {
    name: &'static [u8],
    script: &'static [u8],
    replies: &'static [u8],
}

// The first row of a table and those behind it. A row is its name, the lines of its script, a line with a mark alone, and the lines
// of its replies; a mark stands before each row, and the first of a table is gone.
fn first_row(table: &'static [u8]) -> (Row, &'static [u8]) {
    let (asked, behind) = cut(table, b'~');
    let (name, script) = cut(asked, b'\n');
    let (answered, others) = cut(behind, b'~');
    let (_, replies) = cut(answered, b'\n');
    let row = Row {
        name,
        script,
        replies,
    };
    (row, others)
}

// The words that ask for an arena of the fewest words.
const SMALL: Words<'static> = Words::Texts(&["beam_heap", "--arena", "4096"]);

// Whether a script is answered by these replies, in pieces of each size, and leaves this.
fn is_row_answered(alloc: Global, words: Words, row: Row, left: Left) -> bool {
    let script = whole_of(alloc, row.script);
    let replies = whole_of(alloc, row.replies);
    let ending = done(replies.bytes.as_slice(), left);
    !script.short && !replies.short && is_answered(alloc, words, script.bytes.as_slice(), ending)
}

// The name of the first row of a table that is answered otherwise by these words, or leaves something else; the table has so many
// rows, each with a name, and behind the last there is none.
fn wrong_row(
    alloc: Global,
    words: Words,
    table: &'static [u8],
    rows: usize,
    left: Left,
) -> Option<&'static [u8]> {
    let (_, mut rest) = cut(table, b'~');
    for _ in 0..rows {
        let (row, others) = first_row(rest);
        if row.name.is_empty() || !is_row_answered(alloc, words, row, left) {
            return Some(row.name);
        }
        rest = others;
    }
    if rest.is_empty() {
        return None;
    }
    Some(b"the table has more rows")
}

#[test]
fn short_scripts_are_answered(rt: HostRuntime) -> Result<(), Fail> {
    told(wrong_row(rt.alloc(), NAME_ALONE, rows::ROWS, 25, Left::Machine))
}

#[test]
fn verbs_on_terms_are_answered(rt: HostRuntime) -> Result<(), Fail> {
    told(wrong_row(rt.alloc(), NAME_ALONE, verbs::ROWS, 14, Left::Machine))
}

#[test]
fn binaries_and_funs_are_answered(rt: HostRuntime) -> Result<(), Fail> {
    told(wrong_row(rt.alloc(), NAME_ALONE, binaries::ROWS, 14, Left::Machine))
}

#[test]
fn messages_are_answered(rt: HostRuntime) -> Result<(), Fail> {
    told(wrong_row(rt.alloc(), NAME_ALONE, messages::ROWS, 13, Left::Machine))
}

#[test]
fn limits_are_kept(rt: HostRuntime) -> Result<(), Fail> {
    told(wrong_row(rt.alloc(), NAME_ALONE, grown::ROWS, 6, Left::Machine))
}

#[test]
fn terms_beyond_the_walk_limit_are_refused(rt: HostRuntime) -> Result<(), Fail> {
    told(wrong_row(rt.alloc(), NAME_ALONE, grown::BEYOND, 2, Left::Machine))
}

#[test]
fn small_arenas_refuse_by_what_lives(rt: HostRuntime) -> Result<(), Fail> {
    told(wrong_row(rt.alloc(), SMALL, small::ROWS, 6, Left::Named(0)))
}

#[test]
fn refused_lines_of_small_arenas_bring_no_name(rt: HostRuntime) -> Result<(), Fail> {
    told(wrong_row(rt.alloc(), SMALL, small::NAMING, 1, Left::Named(1)))
}
