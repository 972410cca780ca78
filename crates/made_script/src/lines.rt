// The text of a line.
ghost use Rattle.std.specs.Prelude.{◌≡◌, ◌+◌, ◌<◌, ◌≤◌, ◌++◌, [], decimal, map, length, nat_le, true, slice_index_or};
ghost use Rattle.std.specs.List.{concat, list_all};
ghost use Rattle.arrayvec.specs.ArrayVec.{array_vec_len};
ghost use Rattle.made_script.specs.Lines.{line_of, drawn_row};
ghost use Rattle.made_script.specs.Pieces.{piece_text, piece_width, width};

use crate::draws::Drawn;
use arrayvec::ArrayVec;
use itoa::Buffer;

/// How many bytes the buffer of a line holds; no made line is longer.
pub const LINE_ROOM: usize = 96;

/// A piece of a line: a text that stands in each line of its row, or one of the line's numbers.
#[derive(Clone, Copy)]
pub(crate) enum Piece {
    Text(&'static [u8]),
    Process,
    First,
    Second,
    Value,
    Receiver,
}

use Piece::{First, Process, Receiver, Second, Text, Value};

/// The rows of lines. The last row of the draw, 15, is four rows, by the value modulo 4.
const ROWS: [&[Piece]; 19] = [
    &[Process, Text(b" set "), First, Text(b" "), Value],
    &[
        Process,
        Text(b" set "),
        First,
        Text(b" ["),
        Value,
        Text(b",a,b]"),
    ],
    &[
        Process,
        Text(b" set "),
        First,
        Text(b" {pair,$"),
        Second,
        Text(b"}"),
    ],
    &[
        Process,
        Text(b" set "),
        First,
        Text(b" #{k=>"),
        Value,
        Text(b",n=>$"),
        Second,
        Text(b"}"),
    ],
    &[
        Process,
        Text(b" fill "),
        First,
        Text(b" "),
        Value,
        Text(b" 7"),
    ],
    &[
        Process,
        Text(b" part "),
        First,
        Text(b" "),
        Second,
        Text(b" 0 1"),
    ],
    &[Process, Text(b" hd "), First, Text(b" "), Second],
    &[Process, Text(b" elem "), First, Text(b" 2 "), Second],
    &[Process, Text(b" send "), First, Text(b" "), Receiver],
    &[Process, Text(b" recv "), First],
    &[Process, Text(b" recv "), First],
    &[Process, Text(b" print "), First],
    &[Process, Text(b" push "), First],
    &[Process, Text(b" pop "), First],
    &[Process, Text(b" lit "), First, Text(b" base 1")],
    &[Process, Text(b" gc minor")],
    &[Process, Text(b" gc major")],
    &[Process, Text(b" cmp "), First, Text(b" "), Second],
    &[Process, Text(b" flat "), First],
];

/// The row of what was drawn.
fn row_of(drawn: &Drawn) -> usize
    requires { drawn.now.row < 16 }
    ensures value { result ≡ drawn_row drawn.now }
    ensures bound { result < 19 }
{
    if drawn.row == 15 {
        return 15 + (drawn.value % 4) as usize;
    }
    drawn.row as usize
}

/// Puts a text behind those of the line.
fn put(line: &mut ArrayVec<u8, LINE_ROOM>, text: &[u8])
    requires { array_vec_len line.old + length text.now ≤ LINE_ROOM }
    ensures { line.new.items ≡ line.old.items ++ text.now }
{
    let _ = line.try_extend_from_slice(text);
}

/// Puts a number in decimal.
fn put_number(line: &mut ArrayVec<u8, LINE_ROOM>, n: u32)
    requires { array_vec_len line.old + 10 ≤ LINE_ROOM }
    ensures text { line.new.items ≡ line.old.items ++ decimal n }
    ensures short { array_vec_len line.new ≤ array_vec_len line.old + 10 }
{
    let mut buffer = Buffer::new();
    put(line, buffer.format(n).as_bytes());
}

/// Puts one piece of the line.
fn put_piece(line: &mut ArrayVec<u8, LINE_ROOM>, drawn: &Drawn, piece: Piece)
    requires { array_vec_len line.old + piece_width piece ≤ LINE_ROOM }
    ensures text { line.new.items ≡ line.old.items ++ piece_text drawn.now piece }
    ensures short { array_vec_len line.new ≤ array_vec_len line.old + piece_width piece }
{
    match piece {
        Piece::Text(text) => put(line, text),
        Piece::Process => put_number(line, drawn.process),
        Piece::First => put_number(line, drawn.first),
        Piece::Second => put_number(line, drawn.second),
        Piece::Value => put_number(line, drawn.value),
        Piece::Receiver => put_number(line, 1 + drawn.value % 8),
    }
}

/// Puts the pieces of a row.
fn put_row(line: &mut ArrayVec<u8, LINE_ROOM>, drawn: &Drawn, pieces: &[Piece])
    requires { array_vec_len line.old + width pieces.now ≤ LINE_ROOM }
    ensures { line.new.items ≡ line.old.items ++ concat (map (piece_text drawn.now) pieces.now) }
{
    for piece in pieces {
        put_piece(line, drawn, *piece);
    }
}

/// Makes the buffer hold the line of a row of the table.
fn put_row_of(line: &mut ArrayVec<u8, LINE_ROOM>, drawn: &Drawn, table: &[&[Piece]], row: usize)
    requires row { row < length table.now }
    requires room { list_all (λ pieces. nat_le (width pieces.now) LINE_ROOM) table.now ≡ true }
    ensures { line.new.items ≡ concat (slice_index_or (map (λ pieces. map (piece_text drawn.now) pieces.now) table.now) row []) }
{
    line.clear();
    put_row(line, drawn, table[row]);
}

/// Makes the buffer hold the line of what was drawn.
pub(crate) fn write_line(line: &mut ArrayVec<u8, LINE_ROOM>, drawn: &Drawn)
    requires { drawn.now.row < 16 }
    ensures { line.new.items ≡ line_of drawn.now }
{
    put_row_of(line, drawn, &ROWS, row_of(drawn));
}

/// Makes the buffer hold a line of a table of whole lines.
pub(crate) fn put_line_of(line: &mut ArrayVec<u8, LINE_ROOM>, table: &[&[u8]], at: usize)
    requires at { at < length table.now }
    requires room { list_all (λ text. nat_le (length text.now) LINE_ROOM) table.now ≡ true }
    ensures { line.new.items ≡ slice_index_or (map (λ text. text.now) table.now) at [] }
{
    line.clear();
    put(line, table[at]);
}
