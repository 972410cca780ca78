// The levels of a term that is written: on each, what is left to write of one object.
ghost use Rattle.std.specs.Prelude.{◌≡◌, ◌<◌, length, reverse};
ghost use Rattle.term_print.specs.Left.{IsCountable, after_level, closing_text, level_in, mark_text, part_taken, pair_taken, level_taken};

use arrayvec::ArrayVec;
use term_read::{Look, PairRows, Row};

/// What is written before a part.
#[derive(Clone, Copy)]
pub enum Mark {
    Nothing,
    Comma,
    Arrow,
}

/// What is left to write of an object that was begun. Where the last field says so, the object is the last tail of a
/// list, which ends with it.
#[derive(Clone, Copy)]
pub enum Level {
    /// The head of a list, at this place, and the tail behind it.
    List(u64),
    /// The tail of a list, at this place.
    Tail(u64),
    /// The parts of a tuple, the first of them after this mark.
    Parts(Row, Mark, bool),
    /// The pairs of a map, the first key after this mark; after an arrow its value, since the key was written.
    Pairs(PairRows, Mark, bool),
}

impl Default for Level {
    fn default() -> Level {
        Level::Tail(0)
    }
}

/// A part that is written next: the word at this place, after a mark, as it stands or as the tail of a list; and what is
/// left then.
#[derive(Clone, Copy)]
pub struct Part {
    pub mark: Mark,
    pub place: u64,
    pub tail: bool,
    pub more: Option<Level>,
}

/// What is written next: the end of an object, or a part of it.
#[derive(Clone, Copy)]
pub enum Step {
    End(bool),
    Part(Part),
}

/// What a level writes next.
pub fn next(level: Level) -> Step
    requires { IsCountable level }
    ensures { result ≡ level_taken level }
{
    match level {
        Level::List(place) => Step::Part(Part {
            mark: Mark::Nothing,
            place,
            tail: false,
            more: Some(Level::Tail(place + 1)),
        }),
        Level::Tail(place) => Step::Part(Part {
            mark: Mark::Nothing,
            place,
            tail: true,
            more: None,
        }),
        Level::Parts(row, mark, last) => {
            if row.len == 0 {
                return Step::End(last);
            }
            Step::Part(next_part(row, mark, last))
        }
        Level::Pairs(rows, mark, last) => {
            if rows.len == 0 {
                return Step::End(last);
            }
            Step::Part(next_in_pair(rows, mark, last))
        }
    }
}

// The first word of a row, and the others after commas.
fn next_part(row: Row, mark: Mark, last: bool) -> Part
    requires short { IsCountable (Level.Parts row mark last) }
    requires some { 0 < row.len }
    ensures { result ≡ part_taken row mark last }
{
    let others = Row {
        first: row.first + 1,
        len: row.len - 1,
    };
    Part {
        mark,
        place: row.first,
        tail: false,
        more: Some(Level::Parts(others, Mark::Comma, last)),
    }
}

// The first key and then its value after an arrow, or the value and then the other pairs after commas.
fn next_in_pair(rows: PairRows, mark: Mark, last: bool) -> Part
    requires short { IsCountable (Level.Pairs rows mark last) }
    requires some { 0 < rows.len }
    ensures { result ≡ pair_taken rows mark last }
{
    if let Mark::Arrow = mark {
        let others = PairRows {
            keys: rows.keys + 1,
            values: rows.values + 1,
            len: rows.len - 1,
        };
        return Part {
            mark,
            place: rows.values,
            tail: false,
            more: Some(Level::Pairs(others, Mark::Comma, last)),
        };
    }
    Part {
        mark,
        place: rows.keys,
        tail: false,
        more: Some(Level::Pairs(rows, Mark::Arrow, last)),
    }
}

/// The level of the parts of a look's tree, if it has parts that are written.
pub fn level_of(look: Look, tail: bool) -> Option<Level>
    ensures { result ≡ level_in look tail }
{
    match look {
        Look::Cons(place) => Some(Level::List(place)),
        Look::Tuple(row) => Some(Level::Parts(row, Mark::Nothing, tail)),
        Look::Map(rows) => Some(Level::Pairs(rows, Mark::Nothing, tail)),
        _ => None,
    }
}

/// Keeps a level on top of the others, if there is one.
pub fn keep<const N: usize>(levels: &mut ArrayVec<Level, N>, level: Option<Level>)
    requires { length levels.old.items < N }
    ensures { reverse levels.new.items ≡ after_level level (reverse levels.old.items) }
{
    if let Some(level) = level {
        levels.push(level);
    }
}

/// The text of a mark.
pub fn mark_bytes(mark: Mark) -> &'static [u8]
    ensures { result.now ≡ mark_text mark }
{
    match mark {
        Mark::Nothing => b"",
        Mark::Comma => b",",
        Mark::Arrow => b"=>",
    }
}

/// The end of a tuple or a map, and of the list whose last tail it is.
pub fn end_bytes(last: bool) -> &'static [u8]
    ensures { result.now ≡ closing_text last }
{
    if last { b"}]" } else { b"}" }
}
