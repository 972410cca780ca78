// The levels of a walk: on each, the words that are left to see of one object.
ghost use Rattle.std.specs.Prelude.{◌≡◌, ℕ, ◌<◌, ◌≤◌, Bool, List, reverse};
ghost use Rattle.plain_term.specs.Tree.{Tree, Trees};
ghost use Rattle.term_words.specs.Stands.{Stands};
ghost use Rattle.term_read.specs.Look.{IsSeen};
ghost use Rattle.term_walk.specs.Left.{IsShort, RestIsShort, row_after, row_taken, rest_taken, rest_in, AreLeft, CanGo, WalkGoes, HasLeft, Yields};

use arrayvec::ArrayVec;
use term_read::{Look, Row};
use word_mem::WordMem;

/// The most nodes of a tree that is walked.
pub const NODE_LIMIT: u64 = 1_048_576;

/// The most levels of a walk, and so the greatest depth of a tree that is walked.
pub const DEPTH_LIMIT: usize = 1024;

/// The levels that a walk begins with: most terms need no more, and levels are made anew for each walk.
pub const FEW_LEVELS: usize = 16;

/// What is left to see of the parts of an object.
#[derive(Clone, Copy)]
pub enum Rest {
    /// The words of a row.
    Row(Row),
    /// The words of a row, and then those of another: the keys of a map before its values.
    Rows(Row, Row),
    /// The tail of a list, at this place. It is no deeper than the list.
    Tail(u64),
}

impl Default for Rest {
    fn default() -> Rest {
        Rest::Tail(0)
    }
}

/// Where a walk goes from a word.
#[derive(Clone, Copy)]
pub enum Further {
    /// To this word.
    Word(u64),
    /// Nowhere: all words were seen.
    End,
    /// The word's parts lie deeper than there are levels.
    TooDeep,
}

/// Goes on from a word, by the look at it: to its first part, or to the next word that is left. There are `N` levels.
pub fn go_on<const N: usize>(mem: &WordMem, levels: &mut ArrayVec<Rest, N>, look: Look) -> Further
    requires most { N ≤ DEPTH_LIMIT }
    requires go { CanGo mem.now (reverse levels.old.items) look }
    ensures each { (c : ℕ → ℕ → Bool) (shared : List (List ℕ)) (w : ℕ) (now : Tree) (rests : List Trees)
        → Stands c shared mem.now w now → IsSeen c shared mem.now w now look → AreLeft c shared mem.now (reverse levels.old.items) rests
        → WalkGoes N c shared mem.now (reverse levels.old.items) now rests result (reverse levels.new.items) }
{
    mem.bounded();
    if let Look::Cons(place) = look {
        if levels.is_full() {
            return Further::TooDeep;
        }
        levels.push(Rest::Tail(place + 1));
        return Further::Word(mem.get(place));
    }
    if let Some(rest) = rest_of(look) {
        if levels.is_full() {
            return Further::TooDeep;
        }
        levels.push(rest);
    }
    match next_word(mem, levels) {
        Some(word) => Further::Word(word),
        None => Further::End,
    }
}

// The rows of an object that is no cons, if it has any.
fn rest_of(look: Look) -> Option<Rest>
    ensures { result ≡ rest_in look }
{
    match look {
        Look::Tuple(row) => Some(Rest::Row(row)),
        Look::Map(rows) => {
            let keys = Row {
                first: rows.keys,
                len: rows.len,
            };
            let values = Row {
                first: rows.values,
                len: rows.len,
            };
            Some(Rest::Rows(keys, values))
        }
        Look::Fun(parts) => Some(Rest::Row(parts.env)),
        _ => None,
    }
}

/// Takes the first word that is left, whatever the parts of the word before; levels without one are let go.
pub fn next_word<const N: usize>(mem: &WordMem, levels: &mut ArrayVec<Rest, N>) -> Option<u64>
    requires { HasLeft mem.now (reverse levels.old.items) }
    ensures { Yields mem.now (reverse levels.old.items) result (reverse levels.new.items) }
{
    mem.bounded();
    let _most = levels.len();
    while let Some(rest) = levels.pop() {
        if let Some((place, more)) = take(rest) {
            if let Some(more) = more {
                levels.push(more);
            }
            return Some(mem.get(place));
        }
    }
    None
}

// The place of the first word, and what is left after it.
fn take(rest: Rest) -> Option<(u64, Option<Rest>)>
    requires { RestIsShort rest }
    ensures { result ≡ rest_taken rest }
{
    match rest {
        Rest::Tail(place) => Some((place, None)),
        Rest::Row(row) => take_row(row),
        Rest::Rows(row, next) => {
            if row.len == 0 {
                return take_row(next);
            }
            Some((row.first, Some(Rest::Rows(after_first(row), next))))
        }
    }
}

// The same of a row.
fn take_row(row: Row) -> Option<(u64, Option<Rest>)>
    requires { IsShort row }
    ensures { result ≡ row_taken row }
{
    if row.len == 0 {
        return None;
    }
    Some((row.first, Some(Rest::Row(after_first(row)))))
}

// A row without its first word.
fn after_first(row: Row) -> Row
    requires short { IsShort row }
    requires some { 0 < row.len }
    ensures { result ≡ row_after row }
{
    Row {
        first: row.first + 1,
        len: row.len - 1,
    }
}
