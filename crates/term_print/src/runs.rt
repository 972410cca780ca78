// Small integers at the front of a list or a tuple, which are gathered and written at once.
ghost use Rattle.std.specs.Prelude.{◌≡◌, ℕ, Bool, List, []};
ghost use Rattle.plain_term.specs.Tree.{Trees};
ghost use Rattle.term_walk.specs.Left.{RowStandsFor};
ghost use Rattle.term_print.specs.Left.{AreTwo, IsLeft};
ghost use Rattle.term_print.specs.Runs.{CanGather, Gathers};

use crate::levels::{Level, Mark, mark_bytes};
use arrayvec::ArrayVec;
use itoa::Buffer;
use term_read::Row;
use term_tags::{Kind, kind_of};
use word_mem::WordMem;

/// How many bytes are gathered at most.
pub const ROOM: usize = 256;

// A run ends once this many are; a number and its comma have room then.
const ENOUGH: usize = 192;

/// Gathers what a level begins with: of a list the small integers at its front, each with its comma where the list goes on,
/// and of a tuple those at its front, each after its mark, as far as the text holds them. Answers what is left.
pub fn gather(mem: &WordMem, level: Level, text: &mut ArrayVec<u8, ROOM>) -> Level
    requires { CanGather mem.now level }
    ensures { (c : ℕ → ℕ → Bool) (shared names : List (List ℕ)) (ts : Trees) → IsLeft c shared mem.now level ts
        → Gathers c shared mem.now names level result text.new.items ts }
{
    text.clear();
    match level {
        Level::List(place) => gather_list(mem, place, text),
        Level::Parts(row, mark, last) => gather_parts(mem, row, mark, last, text),
        _ => level,
    }
}

// The same of a list, to an empty text. Behind an integer that is not followed by a cell its tail is left.
fn gather_list(mem: &WordMem, place: u64, text: &mut ArrayVec<u8, ROOM>) -> Level
    requires list { CanGather mem.now (Level.List place) }
    requires empty { text.old.items ≡ [] }
    ensures { (c : ℕ → ℕ → Bool) (shared names : List (List ℕ)) (ts : Trees) → AreTwo c shared mem.now place ts
        → Gathers c shared mem.now names (Level.List place) result text.new.items ts }
{
    mem.bounded();
    let mut buffer = Buffer::new();
    let mut at = place;
    while text.len() < ENOUGH {
        let Kind::Small(i) = kind_of(mem.get(at)) else {
            return Level::List(at);
        };
        let digits = buffer.format(i);
        let Ok(()) = text.try_extend_from_slice(digits.as_bytes()) else {
            return Level::List(at);
        };
        let Kind::ListAt(next) = kind_of(mem.get(at + 1)) else {
            return Level::Tail(at + 1);
        };
        text.push(b',');
        at = next;
    }
    Level::List(at)
}

// The same of the parts of a tuple, to an empty text.
fn gather_parts(
    mem: &WordMem,
    row: Row,
    mark: Mark,
    last: bool,
    text: &mut ArrayVec<u8, ROOM>,
) -> Level
    requires parts { CanGather mem.now (Level.Parts row mark last) }
    requires empty { text.old.items ≡ [] }
    ensures { (c : ℕ → ℕ → Bool) (shared names : List (List ℕ)) (ts : Trees) → RowStandsFor c shared mem.now row ts
        → Gathers c shared mem.now names (Level.Parts row mark last) result text.new.items ts }
{
    mem.bounded();
    let mut buffer = Buffer::new();
    let mut left = row;
    let mut before = mark;
    while left.len > 0 && text.len() < ENOUGH {
        let Kind::Small(i) = kind_of(mem.get(left.first)) else {
            return Level::Parts(left, before, last);
        };
        let Ok(()) = text.try_extend_from_slice(mark_bytes(before)) else {
            unreachable!()
        };
        let digits = buffer.format(i);
        let Ok(()) = text.try_extend_from_slice(digits.as_bytes()) else {
            unreachable!()
        };
        left = Row {
            first: left.first + 1,
            len: left.len - 1,
        };
        before = Mark::Comma;
    }
    Level::Parts(left, before, last)
}
