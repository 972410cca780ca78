// Moving one object.
ghost use Rattle.std.specs.Prelude.{◌≡◌, ◌+◌, ◌/◌, ◌%◌, ◌≤◌, ◌⊎◌, length, slice_index};
ghost use Rattle.cheney.specs.Plan.{Plan, Reached};
ghost use Rattle.cheney.specs.Moved.{Copies};
ghost use Rattle.cheney.specs.Zones.{Marks};
ghost use Rattle.cheney.specs.Ranges.{stays};
ghost use Rattle.cheney.specs.Rooms.{FromMoves, Runs};
ghost use Rattle.cheney.specs.Calls.{CanMove, Copied, Evacuated, IsFresh, Went};
ghost use Rattle.cheney.specs.Spans.{in_span};

use crate::moving::Moving;
use word_mem::{Room, Span, WordMem};

/// Moves the object that a word points to, unless it stays or was moved before, and answers the word of the place where it
/// then lies; any other word is its own answer. Objects of `mature` go to the aged room, all others to the young one. A
/// moved cons has 0 in its head and its new list word in its tail, any other moved object its new boxed word in place of
/// its header (GarbageCollection.md; the 0 is this project's).
#[inline]
pub fn evacuate(mem: &mut WordMem, mv: &mut Moving, w: u64) -> u64
    requires { CanMove mem.old mv.old w }
    ensures { (p : Plan) (k : Marks) → Runs p mem.old mv.old k → Reached p w → Evacuated p mem.old mem.new mv.new k w result }
{
    moved_word(mem, mv, w)
}

// What becomes of a word, by its tag.
#[inline]
fn moved_word(mem: &mut WordMem, mv: &mut Moving, w: u64) -> u64
    requires { CanMove mem.old mv.old w }
    ensures { Went mem.old mem.new mv.old mv.new w result }
{
    let tag = w % 4;
    if tag == 1 {
        return move_cons(mem, mv, w);
    }
    if tag == 2 {
        return move_boxed(mem, mv, w);
    }
    w
}

fn move_cons(mem: &mut WordMem, mv: &mut Moving, w: u64) -> u64
    requires can { CanMove mem.old mv.old w }
    requires tag { w % 4 ≡ 1 }
    ensures { Went mem.old mem.new mv.old mv.new w result }
{
    mem.bounded();
    let at = w / 4;
    if stays_at(mv, at) {
        return w;
    }
    let head = mem.get(at);
    let tail = mem.get(at + 1);
    if head == 0 {
        return tail;
    }
    copy_cons(mem, mv, w, head, tail)
}

/// Copies a cons that neither stays nor was moved to the room where it goes, and answers its new word.
#[inline]
pub fn copy_cons(mem: &mut WordMem, mv: &mut Moving, w: u64, head: u64, tail: u64) -> u64
    requires can { CanMove mem.old mv.old w }
    requires fresh { IsFresh mem.old mv.old w head tail }
    ensures { Copied mem.old mem.new mv.old mv.new w result }
{
    if is_in(&mv.mature, w / 4) {
        cons_to(mem, &mut mv.aged, w, head, tail)
    } else {
        cons_to(mem, &mut mv.young, w, head, tail)
    }
}

fn move_boxed(mem: &mut WordMem, mv: &mut Moving, w: u64) -> u64
    requires can { CanMove mem.old mv.old w }
    requires tag { w % 4 ≡ 2 }
    ensures { Went mem.old mem.new mv.old mv.new w result }
{
    mem.bounded();
    let at = w / 4;
    if stays_at(mv, at) {
        return w;
    }
    let header = mem.get(at);
    if header % 4 == 2 {
        return header;
    }
    if is_in(&mv.mature, at) {
        boxed_to(mem, &mut mv.aged, w, header)
    } else {
        boxed_to(mem, &mut mv.young, w, header)
    }
}

// Whether what lies at the place stays.
#[inline]
pub fn stays_at(mv: &Moving, place: u64) -> bool
    requires { FromMoves mv.now }
    ensures { result ≡ stays mv.now.stay place }
{
    if is_in(&mv.from_space, place) {
        return false;
    }
    mv.stay.has(place)
}

// Whether a span holds the place.
#[inline]
pub fn is_in(span: &Span, place: u64) -> bool
    ensures { result ≡ in_span span.now place }
{
    span.start <= place && place < span.end
}

// Copies a cons to the top of a room and leaves 0 and the new place in the old one.
#[inline]
fn cons_to(mem: &mut WordMem, room: &mut Room, w: u64, head: u64, tail: u64) -> u64
    requires tag { w % 4 ≡ 1 }
    requires head { head ≡ slice_index mem.old (w / 4) }
    requires tail { tail ≡ slice_index mem.old (w / 4 + 1) }
    requires within { w / 4 + 2 ≤ length mem.old }
    requires fits { room.old.top + 2 ≤ length mem.old }
    requires apart { (w / 4 + 2 ≤ room.old.top) ⊎ (room.old.top + 2 ≤ w / 4) }
    ensures copies { Copies mem.old mem.new w room.old.top 2 result }
    ensures room { room.new ≡ record room.old { top = room.old.top + 2 } }
{
    mem.bounded();
    let at = w / 4;
    let to = room.top;
    mem.set(to, head);
    mem.set(to + 1, tail);
    let new = to * 4 + 1;
    mem.set(at, 0);
    mem.set(at + 1, new);
    room.top = to + 2;
    new
}

// Copies an object with a header to the top of a room and leaves the new place in the old one.
#[inline]
fn boxed_to(mem: &mut WordMem, room: &mut Room, w: u64, header: u64) -> u64
    requires tag { w % 4 ≡ 2 }
    requires header { header ≡ slice_index mem.old (w / 4) }
    requires within { w / 4 + (1 + header / 64) ≤ length mem.old }
    requires fits { room.old.top + (1 + header / 64) ≤ length mem.old }
    requires apart { (w / 4 + (1 + header / 64) ≤ room.old.top) ⊎ (room.old.top + (1 + header / 64) ≤ w / 4) }
    ensures copies { Copies mem.old mem.new w room.old.top (1 + header / 64) result }
    ensures room { room.new ≡ record room.old { top = room.old.top + (1 + header / 64) } }
{
    mem.bounded();
    let at = w / 4;
    let to = room.top;
    let rest = header / 64;
    mem.copy_apart(at + 1, to + 1, rest);
    mem.set(to, header);
    let new = to * 4 + 2;
    mem.set(at, new);
    room.top = to + (1 + rest);
    new
}
