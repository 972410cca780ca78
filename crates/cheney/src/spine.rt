// Moving a list along its spine.
ghost use Rattle.std.specs.Prelude.{◌≡◌, ℕ, Bool, ◌+◌, ◌%◌, ◌<◌, slice_index, IfSome, IfNone};
ghost use Rattle.cheney.specs.Calls.{CanMove, CanOpen, CanStep, IsFresh, IsFreshCons, ScansObjects, ScansWord};

use crate::moving::Moving;
use crate::objects::{copy_cons, is_in, stays_at};
use crate::parts::scan_word;
use word_mem::WordMem;

// A cons, with the place where it lies.
#[derive(Clone, Copy, Drop)]
pub struct Cell {
    pub place: u64,
    pub head: u64,
    pub tail: u64,
}

/// Moves the parts of the cons at a place of the aged or of the young room, and goes on with the cons that its tail names
/// as long as that was copied right behind it: its words need not be read again. Answers the place after the last one.
#[inline(always)]
pub fn scan_spine(mem: &mut WordMem, mv: &mut Moving, aged: bool, place: u64, head: u64) -> u64
    requires can { CanOpen mem.old mv.old aged place }
    requires head { head ≡ slice_index mem.old place }
    requires cons { head % 4 ≡ 0 → ⊥ }
    ensures each { ScansObjects mem.old mem.new mv.old mv.new aged place result }
    ensures further { place < result }
    ensures ends { (mv.new.aged.end ≡ mv.old.aged.end) × (mv.new.young.end ≡ mv.old.young.end) }
{
    mem.bounded();
    let tail = mem.get(place + 1);
    let mut cell = Cell { place, head, tail };
    loop {
        let at = cell.place;
        scan_word(mem, mv, at, cell.head);
        let next = scan_tail(mem, mv, aged, at + 1, cell.tail);
        if let Some(further) = next
            && further.place == at + 2
        {
            cell = further;
        } else {
            return at + 2;
        }
    }
}

// Moves what the tail at a place points to; answers the cons that was copied for it, if one was, and to the room that is
// scanned.
#[inline]
fn scan_tail(mem: &mut WordMem, mv: &mut Moving, aged: bool, at: u64, w: u64) -> Option<Cell>
    requires can { CanStep mem.old mv.old aged at }
    requires word { w ≡ slice_index mem.old at }
    ensures each { ScansWord mem.old mem.new mv.old mv.new at }
    ensures next { IfSome result (λ c. IsFreshCons mem.new mv.new aged c.place c.head c.tail) }
{
    let Some((head, tail)) = fresh_cons(mem, mv, w) else {
        scan_word(mem, mv, at, w);
        return None;
    };
    let here = is_in(&mv.mature, w / 4) == aged;
    let new = copy_cons(mem, mv, w, head, tail);
    mem.set(at, new);
    if here {
        Some(Cell {
            place: new / 4,
            head,
            tail,
        })
    } else {
        None
    }
}

// The head and the tail of a cons that neither stays nor was moved; none of any other word.
#[inline]
fn fresh_cons(mem: &WordMem, mv: &Moving, w: u64) -> Option<(u64, u64)>
    requires { CanMove mem.now mv.now w }
    ensures { IfSome result (λ c. IsFresh mem.now mv.now w c.0 c.1) }
{
    mem.bounded();
    if w % 4 != 1 {
        return None;
    }
    let at = w / 4;
    if stays_at(mv, at) {
        return None;
    }
    let head = mem.get(at);
    if head == 0 {
        return None;
    }
    Some((head, mem.get(at + 1)))
}
