// The records of the holders and funs of a row count them once less, one by one.
ghost use Rattle.std.specs.Prelude.{◌≡◌, ℕ, ◌+◌, ◌-◌, ◌/◌, ◌%◌, ◌≤◌, ◌<◌, Bool, true, false, List, length, slice_index, slice_set, Option, Some, None};
ghost use Rattle.object_rows.specs.Row.{AreObjects, IsRow, is_link_header, links_in};
ghost use Rattle.object_rows.specs.Dropped.{CanDrop, DropsNext, FindsLink};

use crate::chaining::is_link_word;
use off_heap_list::unchain;
use word_mem::WordMem;

/// A holder or fun that its record counts once less: its place, the place behind it, and its record where that counts no
/// object any more.
#[derive(Clone, Copy)]
pub struct DroppedNext {
    pub object: u64,
    pub next: u64,
    pub freed: Option<u64>,
}

/// The first holder or fun among the objects from one place up to another is counted once less by its record; `None` where
/// there is none. The caller goes on from `next`, and may give the words of a freed record back before that.
pub fn drop_next(mem: &mut WordMem, at: u64, to: u64) -> Option<DroppedNext>
    requires { CanDrop mem.old at to }
    ensures { (ws : List ℕ) → AreObjects mem.old at ws to → DropsNext mem.old mem.new ws to result }
{
    let found = next_link(mem, at, to)?;
    let left = unchain(mem, found.object);
    Some(DroppedNext {
        object: found.object,
        next: found.next,
        freed: left.freed,
    })
}

// A holder or fun: its place and the place behind it.
#[derive(Clone, Copy)]
pub struct LinkAt {
    pub object: u64,
    pub next: u64,
}

// The first holder or fun among the objects from one place up to another.
fn next_link(mem: &WordMem, from: u64, to: u64) -> Option<LinkAt>
    requires { IsRow mem.now from to }
    ensures { (ws : List ℕ) → AreObjects mem.now from ws to → FindsLink mem.now ws to result }
{
    mem.bounded();
    let mut at = from;
    while at < to {
        let word = mem.get(at);
        if word % 4 != 0 {
            at += 2;
        } else {
            let next = at + (1 + word / 64);
            if is_link_word(word) {
                return Some(LinkAt { object: at, next });
            }
            at = next;
        }
    }
    None
}
