// A tree is copied object by object, each new one to the end of a row whose objects are gone through in order.
ghost use Rattle.std.specs.Prelude.{◌≡◌, ℕ, Bool, List};
ghost use Rattle.plain_term.specs.Tree.{Tree};
ghost use Rattle.term_words.specs.Role.{IsSingle};
ghost use Rattle.term_words.specs.Stands.{Stands};
ghost use Rattle.term_build.specs.Taken.{IsFree};
ghost use Rattle.term_build.specs.Clear.{IsRoom};
ghost use Rattle.cheney.specs.Ranges.{stays};
ghost use Rattle.term_copy.specs.Copied.{CanCopy, CopiesTree, Task};
ghost use Rattle.term_copy.specs.Going.{Advances, Begun, IsStay, ReadyToCopy};

use crate::objects::copy_part;
use crate::scanning::{goes, scan_object};
use cheney::Stay;
use word_mem::{Room, WordMem};

/// Copies the tree that a word stands for to the free words of a room, and answers the new word. What lies in `stay` is not
/// copied; every other object is, as often as the tree has it, so the copy shares nothing with the tree nor within itself.
/// Each new holder and fun has `next` 0, and its record counts it.
pub fn copy_tree(mem: &mut WordMem, room: &mut Room, stay: &Stay, w: u64) -> u64
    requires places { IsRoom room.old mem.old }
    requires can { CanCopy mem.old room.old w }
    ensures places { IsRoom room.new mem.new }
    ensures start { room.new.start ≡ room.old.start }
    ensures end { room.new.end ≡ room.old.end }
    ensures copies { (c : ℕ → ℕ → Bool) (shared : List (List ℕ)) (t : Tree) → IsSingle c → Stands c shared mem.old w t → IsFree c room.old.top room.old.end
        → CopiesTree
        (record { start = mem.old; top = room.old.top; limit = room.old.end; stay = stays stay.now; test = c; shared = shared; word = w; tree = t })
        mem.new room.new.top result }
{
    let mut at = room.top;
    let result = copy_root(mem, room, stay, w);
    while at < room.top {
        at = scan_object(mem, room, stay, at);
    }
    result
}

// The image of the root: a copy of its object, whose parts are left.
#[inline]
fn copy_root(mem: &mut WordMem, room: &mut Room, stay: &Stay, w: u64) -> u64
    requires places { IsRoom room.old mem.old }
    requires can { CanCopy mem.old room.old w }
    ensures room { Advances room.old room.new }
    ensures begins { (p : Task) → IsStay p (stays stay.now) → ReadyToCopy p → p.start ≡ mem.old → p.top ≡ room.old.top → p.word ≡ w
        → Begun p mem.new room.old.top room.new.top result }
{
    if goes(stay, w) {
        return copy_part(mem, room, w);
    }
    w
}
