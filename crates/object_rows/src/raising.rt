// The records of the holders and funs of a row count them once more.
ghost use Rattle.std.specs.Prelude.{◌≡◌, ℕ, ◌+◌, ◌/◌, ◌%◌, ◌≤◌, ◌<◌, Bool, true, false, List, length, slice_index, slice_set};
ghost use Rattle.object_rows.specs.Row.{AreObjects, links_in};
ghost use Rattle.object_rows.specs.Raised.{CanRaise, RaisesRow};

use crate::chaining::is_link_word;
use off_heap_list::record_of;
use shared_rec::add;
use word_mem::WordMem;

/// Each holder and fun among the objects from one place up to another is counted once more by its record, as where the row
/// is a copy. The row is walked once. No chain changes, and every tree stands.
pub fn raise_row(mem: &mut WordMem, from: u64, to: u64)
    requires { CanRaise mem.old from to }
    ensures { (ws : List ℕ) → AreObjects mem.old from ws to → RaisesRow mem.old mem.new (links_in mem.old ws) }
{
    mem.bounded();
    let mut at = from;
    while at < to {
        let word = mem.get(at);
        if word % 4 != 0 {
            at += 2;
        } else {
            if is_link_word(word) {
                let record = record_of(mem, at);
                add(mem, record);
            }
            at += 1 + word / 64;
        }
    }
}
