// The words of a written term, from its items.
ghost use Rattle.std.specs.Prelude.{◌≡◌, ℕ, ◌+◌, ◌-◌, ◌^◌, ◌<◌, ◌≤◌, Bool, true, false, List, ◌++◌, length, drop, OnOk, OnErr, IfSome};
ghost use Rattle.plain_term.specs.Tree.{Tree};
ghost use Rattle.term_tags.specs.declared.layouts.TheConstants.{MOST_PARTS};
ghost use Rattle.term_build.specs.Taken.{IsFree};
ghost use Rattle.term_build.specs.Clear.{IsRoom};
ghost use Rattle.item_build.specs.Reading.{IsWritten, bins_of, has_big_item, heap_words_of, long_bins, outcome, own_words_of, read};
ghost use Rattle.item_build.specs.Building.{BinsStand, BuildsOver, CanRead, FindsParts, HeldStand, LeavesBut, PutsAll, RecordsWait, Spares, UsesSome};

use crate::bins::{Making, holder_words, lay_holders};
use crate::putting::{WIDE, put_item};
use atom_names::AtomNames;
use plain_term::Item;
use word_mem::{Room, WordMem};

/// Why a written term is not built: a key of a map in it, that neither is nor holds a map with too many keys, is beyond the
/// walk limit; or a map has more than 32 different keys.
#[derive(Clone, Copy, Drop)]
pub enum BuildStop {
    Big,
    Size,
}

/// The word of a written term. Its items are read from the last to the first; the words of the terms read so far stand
/// at the end of `scratch`, the next one first. `held` has the words of the registers, which become parts as they are.
/// Who has the memory laid the records of its `n` binaries of more than 64 bytes, from left to right, with count 0, wherever they lie,
/// and put their places at the front of `scratch`. Their holders are made before the items are read, side by side at the front of the
/// room, and join the chain. `Big` comes before `Size`; at a stop the room and the chain are as before, and the caller gives its
/// records back, whose counts may be 1.
pub fn build(
    mem: &mut WordMem,
    room: &mut Room,
    making: &mut Making,
    names: &AtomNames,
    scratch: &mut [u64],
    held: &[u64],
    n: usize,
    code: &[Item],
) -> Result<u64, BuildStop>
    requires term { IsWritten (length names.now) (length held.now) code.now }
    requires few { length code.now ≤ MOST_PARTS }
    requires enough { length code.now ≤ length scratch.old }
    requires serials { making.old.serial + length code.now < 2 ^ 64 }
    requires places { IsRoom room.old mem.old }
    requires somewhere { 0 < room.old.top }
    requires words { room.old.top + heap_words_of code.now ≤ room.old.end }
    requires count { n ≡ long_bins code.now }
    requires finds { FindsParts names.now making.old.serial room.old mem.old held.now scratch.old n code.now }
    ensures builds { (c : ℕ → ℕ → Bool) (shared : List (List ℕ)) (trees : List Tree) → IsFree c room.old.top room.old.end → length shared ≡ making.old.serial
        → HeldStand c shared mem.old held.now trees → RecordsWait c (shared ++ bins_of code.now) mem.old scratch.old making.old.serial n
        → BuildsOver c (shared ++ bins_of code.now) room.old room.new mem.old mem.new scratch.old making.old making.new n result
        (outcome names.now shared trees code.now) }
    ensures leaves { LeavesBut scratch.old n room.old room.new mem.old mem.new }
    ensures few { room.new.top ≤ room.old.top + heap_words_of code.now }
    ensures serial { OnOk result (making.new.serial ≡ making.old.serial + n) }
    ensures stopped { OnErr result ((room.new ≡ room.old) × (making.new ≡ making.old)) }
    ensures row { length scratch.new ≡ length scratch.old }
{
    let entry = *room;
    let before = *making;
    lay_holders(mem, room, making, scratch, n);
    let bins = room.top;
    let stop = match put_items(mem, room, names, scratch, held, bins, code) {
        None => BuildStop::Big,
        Some(w) => {
            if w != WIDE {
                return Ok(w);
            }
            BuildStop::Size
        }
    };
    *room = entry;
    *making = before;
    Err(stop)
}

// The word of the one term of these items, or nothing where a key is too big. The holders of its long binaries lie below `bins`.
fn put_items(
    mem: &mut WordMem,
    room: &mut Room,
    names: &AtomNames,
    scratch: &mut [u64],
    held: &[u64],
    bins: u64,
    code: &[Item],
) -> Option<u64>
    requires term { IsWritten (length names.now) (length held.now) code.now }
    requires few { length code.now ≤ MOST_PARTS }
    requires enough { length code.now ≤ length scratch.old }
    requires places { IsRoom room.old mem.old }
    requires below { bins ≤ room.old.top }
    requires words { room.old.top + own_words_of code.now ≤ room.old.end }
    requires held { CanRead names.now (own_words_of code.now) room.old mem.old held.now bins (long_bins code.now) }
    ensures reads { (c : ℕ → ℕ → Bool) (shared : List (List ℕ)) (trees : List Tree) → IsFree c room.old.top (room.old.top + own_words_of code.now)
        → HeldStand c shared mem.old held.now trees → BinsStand c shared mem.old bins (long_bins code.now)
        → PutsAll c shared room.old room.new mem.old mem.new result (has_big_item names.now shared trees code.now) (read names.now shared trees code.now) }
    ensures uses { IfSome result (λ w. UsesSome (own_words_of code.now) room.old room.new mem.old mem.new) }
    ensures spares { Spares (own_words_of code.now) room.old mem.old mem.new }
    ensures row { length scratch.new ≡ length scratch.old }
{
    mem.bounded();
    let mut sp = scratch.len();
    let mut bin = bins;
    let mut i = code.len();
    while i > 0 {
        i -= 1;
        bin -= holder_words(code[i]);
        sp = put_item(
            mem,
            room,
            names,
            scratch,
            sp,
            held,
            bin,
            code[i],
            &code[i + 1..],
        )?;
    }
    Some(scratch[sp])
}
