// Whole objects side by side are relocated, one after the other.
ghost use Rattle.std.specs.Prelude.{◌≡◌, ℕ, ◌+◌, ◌/◌, ◌%◌, ◌<◌, ◌≤◌, Bool, true, false, List, length, slice_index};
ghost use Rattle.term_words.specs.Object.{IsPointer};
ghost use Rattle.term_words.specs.Tiled.{IsTile};
ghost use Rattle.off_heap_list.specs.Links.{name_place};
ghost use Rattle.object_rows.specs.Row.{AreObjects, IsRow, is_link_header};
ghost use Rattle.word_shift.specs.Shifted.{CanRelocate, FitsBeside, IsShifted, RelocatesObject, RowShifted, StaysBeside};

use crate::places::Places;
use crate::words::relocate_words;
use object_rows::is_link_word;
use off_heap_list::{next_of, record_of, set_next, set_record};
use term_tags::traced_from;
use word_mem::WordMem;

/// Relocates the objects from one place up to another: traced words become their images, and the name and `next` of holders and
/// funs the new places of what they told. The row is walked once.
pub fn relocate_row<P: Places>(mem: &mut WordMem, from: u64, to: u64, places: &P)
    requires row { IsRow mem.old from to }
    requires fits { FitsBeside (P.fits places.now) (P.to places.now) mem.old from to }
    ensures { (ws : List ℕ) → AreObjects mem.old from ws to → RowShifted (P.to places.now mem.old) mem.old mem.new from to ws }
{
    let mut at = from;
    while at < to {
        at = relocate_object(mem, at, places);
    }
}

// Relocates one object; the answer is the place behind it.
fn relocate_object<P: Places>(mem: &mut WordMem, at: u64, places: &P) -> u64
    requires { CanRelocate (P.fits places.now) (P.to places.now) mem.old at }
    ensures { (w : ℕ) → IsPointer w → IsTile mem.old w → w / 4 ≡ at → RelocatesObject (P.to places.now mem.old) mem.old mem.new w result }
{
    mem.bounded();
    let header = mem.get(at);
    if header % 4 != 0 {
        relocate_words(mem, at, at + 2, places);
        at + 2
    } else {
        let end = at + (1 + header / 64);
        relocate_names(mem, at, header, places);
        relocate_words(mem, at + traced_from(header), end, places);
        end
    }
}

// The word `next` and the name of a holder or a fun become new places; another object has none.
fn relocate_names<P: Places>(mem: &mut WordMem, at: u64, header: u64, places: &P)
    requires header { header ≡ slice_index mem.old at }
    requires inside { at + (1 + header / 64) ≤ length mem.old }
    requires six { is_link_header header ≡ true → 6 ≤ 1 + header / 64 }
    requires fits { P.fits places.now mem.old }
    ensures beside { StaysBeside mem.old mem.new at (at + (1 + header / 64)) }
    ensures shifted { IsShifted (P.to places.now mem.old) mem.old mem.new at (1 + header / 64) (1 + header / 64) (is_link_header header)
        (name_place mem.old at) }
{
    if is_link_word(header) {
        let next = places.place(mem, next_of(mem, at));
        let record = places.place(mem, record_of(mem, at));
        set_next(mem, at, next);
        set_record(mem, at, record);
    }
}
