// Parts of the memory, and lists beside it, are relocated.
ghost use Rattle.std.specs.Prelude.{◌≡◌, ◌≤◌, length};
ghost use Rattle.word_shift.specs.Shifted.{FitsBeside};
ghost use Rattle.block_slide.specs.Parts.{span_of, IsPartIn, PlacesShifted, PlaceListShifted, PartShifted};

use crate::parts::Part;
use word_mem::WordMem;
use word_shift::{Places, relocate_row, relocate_words};

/// Relocates a part of the memory where it stands.
pub fn relocate_part<P: Places>(mem: &mut WordMem, part: Part, places: &P)
    requires part { IsPartIn mem.old part }
    requires fits { FitsBeside (P.fits places.now) (P.to places.now) mem.old (span_of part).start (span_of part).end }
    ensures { PartShifted (P.to places.now mem.old) mem.old mem.new part }
{
    match part {
        Part::Objects(span) => relocate_row(mem, span.start, span.end, places),
        Part::Words(span) => relocate_words(mem, span.start, span.end, places),
        Part::Links(span) => relocate_places(mem, span.start, span.end, places),
    }
}

/// The words from one place up to another, each a place, become the new places.
pub fn relocate_places<P: Places>(mem: &mut WordMem, from: u64, to: u64, places: &P)
    requires inside { to ≤ length mem.old }
    requires fits { FitsBeside (P.fits places.now) (P.to places.now) mem.old from to }
    ensures { PlacesShifted (P.to places.now mem.old) mem.old mem.new from to }
{
    let mut at = from;
    while at < to {
        let place = places.place(mem, mem.get(at));
        mem.set(at, place);
        at += 1;
    }
}

/// The places of a list beside the memory, such as those of blocks, records and first objects of chains, become the new places.
pub fn relocate_place_list<P: Places>(list: &mut [u64], mem: &WordMem, places: &P)
    requires fits { P.fits places.now mem.now }
    ensures { PlaceListShifted (P.to places.now mem.now) list.old list.new }
{
    for i in 0..list.len() {
        list[i] = places.place(mem, list[i]);
    }
}
