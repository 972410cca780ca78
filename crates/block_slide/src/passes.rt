// Both passes.
ghost use Rattle.std.specs.Prelude.{◌≡◌, ◌<◌, ◌≤◌, length};
ghost use Rattle.word_arena.specs.Blocks.{free_of, FreeApart};
ghost use Rattle.word_arena.specs.Calls.{HeadersStay};
ghost use Rattle.word_arena.specs.Shifts.{HasStretches, IsSummed};
ghost use Rattle.word_arena.specs.Sound.{Sound};
ghost use Rattle.word_arena.specs.Sums.{free_before};
ghost use Rattle.word_shift.specs.Shifted.{ListShifted};
ghost use Rattle.block_slide.specs.Down.{packed_place};
ghost use Rattle.block_slide.specs.Parts.{AreParts, PartsShifted, PlaceListShifted, SlidParts};

use crate::parts::Part;
use crate::places::{NearPlaces, PackedPlaces};
use crate::relocating::{relocate_part, relocate_place_list};
use word_arena::{Arena, Shifts};
use word_mem::{Span, WordMem};
use word_shift::relocate_all;

/// Packs the blocks in use at the memory's front. First every word that leads to a place becomes what leads to the new place: in
/// the parts of the memory, in a list of words beside it, such as registers, and in one of places. The table is summed up anew.
pub fn slide(
    arena: &mut Arena,
    shifts: &mut Shifts,
    parts: &[Part],
    words: &mut [u64],
    list: &mut [u64],
)
    requires sound { Sound arena.old }
    requires room { HasStretches (length arena.old.mem) shifts.old }
    requires parts { AreParts arena.old.mem parts.now }
    ensures sound { Sound arena.new }
    ensures room { HasStretches (length arena.new.mem) shifts.new }
    ensures slid { SlidParts arena.old.mem arena.new.mem parts.now }
    ensures words { ListShifted (packed_place arena.old.mem) words.old words.new }
    ensures list { PlaceListShifted (packed_place arena.old.mem) list.old list.new }
    ensures free { free_of arena.new.mem ≡ free_of arena.old.mem }
    ensures apart { FreeApart arena.new.mem }
{
    shifts.sum_up(arena);
    let places = PackedPlaces { shifts };
    relocate_all(words, &arena.mem, &places);
    relocate_place_list(list, &arena.mem, &places);
    relocate_parts(&mut arena.mem, parts, &places);
    arena.pack();
}

// Relocates the parts, one after the other.
fn relocate_parts(mem: &mut WordMem, parts: &[Part], places: &PackedPlaces)
    requires summed { IsSummed mem.old places.now.shifts.now }
    requires parts { AreParts mem.old parts.now }
    ensures shifted { PartsShifted (packed_place mem.old) mem.old mem.new parts.now (length parts.now) }
    ensures headers { HeadersStay mem.old mem.new }
{
    for i in 0..parts.len() {
        let near = near(mem, parts[i].span(), places);
        relocate_part(mem, parts[i], &near);
    }
}

// The map for the words of one part.
#[inline]
fn near<'a>(mem: &WordMem, span: Span, places: &PackedPlaces<'a>) -> NearPlaces<'a>
    requires summed { IsSummed mem.now places.now.shifts.now }
    requires inside { span.end ≤ length mem.now }
    ensures all { result.all ≡ places.now }
    ensures near { result.near ≡ span }
    ensures down { span.start < span.end → result.down ≡ free_before mem.now span.start }
{
    let down = if span.start < span.end {
        places.shifts.before(mem, span.start)
    } else {
        0
    };
    NearPlaces {
        all: *places,
        near: span,
        down,
    }
}
