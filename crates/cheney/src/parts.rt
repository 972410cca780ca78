// Moving the parts of what was moved.
ghost use Rattle.std.specs.Prelude.{◌≡◌, Bool, ◌+◌, ◌%◌, ◌<◌, slice_index};
ghost use Rattle.cheney.specs.Plan.{Plan};
ghost use Rattle.cheney.specs.Zones.{at_objects};
ghost use Rattle.cheney.specs.Rooms.{Runs};
ghost use Rattle.cheney.specs.Calls.{CanScan, CanOpen, CanStep, GoesOnWithin, RunsOn, ScansObjects, ScansWord};

use crate::moving::Moving;
use crate::objects::evacuate;
use crate::spine::scan_spine;
use term_tags::{is_pointer, traced_from};
use word_mem::WordMem;

/// Moves all parts of the objects that lie in the two rooms, and then the parts of these, until each moved object has
/// only moved parts (Cheney's scan, GarbageCollection.md). It begins at the start of each room, so the room of a heap
/// that is in use already is given from its first free place on.
pub fn scan(mem: &mut WordMem, mv: &mut Moving)
    requires { CanScan mem.old mv.old }
    ensures { (p : Plan) → Runs p mem.old mv.old (at_objects mv.old.aged.start mv.old.young.start)
        → RunsOn p mem.old mem.new mv.new (at_objects mv.new.aged.top mv.new.young.top) }
{
    let mut aged = mv.aged.start;
    let mut young = mv.young.start;
    loop {
        if aged < mv.aged.top {
            aged = scan_object(mem, mv, true, aged);
        } else if young < mv.young.top {
            young = scan_object(mem, mv, false, young);
        } else {
            break;
        }
    }
}

// Moves the parts of the object at a place of the aged or of the young room, and of the conses of its list that lie right
// behind it then; answers the place after these.
#[inline(always)]
fn scan_object(mem: &mut WordMem, mv: &mut Moving, aged: bool, place: u64) -> u64
    requires { CanOpen mem.old mv.old aged place }
    ensures each { ScansObjects mem.old mem.new mv.old mv.new aged place result }
    ensures further { place < result }
    ensures ends { (mv.new.aged.end ≡ mv.old.aged.end) × (mv.new.young.end ≡ mv.old.young.end) }
{
    mem.bounded();
    let word = mem.get(place);
    if word % 4 == 0 {
        scan_boxed(mem, mv, place, word)
    } else {
        scan_spine(mem, mv, aged, place, word)
    }
}

// Moves the parts of the object with a header at a place, and answers the place after it.
fn scan_boxed(mem: &mut WordMem, mv: &mut Moving, place: u64, header: u64) -> u64
    requires can { (b : Bool) × CanOpen mem.old mv.old b place }
    requires header { header ≡ slice_index mem.old place }
    requires boxed { header % 4 ≡ 0 }
    ensures each { (b : Bool) → ScansObjects mem.old mem.new mv.old mv.new b place result }
    ensures further { place < result }
    ensures ends { (mv.new.aged.end ≡ mv.old.aged.end) × (mv.new.young.end ≡ mv.old.young.end) }
{
    mem.bounded();
    let end = place + (1 + header / 64);
    let mut at = place + traced_from(header);
    while at < end {
        let w = mem.get(at);
        scan_word(mem, mv, at, w);
        at += 1;
    }
    end
}

/// Moves what the word at a place points to. A word that points to nothing is not written again.
#[inline]
pub fn scan_word(mem: &mut WordMem, mv: &mut Moving, at: u64, w: u64)
    requires can { (b : Bool) × CanStep mem.old mv.old b at }
    requires word { w ≡ slice_index mem.old at }
    ensures each { ScansWord mem.old mem.new mv.old mv.new at }
    ensures copies { GoesOnWithin mem.old mem.new mv.old at }
{
    if is_pointer(w) {
        let new = evacuate(mem, mv, w);
        mem.set(at, new);
    }
}
