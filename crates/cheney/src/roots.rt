// Moving roots: words of a row, and words that stand in the memory itself.
ghost use Rattle.std.specs.Prelude.{◌≡◌, ℕ, ◌+◌, ◌*◌, ◌<◌, length, slice_index};
ghost use Rattle.term_words.specs.Counted.{In};
ghost use Rattle.cheney.specs.Plan.{Plan, Reached};
ghost use Rattle.cheney.specs.Zones.{Marks};
ghost use Rattle.cheney.specs.Rooms.{Runs};
ghost use Rattle.cheney.specs.Roots.{AllEvacuated, AreRoots, CanMoveAll, CanMoveAt, CanMovePlaces, EvacuatedAt, IsFreePlace, PlacesEvacuated};

use crate::moving::Moving;
use crate::objects::evacuate;
use word_mem::WordMem;

/// Moves what the words of a row point to, such as a process's registers, and writes what each has become in its place.
pub fn evacuate_all(mem: &mut WordMem, mv: &mut Moving, words: &mut [u64])
    requires { CanMoveAll mem.old mv.old words.old }
    ensures len { length words.new ≡ length words.old }
    ensures each { (p : Plan) (k : Marks) → Runs p mem.old mv.old k → ((w : ℕ) → In w words.old → Reached p w)
        → AllEvacuated p mem.old mem.new mv.new k words.old words.new }
{
    for i in 0..words.len() {
        let w = words[i];
        words[i] = evacuate(mem, mv, w);
    }
}

/// Moves what the word at a place of the memory points to, such as the value of a stack place, and writes there what it has
/// become. No object, record or room has the place. So a caller goes through places that are linked in its own order.
#[inline]
pub fn evacuate_at(mem: &mut WordMem, mv: &mut Moving, place: u64)
    requires { CanMoveAt mem.old mv.old place }
    ensures { (p : Plan) (k : Marks) → Runs p mem.old mv.old k → IsFreePlace p place → Reached p (slice_index mem.old place)
        → EvacuatedAt p mem.old mem.new mv.new k place }
{
    mem.bounded();
    let w = mem.get(place);
    let new = evacuate(mem, mv, w);
    mem.set(place, new);
}

/// The same for `count` places, from one on, of which each is `step` places behind the one before.
pub fn evacuate_places(mem: &mut WordMem, mv: &mut Moving, from: u64, step: u64, count: u64)
    requires apart { 0 < step }
    requires can { CanMovePlaces mem.old mv.old from step count }
    ensures { (p : Plan) (k : Marks) → Runs p mem.old mv.old k → AreRoots p mem.old from step count
        → PlacesEvacuated p mem.old mem.new mv.new k from step count }
{
    mem.bounded();
    for i in 0..count {
        evacuate_at(mem, mv, from + i * step);
    }
}
