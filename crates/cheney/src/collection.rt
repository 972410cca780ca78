// Whole collections.
ghost use Rattle.std.specs.Prelude.{◌≡◌, length};
ghost use Rattle.cheney.specs.Plan.{Plan};
ghost use Rattle.cheney.specs.Collected.{CanStart, CanCollectRow};
ghost use Rattle.cheney.specs.Next.{Ended};
ghost use Rattle.cheney.specs.Stacked.{CanCollectWith, CanStartWith, EndedWith};

use crate::moving::Moving;
use crate::parts::scan;
use crate::roots::{evacuate_all, evacuate_places};
use word_mem::WordMem;

/// A whole collection from a row of roots, which become the new ones.
pub fn collect(mem: &mut WordMem, mv: &mut Moving, roots: &mut [u64])
    requires { CanCollectRow mem.old mv.old roots.old }
    ensures len { length mem.new ≡ length mem.old }
    ensures done { (p : Plan) → CanStart p mem.old mv.old roots.old → Ended p mem.new mv.new roots.new }
{
    evacuate_all(mem, mv, roots);
    scan(mem, mv);
}

/// A whole collection from the registers of a process, a row, and from its stack, which stands as `count` words of the memory
/// from a place on. Each becomes a new root in its place.
pub fn collect_with(mem: &mut WordMem, mv: &mut Moving, regs: &mut [u64], from: u64, count: u64)
    requires { CanCollectWith mem.old mv.old regs.old from count }
    ensures len { length mem.new ≡ length mem.old }
    ensures registers { length regs.new ≡ length regs.old }
    ensures done { (p : Plan) → CanStartWith p mem.old mv.old regs.old from count → EndedWith p mem.old mem.new mv.new regs.new from count }
{
    evacuate_all(mem, mv, regs);
    evacuate_places(mem, mv, from, 1, count);
    scan(mem, mv);
}
