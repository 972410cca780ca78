// Moving what the registers, stacks and queues of all processes name.
ghost use Rattle.std.specs.Prelude.{◌≡◌, ℕ, ◌+◌, ◌-◌, ◌*◌, ◌^◌, ◌<◌, ◌≤◌, length, slice_index};
ghost use Rattle.cheney.specs.Plan.{Plan};
ghost use Rattle.cheney.specs.Zones.{Marks};
ghost use Rattle.cheney.specs.Calls.{CanMove};
ghost use Rattle.two_halves.specs.declared.halves.TheConstants.{PLACE_WORDS};
ghost use Rattle.two_halves.specs.Rows.{CanMoveRow, CanMoveRows, CanMoveStack, PlaceMoved, PlaceMoves, RowMoved, RowMoves, RowsMoved, RowsMove, StackMoved, StackMoves};

use crate::halves::PLACE_WORDS;
use crate::table::{Proc, Row};
use cheney::{Moving, evacuate, evacuate_all};
use word_mem::WordMem;

/// Moves what the registers, stacks and queues of all processes name. The places are copied to the words up to `end`, those
/// of one process below those of the one before.
pub fn move_roots(mem: &mut WordMem, mv: &mut Moving, procs: &mut [Row], end: u64)
    requires { CanMoveRows mem.old mv.old procs.old end }
    ensures { (p : Plan) (k : Marks) (low limit : ℕ) → RowsMove p mem.old mv.old k low limit procs.old end
        → RowsMoved p mem.old mem.new mv.new k procs.old procs.new end }
{
    let mut low = end;
    for process in procs.iter_mut() {
        let row = process.row_mut();
        low -= PLACE_WORDS * (row.depth + row.waiting);
        move_process(mem, mv, row, low);
    }
}

// Moves what one process names; the places of its stack are copied to the words from `to` on, and those of its queue to the
// words behind.
fn move_process(mem: &mut WordMem, mv: &mut Moving, process: &mut Proc, to: u64)
    requires { CanMoveRow mem.old mv.old process.old to }
    ensures { (p : Plan) (k : Marks) (low limit : ℕ) → RowMoves p mem.old mv.old k low limit process.old to
        → RowMoved p mem.old mem.new mv.new k process.old process.new to }
{
    mem.bounded();
    evacuate_all(mem, mv, &mut process.regs);
    let queue = to + PLACE_WORDS * process.depth;
    move_stack(mem, mv, process.stack, process.depth, to);
    move_stack(mem, mv, process.queue, process.waiting, queue);
    process.stack = to;
    process.queue = queue;
    process.last = last_place(queue, process.waiting);
}

// The last of so many places side by side.
fn last_place(from: u64, n: u64) -> u64
    requires { from + PLACE_WORDS * n < 2 ^ 64 }
    ensures { result ≡ from + PLACE_WORDS * (n - 1) }
{
    if n == 0 {
        return from;
    }
    from + PLACE_WORDS * (n - 1)
}

// Moves what the places of a stack or a queue name. The first of them is copied to the words from `to` on, and after each
// the one that follows it.
fn move_stack(mem: &mut WordMem, mv: &mut Moving, from: u64, depth: u64, to: u64)
    requires { CanMoveStack mem.old mv.old from depth to }
    ensures { (p : Plan) (k : Marks) (low limit : ℕ) → StackMoves p mem.old mv.old k low limit from depth to
        → StackMoved p mem.old mem.new mv.new k from depth to }
{
    mem.bounded();
    let mut place = from;
    for i in 0..depth {
        place = move_place(mem, mv, place, to + PLACE_WORDS * i);
    }
}

// Moves what the value of a place names, and writes what it has become, before the place that follows, to the words from
// `to` on. Answers the place that followed the old one.
fn move_place(mem: &mut WordMem, mv: &mut Moving, place: u64, to: u64) -> u64
    requires can { CanMove mem.old mv.old (slice_index mem.old place) }
    requires old { place + PLACE_WORDS ≤ length mem.old }
    requires new { to + PLACE_WORDS ≤ length mem.old }
    ensures { (p : Plan) (k : Marks) → PlaceMoves p mem.old mv.old k place to → PlaceMoved p mem.old mem.new mv.new k place to result }
{
    mem.bounded();
    let w = mem.get(place);
    let below = mem.get(place + 1);
    let new = evacuate(mem, mv, w);
    mem.set(to, new);
    mem.set(to + 1, to + PLACE_WORDS);
    below
}
