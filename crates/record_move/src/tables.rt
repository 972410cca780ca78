// Tables of the places of records.
ghost use Rattle.std.specs.Prelude.{◌≡◌, ℕ, ◌+◌, ◌≤◌, List, length, take};
ghost use Rattle.std.specs.Vec.{vec_capacity};
ghost use Rattle.term_words.specs.Counted.{In};
ghost use Rattle.shared_rec.specs.Record.{count_in};
ghost use Rattle.record_move.specs.declared.moves.TheConstants.{MOVED};
ghost use Rattle.record_move.specs.Tables.{AllLieWithin, renewed};

use crate::moves::MOVED;
use shared_rec::count_of;
use word_mem::WordMem;

/// After its records moved, the table has the places of the copies, in the order in which it had the records; a record that
/// no object named has left.
pub fn renew(mem: &WordMem, table: &mut Vec<u64>)
    requires { AllLieWithin mem.now table.old.items }
    ensures items { table.new.items ≡ renewed mem.now table.old.items }
    ensures capacity { vec_capacity table.new ≡ vec_capacity table.old }
{
    let kept = renew_places(mem, table.as_mut_slice());
    table.truncate(kept);
}

// Brings the places of the copies to the front of the table, and says how many they are.
fn renew_places(mem: &WordMem, places: &mut [u64]) -> usize
    requires { AllLieWithin mem.now places.old }
    ensures within { result ≤ length places.new }
    ensures front { take result places.new ≡ renewed mem.now places.old }
{
    let mut kept = 0;
    for i in 0..places.len() {
        let count = count_of(mem, places[i]);
        if count >= MOVED {
            places[kept] = count - MOVED;
            kept += 1;
        }
    }
    kept
}
