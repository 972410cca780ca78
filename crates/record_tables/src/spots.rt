// Where a fun's record stands in its table, found by halving.
ghost use Rattle.record_move.specs.Tables.{AllLieWithin, OwnersRise};
ghost use Rattle.record_tables.specs.Spots.{IsFunAt, IsSpot};

use shared_rec::serial_of;
use word_mem::WordMem;

/// The place of a fun's record by its number in the table, where its owner word is this one.
pub fn fun_at(mem: &WordMem, funs: &[u64], i: usize, code: u64) -> Option<u64>
    requires { AllLieWithin mem.now funs.now }
    ensures { IsFunAt mem.now funs.now i code result }
{
    if i >= funs.len() {
        return None;
    }
    let at = funs[i];
    if serial_of(mem, at) == code {
        Some(at)
    } else {
        None
    }
}

/// How many funs' records have a lesser owner word, found by halving.
pub fn spot_of(mem: &WordMem, funs: &[u64], code: u64) -> usize
    requires within { AllLieWithin mem.now funs.now }
    requires rise { OwnersRise mem.now funs.now }
    ensures { IsSpot mem.now funs.now code result }
{
    let mut low = 0;
    let mut high = funs.len();
    while low < high {
        let middle = low + (high - low) / 2;
        if serial_of(mem, funs[middle]) < code {
            low = middle + 1;
        } else {
            high = middle;
        }
    }
    low
}
