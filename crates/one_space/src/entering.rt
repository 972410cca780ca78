// The records of binaries that were built, in the table of binaries' records.
ghost use Rattle.std.specs.Prelude.{◌≡◌, ◌+◌, ◌*◌, ◌≤◌, ◌++◌, length};
ghost use Rattle.std.specs.Vec.{vec_len, vec_capacity};
ghost use Rattle.item_build.specs.declared.bins.TheConstants.{HOLDER_WORDS};
ghost use Rattle.one_space.specs.Entered.{records_from};

use item_build::HOLDER_WORDS;
use word_mem::WordMem;

/// Puts the records of `n` holders that lie side by side from a place on at the end of the table, in order.
pub fn enter_bins(mem: &WordMem, bins: &mut Vec<u64>, first: u64, n: u64)
    requires inside { first + HOLDER_WORDS * n ≤ length mem.now }
    requires room { vec_len bins.old + n ≤ vec_capacity bins.old }
    ensures items { bins.new.items ≡ bins.old.items ++ records_from mem.now first n }
    ensures capacity { vec_capacity bins.new ≡ vec_capacity bins.old }
{
    mem.bounded();
    for i in 0..n {
        bins.push_reserved(mem.get(first + HOLDER_WORDS * i + 3));
    }
}
