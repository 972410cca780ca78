// The records of funs, one after the other by their names.
ghost use Rattle.std.specs.Prelude.{◌≡◌, ℕ, if◌then◌else◌, Option, Some};
ghost use Rattle.term_words.specs.Counted.{In};
ghost use Rattle.counts_text.specs.Told.{CanReadTables, CanReadSome, IsBest, is_after, is_before, is_better};

use atom_names::AtomNames;
use shared_rec::serial_of;
use word_mem::WordMem;

/// The record of a fun that comes next after the last one, or is the first: the bytes of names decide, and then arities.
pub fn next_fun(mem: &WordMem, names: &AtomNames, last: Option<u64>, funs: &[u64]) -> Option<u64>
    requires last { CanReadSome mem.now names.now last }
    requires each { (v : ℕ) → In v funs.now → CanReadTables mem.now names.now v }
    ensures { IsBest mem.now names.now last funs.now result }
{
    let mut best = None;
    for v in funs {
        if comes_after(mem, names, last, *v) {
            best = nearer(mem, names, *v, best);
        }
    }
    best
}

// Whether the record comes after the last one.
fn comes_after(mem: &WordMem, names: &AtomNames, last: Option<u64>, v: u64) -> bool
    requires last { CanReadSome mem.now names.now last }
    requires record { CanReadTables mem.now names.now v }
    ensures { result ≡ is_after mem.now names.now last v }
{
    match last {
        Some(w) => before(mem, names, w, v),
        None => true,
    }
}

// The record, if it is less than the best one, else that.
fn nearer(mem: &WordMem, names: &AtomNames, v: u64, best: Option<u64>) -> Option<u64>
    requires record { CanReadTables mem.now names.now v }
    requires best { CanReadSome mem.now names.now best }
    ensures { result ≡ (if is_better mem.now names.now v best then Some v else best) }
{
    match best {
        Some(w) => {
            if before(mem, names, v, w) {
                return Some(v);
            }
            best
        }
        None => Some(v),
    }
}

// Whether the first record is less than the second.
fn before(mem: &WordMem, names: &AtomNames, v: u64, w: u64) -> bool
    requires first { CanReadTables mem.now names.now v }
    requires second { CanReadTables mem.now names.now w }
    ensures { result ≡ is_before mem.now names.now v w }
{
    let one = serial_of(mem, v);
    let other = serial_of(mem, w);
    let by_name = names.name(one / 256).cmp(names.name(other / 256));
    by_name.then((one % 256).cmp(&(other % 256))).is_lt()
}
