// Small terms that are found to be the same without a walk.
ghost use Rattle.std.specs.Prelude.{◌≡◌, ◌-◌, ◌<◌, ◌≤◌, true};
ghost use Rattle.term_order.specs.Runs.{AreBoth};
ghost use Rattle.term_order.specs.Same.{FindsOne, FindsMap, AreMaps, FindsRow, AreTwoRows};

use word_mem::WordMem;

// The most nodes that are looked at, and one.
const MOST_SEEN: u64 = 64;

/// Whether two terms are found to be the same in few nodes: immediates, and lists, tuples and maps of such. Two that are not
/// found to be may be the same still.
pub fn is_same(mem: &WordMem, a: u64, b: u64) -> bool
    requires { AreBoth mem.now a b }
    ensures { result ≡ true → FindsOne mem.now a b 64 1 }
{
    same_term(mem, a, b, MOST_SEEN) > 0
}

// How many of `most` nodes are left behind two terms that are the same; 0 where they are not found to be.
#[cycle(same)]
fn same_term(mem: &WordMem, x: u64, y: u64, most: u64) -> u64
    requires { AreBoth mem.now x y }
    ensures fewer { result ≤ most - 1 }
    ensures same { 0 < result → FindsOne mem.now x y most result }
{
    mem.bounded();
    if most == 0 {
        return 0;
    }
    if x % 4 == 3 {
        if x == y {
            return most - 1;
        }
        return 0;
    }
    if x % 4 == 1 {
        if y % 4 == 1 {
            return same_row(mem, x / 4, y / 4, 2, most - 1);
        }
        return 0;
    }
    if x % 4 != 2 {
        return 0;
    }
    if y % 4 != 2 {
        return 0;
    }
    let head = mem.get(x / 4);
    if mem.get(y / 4) != head {
        return 0;
    }
    if head % 64 == 0 {
        return same_row(mem, x / 4 + 1, y / 4 + 1, head / 64, most - 1);
    }
    if head % 64 == 60 {
        return same_map(mem, x, y, most - 1);
    }
    0
}

// The same of two maps without their own nodes: of their keys and then of their values.
#[cycle(same)]
fn same_map(mem: &WordMem, x: u64, y: u64, most: u64) -> u64
    requires { AreMaps mem.now x y }
    ensures fewer { result ≤ most }
    ensures same { 0 < result → FindsMap mem.now x y most result }
{
    mem.bounded();
    let len = mem.get(x / 4 + 1);
    if mem.get(y / 4 + 1) != len {
        return 0;
    }
    let keys = mem.get(x / 4 + 2) / 4 + 1;
    let others = mem.get(y / 4 + 2) / 4 + 1;
    let left = same_row(mem, keys, others, len, most);
    if left == 0 {
        return 0;
    }
    same_row(mem, x / 4 + 3, y / 4 + 3, len, left)
}

// The same of `n` words side by side from each of two places.
#[cycle(same)]
fn same_row(mem: &WordMem, p: u64, q: u64, n: u64, most: u64) -> u64
    requires { AreTwoRows mem.now p q n }
    ensures fewer { result ≤ most }
    ensures same { 0 < result → FindsRow mem.now p q n most result }
{
    mem.bounded();
    if n == 0 {
        return most;
    }
    let left = same_term(mem, mem.get(p), mem.get(q), most);
    if left == 0 {
        return 0;
    }
    same_row(mem, p + 1, q + 1, n - 1, left)
}
