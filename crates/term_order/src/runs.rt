// Cells with the same heads at the front of two lists, which are passed over side by side.
ghost use Rattle.std.specs.Prelude.{◌≡◌, ◌≤◌, true};
ghost use Rattle.term_order.specs.Runs.{AreBoth, IsSameCell, PassesBoth};

use word_mem::WordMem;

/// Where a run over two lists ended: at two words, each behind so many cells.
#[derive(Clone, Copy)]
pub struct Pair {
    pub left: u64,
    pub right: u64,
    pub cells: u64,
}

/// Passes over the cells at the front of two lists whose heads are the same immediates, at most so many.
pub fn pass_same(mem: &WordMem, a: u64, b: u64, most: u64) -> Pair
    requires { AreBoth mem.now a b }
    ensures few { result.cells ≤ most }
    ensures passes { PassesBoth mem.now a b result.left result.right result.cells }
{
    mem.bounded();
    let mut left = a;
    let mut right = b;
    let mut cells = 0;
    while cells < most {
        if !is_same_cell(mem, left, right) {
            break;
        }
        left = mem.get(left / 4 + 1);
        right = mem.get(right / 4 + 1);
        cells += 1;
    }
    Pair { left, right, cells }
}

// Whether the words lead to two cells with the same immediate as their heads.
#[inline]
fn is_same_cell(mem: &WordMem, left: u64, right: u64) -> bool
    requires { AreBoth mem.now left right }
    ensures { result ≡ true → IsSameCell mem.now left right }
{
    mem.bounded();
    if left == right {
        return false;
    }
    if left % 4 != 1 {
        return false;
    }
    if right % 4 != 1 {
        return false;
    }
    let head = mem.get(left / 4);
    if head % 4 != 3 {
        return false;
    }
    mem.get(right / 4) == head
}
