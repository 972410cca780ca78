// How many words a written term asks for.
ghost use Rattle.std.specs.Prelude.{◌≡◌, ℕ, ◌+◌, ◌-◌, ◌≤◌, ◌^◌, length, drop, min};
ghost use Rattle.plain_term.specs.declared.item.Item.TheVariants.{Bin};
ghost use Rattle.plain_term.specs.Measures.{int_flat};
ghost use Rattle.item_build.specs.Reading.{far_words, far_words_of, heap_words_of, holder_words, own_words};

use plain_term::Item;
use term_tags::MOST_HEAP_BYTES;

/// The words that a written term takes at most, in two sums: those of its objects, holders of binaries among them, and those of
/// records.
#[derive(Clone, Copy)]
pub struct Needs {
    pub heap: u64,
    pub far: u64,
}

/// The words that the parts of a written term take at most: each written pair of a map counts.
pub fn term_needs(code: &[Item]) -> Needs
    ensures heap { result.heap ≡ min (heap_words_of code.now) (2 ^ 64 - 1) }
    ensures far { result.far ≡ min (far_words_of code.now) (2 ^ 64 - 1) }
{
    let mut heap: u64 = 0;
    let mut far: u64 = 0;
    let mut i = code.len();
    while i > 0 {
        i -= 1;
        let one = needs_of(code[i]);
        heap = one.heap.saturating_add(heap);
        far = one.far.saturating_add(far);
    }
    Needs { heap, far }
}

// Those of one part.
fn needs_of(item: Item) -> Needs
    ensures heap { result.heap ≡ min (own_words item + holder_words item) (2 ^ 64 - 1) }
    ensures far { result.far ≡ min (far_words item) (2 ^ 64 - 1) }
{
    match item {
        Item::Int(i) => on_the_heap(int_words(i)),
        Item::Cons => on_the_heap(2),
        Item::Tuple(n) => on_the_heap(n.saturating_add(1)),
        Item::Map(n) => on_the_heap(n.saturating_mul(2).saturating_add(4)),
        Item::Bin(n) => needs_of_bin(n),
        _ => on_the_heap(0),
    }
}

// Words of objects alone.
fn on_the_heap(heap: u64) -> Needs
    ensures heap { result.heap ≡ heap }
    ensures far { result.far ≡ 0 }
{
    Needs { heap, far: 0 }
}

// Those of a binary: its words on the heap, or a holder and a record.
fn needs_of_bin(n: u64) -> Needs
    ensures heap { result.heap ≡ own_words (Bin n) + holder_words (Bin n) }
    ensures far { result.far ≡ far_words (Bin n) }
{
    let words = n / 8 + (n % 8 + 7) / 8;
    if n > MOST_HEAP_BYTES {
        Needs {
            heap: 6,
            far: 4 + words,
        }
    } else {
        Needs {
            heap: 2 + words,
            far: 0,
        }
    }
}

// The words of an integer: none where it is small, else a header and one digit or two.
fn int_words(i: i128) -> u64
    ensures { result ≡ int_flat i }
{
    if -(1 << 59) <= i && i < 1 << 59 {
        return 0;
    }
    if i.unsigned_abs() < 1 << 64 { 2 } else { 3 }
}
