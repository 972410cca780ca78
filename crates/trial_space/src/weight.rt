// How many words the parts of a written term ask for, by its items.
ghost use Rattle.std.specs.Prelude.{◌≡◌, ◌≤◌, length};
ghost use Rattle.plain_term.specs.Measures.{flat, int_flat};
ghost use Rattle.plain_machine.specs.declared.limits.TheConstants.{MOST_FILL, MOST_PLACES};
ghost use Rattle.plain_machine.specs.Tightness.{fill_words, repeat_words};
ghost use Rattle.trial_space.specs.Items.{alone, item_weight, weight, written_bytes};

use line_io::LONGEST_LINE;
use plain_machine::{COUNTED_COST, MOST_FILL, MOST_PLACES, Shape};
use plain_term::Item;

// The words of an integer.
fn int_words(i: i128) -> u64
    ensures { result ≡ int_flat i }
{
    if -(1 << 59) <= i && i < 1 << 59 {
        0
    } else if i.unsigned_abs() < 1 << 64 {
        2
    } else {
        3
    }
}

/// The flat size of an item that stands alone.
pub fn flat_alone(item: Item) -> u64
    ensures { result ≡ flat (alone item) }
{
    match item {
        Item::Int(i) => int_words(i),
        _ => 0,
    }
}

/// The words of a binary of so many bytes.
pub fn filled_words(len: u64) -> u64
    requires { len ≤ MOST_FILL }
    ensures { result ≡ fill_words len }
{
    let words = (len + 7) / 8;
    if len <= 64 {
        return 2 + words;
    }
    COUNTED_COST + words
}

// A number of bytes, no more than a line has.
fn in_line(n: u64) -> u64
    ensures is { result ≡ written_bytes n }
    ensures few { result ≤ LONGEST_LINE }
{
    if n <= LONGEST_LINE as u64 {
        return n;
    }
    LONGEST_LINE as u64
}

// The weight of an item without its parts.
fn weigh_item(item: Item) -> u64
    ensures { result ≡ item_weight item }
{
    match item {
        Item::Int(i) => 1 + int_words(i),
        Item::Tuple(_) => 2,
        Item::Map(_) => 5,
        Item::Bin(n) => 1 + filled_words(in_line(n)),
        Item::Byte(_) => 0,
        _ => 1,
    }
}

/// The words of so many places.
pub fn many_words(shape: Shape, n: u64) -> u64
    requires { n ≤ MOST_PLACES }
    ensures { result ≡ repeat_words shape n }
{
    match shape {
        Shape::Tuple => 1 + n,
        Shape::List => 2 * n,
    }
}

/// The weight of a written term: one more than the words that it asks for.
pub fn weigh(code: &[Item]) -> u64
    requires few { length code.now ≤ LONGEST_LINE }
    ensures { result ≡ weight code.now }
{
    let mut sum = 0;
    let mut i = code.len();
    while i > 0 {
        i -= 1;
        sum += weigh_item(code[i]);
    }
    sum
}
