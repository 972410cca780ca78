// The order of items that stand alone.
ghost use Rattle.std.specs.Prelude.{◌≡◌, [], length};
ghost use Rattle.plain_term.specs.Order.{order};
ghost use Rattle.trial_space.specs.Items.{alone, item_rank, item_value, item_number, item_name};

use atom_names::AtomNames;
use plain_term::Item;
use std::cmp::Ordering;

// The place of an item's kind among the kinds.
fn rank(item: Item) -> u64
    ensures { result ≡ item_rank item }
{
    match item {
        Item::Int(_) => 0,
        Item::Atom(_) => 1,
        Item::Pid(_) => 4,
        _ => 7,
    }
}

// The value of an integer, 0 of anything else.
fn value(item: Item) -> i128
    ensures { result ≡ item_value item }
{
    match item {
        Item::Int(i) => i,
        _ => 0,
    }
}

// The number of a pid, 0 of anything else.
fn number(item: Item) -> u64
    ensures { result ≡ item_number item }
{
    match item {
        Item::Pid(n) => n,
        _ => 0,
    }
}

// The name of an atom, where it has one.
fn name(names: &AtomNames, item: Item) -> &[u8]
    ensures { result.now ≡ item_name names.now item }
{
    match item {
        Item::Atom(k) if k < names.count() => names.name(k),
        _ => b"",
    }
}

/// The order of the trees of two items.
pub fn item_order(names: &AtomNames, a: Item, b: Item) -> Ordering
    ensures { result ≡ order names.now [] (alone a) (alone b) }
{
    let kinds = rank(a).cmp(&rank(b));
    let values = value(a).cmp(&value(b));
    let numbers = number(a).cmp(&number(b));
    let named = name(names, a).cmp(name(names, b));
    kinds.then(values.then(numbers.then(named)))
}
