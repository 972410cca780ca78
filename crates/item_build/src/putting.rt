// One item of a written term.
ghost use Rattle.std.specs.Prelude.{◌≡◌, ℕ, ◌+◌, ◌-◌, ◌*◌, ◌<◌, ◌≤◌, Bool, true, false, List, ◌∷◌, length, take, drop, Option, Some, IfSome, IfNone};
ghost use Rattle.plain_term.specs.declared.item.Item.TheVariants.{Bin as ItemBin};
ghost use Rattle.plain_term.specs.Tree.{Tree, Trees, Pairs, pairs_len};
ghost use Rattle.term_tags.specs.declared.kinds.TheConstants.{PLACES};
ghost use Rattle.term_tags.specs.declared.layouts.TheConstants.{MOST_PARTS};
ghost use Rattle.plain_term.specs.Measures.{is_small};
ghost use Rattle.term_words.specs.Object.{IsSmallAs};
ghost use Rattle.term_words.specs.Stands.{AllStand};
ghost use Rattle.term_build.specs.Taken.{IsFree};
ghost use Rattle.term_build.specs.Clear.{IsRoom};
ghost use Rattle.term_maps.specs.Given.{CanMap, KeysWithin, PairsStand, word_pairs};
ghost use Rattle.item_build.specs.Reading.{all_of, bin_of_items, bytes_in, bytes_led, has_big_key as has_big, is_big_item as is_big, is_big_key, is_byte as is_byte_item, is_object, is_word, is_long, long_bins};
ghost use Rattle.item_build.specs.Reading.{map_of, near_words, own_words, parts_after, bytes_after, read_item, tree_where, tree_with};
ghost use Rattle.item_build.specs.Building.{AreMarks, CanPut, HasMark, HasMarks, FitsWord, HasNoBigKey, HeldStand, HolderStands, IsLeaf, IsMark, MarkBuilt, Puts, UsesSome, holds_wide};

use crate::bins::{first_bytes, is_byte};
use atom_names::AtomNames;
use plain_term::Item;
use term_build::{cons, heap_bin, integer, tuple};
use term_maps::map_of_row;
use term_tags::{MOST_HEAP_BYTES, atom, boxed_at, nil, pid, small};
use term_walk::{Measured, measure};
use word_mem::{Room, WordMem};

/// What stands for a term in which a map has too many different keys. It is no word of a term.
pub const WIDE: u64 = 0;

// One item before the terms whose words stand from `sp` on, with these items behind it: it takes the words of its parts off and puts
// its own on; a byte does neither. The holder of a long binary stands at `bin`. Nothing where it is a map with a key that is too big.
pub fn put_item(
    mem: &mut WordMem,
    room: &mut Room,
    names: &AtomNames,
    scratch: &mut [u64],
    sp: usize,
    held: &[u64],
    bin: u64,
    item: Item,
    rest: &[Item],
) -> Option<usize>
    requires within { sp ≤ length scratch.old }
    requires some { is_byte_item item ≡ false → 0 < sp + parts_after item }
    requires can { CanPut (length names.now) (length held.now) room.old mem.old (drop sp scratch.old) item }
    requires bytes { bytes_after item ≤ bytes_led rest.now }
    requires holder { is_long item ≡ true → bin < PLACES }
    ensures puts { (c : ℕ → ℕ → Bool) (shared : List (List ℕ)) (trees : List Tree) (ms : List (Option Tree))
        → IsFree c room.old.top (room.old.top + own_words item)
        → HeldStand c shared mem.old held.now trees → HolderStands c shared mem.old bin item (long_bins rest.now)
        → AreMarks c shared mem.old (drop sp scratch.old) ms
        → Puts c shared room.old room.new mem.old mem.new result scratch.new (is_big shared item (take (parts_after item) ms))
        (read_item names.now shared trees item rest.now ms) }
    ensures uses { IfSome result (λ r. UsesSome (own_words item) room.old room.new mem.old mem.new) }
    ensures place { IfSome result (λ r. r ≤ length scratch.new) }
    ensures stopped { IfNone result ((room.new ≡ room.old) × (mem.new ≡ mem.old)) }
    ensures row { length scratch.new ≡ length scratch.old }
{
    if is_byte(item) {
        return Some(sp);
    }
    if let Some(w) = leaf(held, item) {
        return Some(put_word(scratch, sp, w));
    }
    let left = sp + parts_of(item);
    let parts = &scratch[sp..left];
    if is_big_item(mem, item, parts) {
        return None;
    }
    let w = mark_of(mem, room, names, held, bin, item, rest, parts);
    Some(put_word(scratch, left, w))
}

// The word of an item that needs no object: nothing for any other.
fn leaf(held: &[u64], item: Item) -> Option<u64>
    requires { FitsWord (length held.now) item }
    ensures word { IfSome result (λ w. IsLeaf held.now item w) }
    ensures none { IfNone result (is_word item ≡ false) }
{
    match item {
        Item::Int(i) => small_integer(i),
        Item::Atom(k) => Some(atom(k)),
        Item::Pid(n) => Some(pid(n)),
        Item::Nil => Some(nil()),
        Item::Held(r) => Some(held[r as usize]),
        _ => None,
    }
}

// The word of a small integer.
fn small_integer(i: i128) -> Option<u64>
    ensures word { IfSome result (λ w. IsSmallAs w i) }
    ensures none { IfNone result (is_small i ≡ false) }
{
    if -(1 << 59) <= i && i < 1 << 59 {
        return Some(small(i as i64));
    }
    None
}

// How many terms an item takes off.
fn parts_of(item: Item) -> usize
    requires { parts_after item ≤ MOST_PARTS }
    ensures { result ≡ parts_after item }
{
    match item {
        Item::Cons => 2,
        Item::Tuple(n) => n as usize,
        Item::Map(n) => 2 * n as usize,
        _ => 0,
    }
}

// The word before those that stand from `sp` on.
fn put_word(scratch: &mut [u64], sp: usize, w: u64) -> usize
    requires some { 0 < sp }
    requires within { sp ≤ length scratch.old }
    ensures within { result < length scratch.new }
    ensures row { drop result scratch.new ≡ w ∷ drop sp scratch.old }
    ensures same_len { length scratch.new ≡ length scratch.old }
{
    scratch[sp - 1] = w;
    sp - 1
}

// Whether the item is a map and one of its keys is beyond the walk limit.
fn is_big_item(mem: &WordMem, item: Item, parts: &[u64]) -> bool
    requires { HasMarks mem.now parts.now }
    ensures { (c : ℕ → ℕ → Bool) (shared : List (List ℕ)) (ms : List (Option Tree)) → AreMarks c shared mem.now parts.now ms → result ≡ is_big shared item ms }
{
    match item {
        Item::Map(_) => has_big_key(mem, parts),
        _ => false,
    }
}

// Of keys and values in turn, whether a key that is not wide is beyond the walk limit.
fn has_big_key(mem: &WordMem, row: &[u64]) -> bool
    requires { HasMarks mem.now row.now }
    ensures { (c : ℕ → ℕ → Bool) (shared : List (List ℕ)) (ms : List (Option Tree)) → AreMarks c shared mem.now row.now ms → result ≡ has_big shared ms }
{
    for i in 0..row.len() / 2 {
        if is_big_key(mem, row[2 * i]) {
            return true;
        }
    }
    false
}

// Whether the key is beyond the walk limit, and not wide.
fn is_big_key(mem: &WordMem, w: u64) -> bool
    requires { HasMark mem.now w }
    ensures { (c : ℕ → ℕ → Bool) (shared : List (List ℕ)) (m : Option Tree) → IsMark c shared mem.now w m → result ≡ is_big_key shared m }
{
    if w == WIDE {
        return false;
    }
    match measure(mem, w) {
        Measured::Within(_) => false,
        Measured::Beyond => true,
    }
}

// The word of an item: that of a wide term where one of its parts is.
fn mark_of(
    mem: &mut WordMem,
    room: &mut Room,
    names: &AtomNames,
    held: &[u64],
    bin: u64,
    item: Item,
    rest: &[Item],
    parts: &[u64],
) -> u64
    requires can { CanPut (length names.now) (length held.now) room.old mem.old parts.now item }
    requires exact { length parts.now ≡ parts_after item }
    requires object { is_object item ≡ true }
    requires bytes { bytes_after item ≤ bytes_led rest.now }
    requires holder { is_long item ≡ true → bin < PLACES }
    requires keys { HasNoBigKey mem.old parts.now item }
    ensures built { (c : ℕ → ℕ → Bool) (shared : List (List ℕ)) (trees : List Tree) (ms : List (Option Tree))
        → IsFree c room.old.top (room.old.top + own_words item)
        → HeldStand c shared mem.old held.now trees → HolderStands c shared mem.old bin item (long_bins rest.now) → AreMarks c shared mem.old parts.now ms
        → MarkBuilt c room.old.top (room.new.top - room.old.top) mem.old mem.new shared result (tree_where names.now shared trees item rest.now (all_of ms)) }
    ensures uses { UsesSome (own_words item) room.old room.new mem.old mem.new }
{
    if parts.contains(&WIDE) {
        return WIDE;
    }
    word_of(mem, room, names, held, bin, item, rest, parts)
}

// The word of an item, none of whose parts is wide.
fn word_of(
    mem: &mut WordMem,
    room: &mut Room,
    names: &AtomNames,
    held: &[u64],
    bin: u64,
    item: Item,
    rest: &[Item],
    parts: &[u64],
) -> u64
    requires can { CanPut (length names.now) (length held.now) room.old mem.old parts.now item }
    requires exact { length parts.now ≡ parts_after item }
    requires object { is_object item ≡ true }
    requires bytes { bytes_after item ≤ bytes_led rest.now }
    requires holder { is_long item ≡ true → bin < PLACES }
    requires keys { HasNoBigKey mem.old parts.now item }
    requires narrow { holds_wide parts.now ≡ false }
    ensures built { (c : ℕ → ℕ → Bool) (shared : List (List ℕ)) (trees : List Tree) (ts : Trees) → IsFree c room.old.top (room.old.top + own_words item)
        → HeldStand c shared mem.old held.now trees → HolderStands c shared mem.old bin item (long_bins rest.now) → AllStand c shared mem.old parts.now ts
        → MarkBuilt c room.old.top (room.new.top - room.old.top) mem.old mem.new shared result (tree_with names.now shared trees item rest.now ts) }
    ensures uses { UsesSome (own_words item) room.old room.new mem.old mem.new }
{
    match item {
        Item::Int(i) => integer(mem, room, i),
        Item::Cons => cons(mem, room, parts[0], parts[1]),
        Item::Tuple(_) => tuple(mem, room, parts),
        Item::Map(_) => map_word(mem, room, names, parts),
        Item::Bin(n) => bin_word(mem, room, bin, n, rest),
        _ => unreachable!(),
    }
}

// The binary of the first n items. The holder of a long one stands at `bin`.
fn bin_word(mem: &mut WordMem, room: &mut Room, bin: u64, n: u64, rest: &[Item]) -> u64
    requires places { IsRoom room.old mem.old }
    requires words { room.old.top + near_words n ≤ room.old.end }
    requires bytes { n ≤ length rest.now }
    requires holder { is_long (ItemBin n) ≡ true → bin < PLACES }
    ensures built { (c : ℕ → ℕ → Bool) (shared : List (List ℕ)) → IsFree c room.old.top (room.old.top + near_words n)
        → HolderStands c shared mem.old bin (ItemBin n) (long_bins rest.now)
        → MarkBuilt c room.old.top (room.new.top - room.old.top) mem.old mem.new shared result (Some (bin_of_items shared n rest.now)) }
    ensures uses { UsesSome (near_words n) room.old room.new mem.old mem.new }
{
    if n > MOST_HEAP_BYTES {
        return boxed_at(bin);
    }
    let bytes = first_bytes(rest, n as usize);
    heap_bin(mem, room, &bytes[..n as usize])
}

// The map of the keys and values that stand in turn, none of which is wide or too big.
fn map_word(mem: &mut WordMem, room: &mut Room, names: &AtomNames, parts: &[u64]) -> u64
    requires places { IsRoom room.old mem.old }
    requires pairs { CanMap names.now room.old mem.old (word_pairs parts.now) }
    requires within { KeysWithin mem.old (word_pairs parts.now) }
    ensures built { (c : ℕ → ℕ → Bool) (shared : List (List ℕ)) (given : Pairs) → IsFree c room.old.top (room.old.top + (4 + 2 * pairs_len given))
        → PairsStand c shared mem.old (word_pairs parts.now) given
        → MarkBuilt c room.old.top (room.new.top - room.old.top) mem.old mem.new shared result (map_of names.now shared given) }
    ensures uses { UsesSome (4 + length parts.now) room.old room.new mem.old mem.new }
{
    match map_of_row(mem, room, names, parts) {
        Some(w) => w,
        None => WIDE,
    }
}
