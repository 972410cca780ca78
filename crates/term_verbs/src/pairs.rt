// A map with a pair more, or with another in the place of one.
ghost use Rattle.std.specs.Prelude.{◌≡◌, ℕ, ◌+◌, ◌*◌, ◌^◌, ◌<◌, ◌≤◌, Bool, List, length, take, drop};
ghost use Rattle.plain_term.specs.Tree.{Tree, Pairs, pairs_len};
ghost use Rattle.plain_term.specs.Tree.Tree.{Map};
ghost use Rattle.term_tags.specs.declared.layouts.TheConstants.{MOST_KEYS};
ghost use Rattle.term_words.specs.Stands.{Stands};
ghost use Rattle.term_build.specs.Taken.{IsFree};
ghost use Rattle.term_build.specs.Grows.{Built};
ghost use Rattle.term_build.specs.Clear.{IsRoom, Uses};
ghost use Rattle.term_maps.specs.Spots.{IsWithin};
ghost use Rattle.term_verbs.specs.Picked.{CanSeek};
ghost use Rattle.term_verbs.specs.Placed.{HasPlace, IsPlaceInMap, count_placed, put_at_spot, word_placed};

use crate::keys::spot_of;
use arrayvec::ArrayVec;
use atom_names::AtomNames;
use term_build::map_in_order;
use term_maps::Spot;
use term_read::{Look, look_at};
use term_tags::MOST_KEYS;
use word_mem::{Room, WordMem};

const ROOM: usize = MOST_KEYS as usize;

/// Where a pair may be put in a map, and how many keys that has.
#[derive(Clone, Copy)]
pub struct Place {
    pub spot: Spot,
    pub keys: u64,
}

/// Why a pair is not put: there is no map, the key is beyond the walk limit, or it is a key too many.
#[derive(Clone, Copy)]
pub enum PutStop {
    NoMap,
    Big,
    Full,
}

/// Finds where a pair with this key may be put in a map.
pub fn place_in(mem: &WordMem, names: &AtomNames, w: u64, key: u64) -> Result<Place, PutStop>
    requires { CanSeek mem.now names.now w key }
    ensures { (c : ℕ → ℕ → Bool) (shared : List (List ℕ)) (t k : Tree) → Stands c shared mem.now w t → Stands c shared mem.now key k
        → IsPlaceInMap names.now shared t k result }
{
    mem.bounded();
    let Look::Map(rows) = look_at(mem, w) else {
        return Err(PutStop::NoMap);
    };
    let Some(spot) = spot_of(mem, names, rows, key) else {
        return Err(PutStop::Big);
    };
    if count_with(spot, rows.len) > MOST_KEYS {
        return Err(PutStop::Full);
    }
    Ok(Place {
        spot,
        keys: rows.len,
    })
}

// How many keys there are with one at the spot.
fn count_with(spot: Spot, keys: u64) -> u64
    requires { keys < 2 ^ 63 }
    ensures { result ≡ count_placed spot keys }
{
    match spot {
        Spot::Same(_) => keys,
        Spot::New(_) => keys + 1,
    }
}

/// The map with a pair at the spot: a new map and a new tuple of keys, in four words and two for each key.
pub fn map_with(mem: &mut WordMem, room: &mut Room, w: u64, spot: Spot, key: u64, value: u64) -> u64
    requires places { IsRoom room.old mem.old }
    requires map { HasPlace room.old mem.old w spot }
    ensures uses { (c : ℕ → ℕ → Bool) (shared : List (List ℕ)) (ps : Pairs) → Stands c shared mem.old w (Map ps)
        → Uses (4 + 2 * count_placed spot (pairs_len ps)) room.old room.new mem.old mem.new }
    ensures built { (c : ℕ → ℕ → Bool) (shared : List (List ℕ)) (ps : Pairs) (k v : Tree)
        → IsFree c room.old.top (room.old.top + (4 + 2 * count_placed spot (pairs_len ps)))
        → Stands c shared mem.old w (Map ps) → Stands c shared mem.old key k → Stands c shared mem.old value v
        → Built c room.old.top (4 + 2 * count_placed spot (pairs_len ps)) mem.old mem.new shared result (Map (put_at_spot spot k v ps)) }
{
    let Look::Map(rows) = look_at(mem, w) else {
        unreachable!()
    };
    let keys = row_with(mem, rows.keys, rows.len, spot, key);
    let values = row_with(mem, rows.values, rows.len, spot, value);
    map_in_order(mem, room, keys.as_slice(), values.as_slice())
}

// The words of a row, with another at the spot.
fn row_with(mem: &WordMem, first: u64, len: u64, spot: Spot, word: u64) -> ArrayVec<u64, ROOM>
    requires inside { first + len ≤ length mem.now }
    requires spot { IsWithin len spot }
    requires few { count_placed spot len ≤ MOST_KEYS }
    ensures { result.items ≡ word_placed spot word (take len (drop first mem.now)) }
{
    mem.bounded();
    let mut words = ArrayVec::new();
    for i in 0..len {
        words.push(mem.get(first + i));
    }
    put_word(&mut words, spot, word);
    words
}

// Writes a word at the spot.
fn put_word(words: &mut ArrayVec<u64, ROOM>, spot: Spot, word: u64)
    requires spot { IsWithin (length words.old.items) spot }
    requires few { count_placed spot (length words.old.items) ≤ MOST_KEYS }
    ensures { words.new.items ≡ word_placed spot word words.old.items }
{
    match spot {
        Spot::Same(at) => words[at] = word,
        Spot::New(at) => words.insert(at, word),
    }
}
