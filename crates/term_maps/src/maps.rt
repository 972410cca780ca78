// The map of pairs.
ghost use Rattle.std.specs.Prelude.{◌≡◌, ℕ, ◌+◌, ◌*◌, Bool, List, Some, None, IfOk, IfErr, OnErr, IfNone, IfSome};
ghost use Rattle.term_tags.specs.Words.{boxed_word};
ghost use Rattle.plain_term.specs.Tree.{Tree, Pairs, pairs_len};
ghost use Rattle.plain_term.specs.Tree.Tree.{Map};
ghost use Rattle.plain_term.specs.InOrder.{in_order};
ghost use Rattle.term_words.specs.Role.{outside};
ghost use Rattle.term_words.specs.Stands.{Stands};
ghost use Rattle.term_words.specs.Kept.{Keeps};
ghost use Rattle.term_build.specs.Taken.{Taken, IsFree, of_map};
ghost use Rattle.term_build.specs.Grows.{Built};
ghost use Rattle.term_build.specs.Clear.{IsRoom, Clear, KeepsClear, Uses};
ghost use Rattle.term_maps.specs.Stops.{has_beyond, why_not};
ghost use Rattle.term_maps.specs.Given.{PairsStand, keys_in, KeysNamed, KeysAreTerms, KeysWithin, CanMap, IsSorted, MapIsMade, word_pairs};

use crate::sorted::Sorted;
use atom_names::AtomNames;
use term_build::map_in_order;
use term_walk::is_beyond;
use word_mem::{Room, WordMem};

/// Why no map is made: a key is beyond the walk limit, or there are more than 32 distinct keys.
#[derive(Clone, Copy, Drop)]
pub enum MapStop {
    Big,
    Size,
}

/// The map of pairs of a key and a value, in any order: where two keys are equal, the later pair stands, with its own key.
/// Four words and two for each distinct key. `Big` comes where a key is beyond the walk limit; `Size` where none is and more
/// than 32 are distinct. The room and the memory are then as they were.
pub fn map(
    mem: &mut WordMem,
    room: &mut Room,
    names: &AtomNames,
    pairs: &[(u64, u64)],
) -> Result<u64, MapStop>
    requires places { IsRoom room.old mem.old }
    requires pairs { CanMap names.now room.old mem.old pairs.now }
    ensures stop { IfErr result (λ e. (c : ℕ → ℕ → Bool) (shared : List (List ℕ)) (given : Pairs) → PairsStand c shared mem.old pairs.now given
        → why_not names.now shared given ≡ Some e) }
    ensures stopped { OnErr result ((room.new ≡ room.old) × (mem.new ≡ mem.old)) }
    ensures made { IfOk result (λ w. (c : ℕ → ℕ → Bool) (shared : List (List ℕ)) (given : Pairs) → PairsStand c shared mem.old pairs.now given
        → MapIsMade c names.now shared given room.old room.new mem.old mem.new w) }
    ensures made_clear { IfOk result (λ w. (shared : List (List ℕ)) (given : Pairs)
        → PairsStand (outside room.old.top room.old.end) shared mem.old pairs.now given
        → Clear room.new shared mem.new w (Map (in_order names.now shared given))) }
    ensures kept_clear { KeepsClear room.old room.new mem.old mem.new }
{
    let sorted = sort(mem, names, pairs)?;
    Ok(map_in_order(mem, room, sorted.keys.as_slice(), sorted.values.as_slice()))
}

// The pairs by their keys.
fn sort(mem: &WordMem, names: &AtomNames, pairs: &[(u64, u64)]) -> Result<Sorted, MapStop>
    requires { KeysNamed mem.now names.now (keys_in pairs.now) }
    ensures stop { IfErr result (λ e. (c : ℕ → ℕ → Bool) (shared : List (List ℕ)) (given : Pairs) → PairsStand c shared mem.now pairs.now given
        → why_not names.now shared given ≡ Some e) }
    ensures sorted { IfOk result (λ s. (c : ℕ → ℕ → Bool) (shared : List (List ℕ)) (given : Pairs) → PairsStand c shared mem.now pairs.now given
        → IsSorted c names.now shared mem.now given s) }
{
    if has_big_key(mem, pairs) {
        return Err(MapStop::Big);
    }
    let mut sorted = Sorted::new();
    for (i, pair) in pairs.iter().enumerate() {
        if !sorted.put(mem, names, pair.0, pair.1) {
            return Err(MapStop::Size);
        }
    }
    Ok(sorted)
}

// Whether a key is beyond the walk limit.
fn has_big_key(mem: &WordMem, pairs: &[(u64, u64)]) -> bool
    requires { KeysAreTerms mem.now (keys_in pairs.now) }
    ensures { (c : ℕ → ℕ → Bool) (shared : List (List ℕ)) (given : Pairs) → PairsStand c shared mem.now pairs.now given → result ≡ has_beyond shared given }
{
    for (i, pair) in pairs.iter().enumerate() {
        if is_beyond(mem, pair.0) {
            return true;
        }
    }
    false
}

/// The map of keys and values that stand in turn in a row, each key before its value, and no key beyond the walk limit; as
/// of `map`. `None` where more than 32 keys are distinct. The room and the memory are then as they were.
pub fn map_of_row(mem: &mut WordMem, room: &mut Room, names: &AtomNames, row: &[u64]) -> Option<u64>
    requires places { IsRoom room.old mem.old }
    requires pairs { CanMap names.now room.old mem.old (word_pairs row.now) }
    requires within { KeysWithin mem.old (word_pairs row.now) }
    ensures none { IfNone result ((c : ℕ → ℕ → Bool) (shared : List (List ℕ)) (given : Pairs) → PairsStand c shared mem.old (word_pairs row.now) given
        → why_not names.now shared given ≡ Some MapStop.Size) }
    ensures stopped { IfNone result ((room.new ≡ room.old) × (mem.new ≡ mem.old)) }
    ensures made { IfSome result (λ w. (c : ℕ → ℕ → Bool) (shared : List (List ℕ)) (given : Pairs) → PairsStand c shared mem.old (word_pairs row.now) given
        → MapIsMade c names.now shared given room.old room.new mem.old mem.new w) }
{
    let sorted = sort_row(mem, names, row)?;
    Some(map_in_order(mem, room, sorted.keys.as_slice(), sorted.values.as_slice()))
}

// The keys and values of a row by their keys, or nothing where there are too many.
fn sort_row(mem: &WordMem, names: &AtomNames, row: &[u64]) -> Option<Sorted>
    requires named { KeysNamed mem.now names.now (keys_in (word_pairs row.now)) }
    requires within { KeysWithin mem.now (word_pairs row.now) }
    ensures none { IfNone result ((c : ℕ → ℕ → Bool) (shared : List (List ℕ)) (given : Pairs) → PairsStand c shared mem.now (word_pairs row.now) given
        → why_not names.now shared given ≡ Some MapStop.Size) }
    ensures sorted { IfSome result (λ s. (c : ℕ → ℕ → Bool) (shared : List (List ℕ)) (given : Pairs) → PairsStand c shared mem.now (word_pairs row.now) given
        → IsSorted c names.now shared mem.now given s) }
{
    let mut sorted = Sorted::new();
    for i in 0..row.len() / 2 {
        if !sorted.put(mem, names, row[2 * i], row[2 * i + 1]) {
            return None;
        }
    }
    Some(sorted)
}
