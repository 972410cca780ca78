// Pairs whose keys rise.
ghost use Rattle.std.specs.Prelude.{◌≡◌, ℕ, ◌<◌, ◌≤◌, ◌⊎◌, Bool, true, false, List, [], length, slice_set};
ghost use Rattle.plain_term.specs.Tree.{Tree, Pairs, keys_of};
ghost use Rattle.term_tags.specs.declared.layouts.TheConstants.{MOST_KEYS};
ghost use Rattle.plain_term.specs.Beyond.{is_beyond};
ghost use Rattle.term_words.specs.Stands.{Stands, AllStand};
ghost use Rattle.term_words.specs.Counted.{In};
ghost use Rattle.term_order.specs.Compared.{AreNamed};
ghost use Rattle.term_maps.specs.Stops.{has_beyond};
ghost use Rattle.term_maps.specs.Spots.{IsWithin, Finds, SortedStand, PutsSpot};

use arrayvec::ArrayVec;
use atom_names::AtomNames;
use term_order::{Compared, compare};
use term_tags::MOST_KEYS;
use word_mem::WordMem;

const ROOM: usize = MOST_KEYS as usize;

// Keys that rise, and the value of each.
#[derive(Drop)]
pub struct Sorted {
    pub keys: ArrayVec<u64, ROOM>,
    pub values: ArrayVec<u64, ROOM>,
}

/// Where a key stands among keys that rise: it is the same as one, or new before one.
#[derive(Clone, Copy)]
pub enum Spot {
    Same(usize),
    New(usize),
}

impl Sorted {
    pub fn new() -> Sorted
        ensures keys { result.keys.items ≡ [] }
        ensures values { result.values.items ≡ [] }
    {
        Sorted {
            keys: ArrayVec::new(),
            values: ArrayVec::new(),
        }
    }

    // Puts a pair among the others, or answers false where it is a key too many.
    pub fn put(&mut self, mem: &WordMem, names: &AtomNames, key: u64, value: u64) -> bool
        requires can { (w : ℕ) → In w self.old.keys.items → AreNamed mem.now names.now key w }
        requires few { length self.old.keys.items ≤ MOST_KEYS }
        requires same_len { length self.old.values.items ≡ length self.old.keys.items }
        ensures keys { (w : ℕ) → In w self.new.keys.items → (w ≡ key) ⊎ In w self.old.keys.items }
        ensures few { length self.new.keys.items ≤ MOST_KEYS }
        ensures same_len { length self.new.values.items ≡ length self.new.keys.items }
        ensures puts { (c : ℕ → ℕ → Bool) (shared : List (List ℕ)) (ps : Pairs) (k v : Tree) → SortedStand c shared mem.now self.old ps
            → Stands c shared mem.now key k → Stands c shared mem.now value v → has_beyond shared ps ≡ false → is_beyond shared k ≡ false
            → PutsSpot c names.now shared mem.now self.new ps k v result }
    {
        match spot_of(mem, names, self.keys.as_slice(), key) {
            Spot::Same(at) => {
                replace(&mut self.keys, at, key);
                replace(&mut self.values, at, value);
            }
            Spot::New(at) => {
                if self.keys.is_full() {
                    return false;
                }
                self.keys.insert(at, key);
                self.values.insert(at, value);
            }
        }
        true
    }
}

// Writes one of the words.
fn replace(words: &mut ArrayVec<u64, ROOM>, at: usize, word: u64)
    requires { at < length words.old.items }
    ensures { words.new.items ≡ slice_set words.old.items at word }
{
    words[at] = word;
}

// Finds the key among keys that rise.
fn spot_of(mem: &WordMem, names: &AtomNames, keys: &[u64], key: u64) -> Spot
    requires { (w : ℕ) → In w keys.now → AreNamed mem.now names.now key w }
    ensures within { IsWithin (length keys.now) result }
    ensures finds { (c : ℕ → ℕ → Bool) (shared : List (List ℕ)) (ps : Pairs) (k : Tree) → AllStand c shared mem.now keys.now (keys_of ps)
        → Stands c shared mem.now key k
        → has_beyond shared ps ≡ false → is_beyond shared k ≡ false → Finds names.now shared (keys_of ps) k result }
{
    for (i, other) in keys.iter().enumerate() {
        match compare(mem, names, key, *other) {
            Compared::More | Compared::Beyond => {}
            Compared::Same => return Spot::Same(i),
            Compared::Less => return Spot::New(i),
        }
    }
    Spot::New(keys.len())
}
