// A key is found in a map.
ghost use Rattle.std.specs.Prelude.{◌≡◌, ℕ, not, Bool, List, is_some, IfSome};
ghost use Rattle.plain_term.specs.Tree.{Tree, Pairs, keys_of};
ghost use Rattle.plain_term.specs.Beyond.{is_beyond as beyond};
ghost use Rattle.term_words.specs.Stands.{Stands};
ghost use Rattle.term_maps.specs.Spots.{Finds, IsWithin};
ghost use Rattle.term_verbs.specs.Found.{AreKeys, AreSorted, CanFind};

use atom_names::AtomNames;
use term_maps::Spot;
use term_order::{Compared, compare};
use term_read::PairRows;
use term_walk::is_beyond;
use word_mem::WordMem;

/// Where a key stands among those of a map, found by halving; `None` where it is beyond the walk limit.
pub fn spot_of(mem: &WordMem, names: &AtomNames, rows: PairRows, key: u64) -> Option<Spot>
    requires { CanFind mem.now names.now rows key }
    ensures within { IfSome result (IsWithin rows.len) }
    ensures beyond { (c : ℕ → ℕ → Bool) (shared : List (List ℕ)) (k : Tree) → Stands c shared mem.now key k → is_some result ≡ not (beyond shared k) }
    ensures finds { IfSome result (λ spot. (c : ℕ → ℕ → Bool) (shared : List (List ℕ)) (ps : Pairs) (k : Tree) → AreKeys c shared mem.now rows ps
        → AreSorted names.now shared ps → Stands c shared mem.now key k → Finds names.now shared (keys_of ps) k spot) }
{
    mem.bounded();
    if is_beyond(mem, key) {
        return None;
    }
    let mut low = 0;
    let mut high = rows.len;
    while low < high {
        let middle = low + (high - low) / 2;
        match compare(mem, names, key, mem.get(rows.keys + middle)) {
            Compared::Less => high = middle,
            Compared::Same => return Some(Spot::Same(middle as usize)),
            Compared::More | Compared::Beyond => low = middle + 1,
        }
    }
    Some(Spot::New(low as usize))
}
