// The pairs of maps.
ghost use Rattle.std.specs.Prelude.{◌≡◌, ◌+◌, ◌/◌, slice_index, IfSome};
ghost use Rattle.term_words.specs.Stands.{IsTerm};
ghost use Rattle.term_read.specs.Parts.{FindsPart, TellsOf, key_of, map_value_of, map_len_in};

use crate::object::object_at;
use term_tags::{MAP, place_of};
use word_mem::WordMem;

/// The number of pairs, or `None` where the tree is no map.
pub fn map_len(mem: &WordMem, w: u64) -> Option<u64>
    requires { IsTerm mem.now w }
    ensures { TellsOf map_len_in mem.now w result }
{
    mem.bounded();
    let place = object_at(mem, w, MAP)?;
    Some(mem.get(place + 1))
}

/// The word of key `i` in order, from 0, or `None` where the tree is no map or has no such pair.
pub fn map_key(mem: &WordMem, w: u64, i: u64) -> Option<u64>
    requires { IsTerm mem.now w }
    ensures reads { FindsPart (key_of i) mem.now w result }
    ensures word { IfSome result (λ v. v ≡ slice_index mem.now (slice_index mem.now (w / 4 + 2) / 4 + 1 + i)) }
{
    mem.bounded();
    let place = object_at(mem, w, MAP)?;
    if i < mem.get(place + 1) {
        let keys = mem.get(place + 2);
        Some(mem.get(place_of(keys) + 1 + i))
    } else {
        None
    }
}

/// The word of the value of key `i`, from 0, or `None` where the tree is no map or has no such pair.
pub fn map_value(mem: &WordMem, w: u64, i: u64) -> Option<u64>
    requires { IsTerm mem.now w }
    ensures reads { FindsPart (map_value_of i) mem.now w result }
    ensures word { IfSome result (λ v. v ≡ slice_index mem.now (w / 4 + 3 + i)) }
{
    mem.bounded();
    let place = object_at(mem, w, MAP)?;
    if i < mem.get(place + 1) {
        Some(mem.get(place + 3 + i))
    } else {
        None
    }
}
