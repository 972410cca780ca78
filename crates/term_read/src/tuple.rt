// The parts of tuples.
ghost use Rattle.std.specs.Prelude.{◌≡◌, ◌+◌, ◌/◌, slice_index, IfSome};
ghost use Rattle.plain_term.specs.Parts.{element_of};
ghost use Rattle.term_words.specs.Stands.{IsTerm};
ghost use Rattle.term_read.specs.Parts.{FindsPart};

use crate::object::object_at;
use term_tags::{TUPLE, arity_of};
use word_mem::WordMem;

/// The word of part `i`, from 1, or `None` where the tree is no tuple or has no such part.
pub fn element(mem: &WordMem, w: u64, i: u64) -> Option<u64>
    requires { IsTerm mem.now w }
    ensures reads { FindsPart (element_of i) mem.now w result }
    ensures word { IfSome result (λ v. v ≡ slice_index mem.now (w / 4 + i)) }
{
    mem.bounded();
    let place = object_at(mem, w, TUPLE)?;
    let header = mem.get(place);
    let parts = arity_of(header);
    if 1 <= i && i <= parts {
        Some(mem.get(place + i))
    } else {
        None
    }
}
