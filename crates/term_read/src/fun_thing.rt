// The environment of funs.
ghost use Rattle.std.specs.Prelude.{◌≡◌, ◌+◌, ◌/◌, slice_index, IfSome};
ghost use Rattle.plain_term.specs.Parts.{env_in};
ghost use Rattle.term_words.specs.Stands.{IsTerm};
ghost use Rattle.term_read.specs.Parts.{FindsPart};

use crate::object::object_at;
use term_tags::FUN;
use word_mem::WordMem;

/// The word of environment place `i`, from 1, or `None` where the tree is no fun or has no such place.
pub fn fun_env(mem: &WordMem, w: u64, i: u64) -> Option<u64>
    requires { IsTerm mem.now w }
    ensures reads { FindsPart (env_in i) mem.now w result }
    ensures word { IfSome result (λ v. v ≡ slice_index mem.now (w / 4 + 5 + i)) }
{
    mem.bounded();
    let place = object_at(mem, w, FUN)?;
    let places = mem.get(place + 4);
    if 1 <= i && i <= places {
        Some(mem.get(place + 5 + i))
    } else {
        None
    }
}
