// The parts of a cons.
ghost use Rattle.std.specs.Prelude.{◌≡◌, ◌+◌, ◌/◌, slice_index, IfSome};
ghost use Rattle.plain_term.specs.Parts.{head_in, tail_in};
ghost use Rattle.term_words.specs.Stands.{IsTerm};
ghost use Rattle.term_read.specs.Parts.{FindsPart};

use crate::object::cons_at;
use word_mem::WordMem;

/// The word of the head, or `None` where the tree is no cons.
pub fn hd(mem: &WordMem, w: u64) -> Option<u64>
    requires { IsTerm mem.now w }
    ensures reads { FindsPart head_in mem.now w result }
    ensures word { IfSome result (λ v. v ≡ slice_index mem.now (w / 4)) }
{
    mem.bounded();
    let place = cons_at(mem, w)?;
    Some(mem.get(place))
}

/// The word of the tail, or `None` where the tree is no cons.
pub fn tl(mem: &WordMem, w: u64) -> Option<u64>
    requires { IsTerm mem.now w }
    ensures reads { FindsPart tail_in mem.now w result }
    ensures word { IfSome result (λ v. v ≡ slice_index mem.now (w / 4 + 1)) }
{
    mem.bounded();
    let cons = cons_at(mem, w)?;
    Some(mem.get(cons + 1))
}
