// The part of a term that a verb picks.
ghost use Rattle.std.specs.Prelude.{◌≡◌, ℕ, Bool, List, IfSome};
ghost use Rattle.plain_term.specs.Tree.{Tree};
ghost use Rattle.plain_machine.specs.State.{Process};
ghost use Rattle.plain_machine.specs.Parts.{picked, value_in};
ghost use Rattle.term_words.specs.Stands.{Stands};
ghost use Rattle.term_read.specs.Parts.{AnswersPart};
ghost use Rattle.term_verbs.specs.Picked.{CanPick, CanSeek, HasKey, HasSorted, IsPart};

use crate::keys::spot_of;
use atom_names::AtomNames;
use plain_machine::Pick;
use term_maps::Spot;
use term_read::{Look, element, fun_env, hd, look_at, tl};
use word_mem::WordMem;

/// The word of the part that is picked of a term, if it has one: no part of a binary, which is a new term. `held` has the words
/// of the registers.
pub fn part(mem: &WordMem, names: &AtomNames, held: &[u64], w: u64, how: Pick) -> Option<u64>
    requires { CanPick mem.now names.now held.now w how }
    ensures picks { (c : ℕ → ℕ → Bool) (shared : List (List ℕ)) (q : Process) (t : Tree) → Stands c shared mem.now w t → HasKey c shared mem.now held.now q how
        → HasSorted names.now shared t → AnswersPart c shared mem.now (picked names.now shared q how t) result }
    ensures is_part { IfSome result (λ v. (c : ℕ → ℕ → Bool) (shared : List (List ℕ)) (t : Tree) → Stands c shared mem.now w t → IsPart c shared mem.now t v) }
{
    match how {
        Pick::Hd => hd(mem, w),
        Pick::Tl => tl(mem, w),
        Pick::Elem(i) => element(mem, w, i),
        Pick::MapGet(k) => value_at(mem, names, w, held[k.0 as usize]),
        Pick::Env(i) => fun_env(mem, w, i),
        Pick::Part(_, _) => unreachable!(),
    }
}

// The word of the value that a map has for a key.
fn value_at(mem: &WordMem, names: &AtomNames, w: u64, key: u64) -> Option<u64>
    requires { CanSeek mem.now names.now w key }
    ensures value { (c : ℕ → ℕ → Bool) (shared : List (List ℕ)) (t k : Tree) → Stands c shared mem.now w t → Stands c shared mem.now key k
        → HasSorted names.now shared t → AnswersPart c shared mem.now (value_in names.now shared k t) result }
    ensures is_part { IfSome result (λ v. (c : ℕ → ℕ → Bool) (shared : List (List ℕ)) (t : Tree) → Stands c shared mem.now w t → IsPart c shared mem.now t v) }
{
    mem.bounded();
    let Look::Map(rows) = look_at(mem, w) else {
        return None;
    };
    match spot_of(mem, names, rows, key)? {
        Spot::Same(at) => Some(mem.get(rows.values + at as u64)),
        Spot::New(_) => None,
    }
}
