// Maps whose keys are in order.
ghost use Rattle.std.specs.Prelude.{◌≡◌, ℕ, ◌+◌, ◌*◌, ◌≤◌, Bool, List, ◌∷◌, ◌++◌, length};
ghost use Rattle.term_tags.specs.Words.{boxed_word, head_word};
ghost use Rattle.term_tags.specs.declared.layouts.TheConstants.{MAP, MOST_KEYS, TUPLE};
ghost use Rattle.plain_term.specs.Tree.{Pairs, keys_of, values_of};
ghost use Rattle.plain_term.specs.Tree.Tree.{Map};
ghost use Rattle.term_words.specs.Stands.{Stands, AllStand};
ghost use Rattle.term_words.specs.Kept.{Keeps};
ghost use Rattle.term_build.specs.Taken.{Taken, IsFree, Lie, of_map};
ghost use Rattle.term_build.specs.Grows.{Built};
ghost use Rattle.term_build.specs.Clear.{IsRoom, Clear, AllClear, KeepsClear, Uses};

use crate::rows::put;
use term_tags::{MAP, TUPLE, boxed_at, head_of};
use word_mem::{Room, WordMem};

/// The map of these keys, in their order, with the value of each, in four words and two for each key: a tuple of the keys,
/// and behind it the map.
pub fn map_in_order(mem: &mut WordMem, room: &mut Room, keys: &[u64], values: &[u64]) -> u64
    requires places { IsRoom room.old mem.old }
    requires few { length keys.now ≤ MOST_KEYS }
    requires pairs { length values.now ≡ length keys.now }
    requires words { room.old.top + (4 + 2 * length keys.now) ≤ room.old.end }
    ensures uses { Uses (4 + 2 * length keys.now) room.old room.new mem.old mem.new }
    ensures place { result ≡ boxed_word (room.old.top + (1 + length keys.now)) }
    ensures words { Lie mem.new room.old.top ((head_word TUPLE (length keys.now) ∷ keys.now)
        ++ (head_word MAP (length keys.now + 2) ∷ length keys.now ∷ boxed_word room.old.top ∷ values.now)) }
    ensures made { (c d : ℕ → ℕ → Bool) (shared : List (List ℕ)) (ps : Pairs) → Taken (of_map (length keys.now)) c d room.old.top (4 + 2 * length keys.now)
        → AllStand c shared mem.old keys.now (keys_of ps) → AllStand c shared mem.old values.now (values_of ps) → Stands d shared mem.new result (Map ps) }
    ensures kept { (roles : ℕ → ℕ) (c d : ℕ → ℕ → Bool) → Taken roles c d room.old.top (4 + 2 * length keys.now) → Keeps c d mem.old mem.new }
    ensures built { (c : ℕ → ℕ → Bool) (shared : List (List ℕ)) (ps : Pairs) → IsFree c room.old.top (room.old.top + (4 + 2 * length keys.now))
        → AllStand c shared mem.old keys.now (keys_of ps) → AllStand c shared mem.old values.now (values_of ps)
        → Built c room.old.top (4 + 2 * length keys.now) mem.old mem.new shared result (Map ps) }
    ensures made_clear { (shared : List (List ℕ)) (ps : Pairs) → AllClear room.old shared mem.old keys.now (keys_of ps)
        → AllClear room.old shared mem.old values.now (values_of ps) → Clear room.new shared mem.new result (Map ps) }
    ensures kept_clear { KeepsClear room.old room.new mem.old mem.new }
{
    mem.bounded();
    let count = keys.len() as u64;
    let keys_at = put(mem, room, &[head_of(TUPLE, count)]);
    put(mem, room, keys);
    let place = put(
        mem,
        room,
        &[head_of(MAP, count + 2), count, boxed_at(keys_at)],
    );
    put(mem, room, values);
    boxed_at(place)
}
