// Funs over a record that is there.
ghost use Rattle.std.specs.Prelude.{◌≡◌, ℕ, ◌+◌, ◌<◌, ◌≤◌, Bool, List, ◌∷◌, length};
ghost use Rattle.term_tags.specs.Words.{boxed_word, head_word, pid_word};
ghost use Rattle.term_tags.specs.declared.kinds.TheConstants.{PIDS};
ghost use Rattle.term_tags.specs.declared.layouts.TheConstants.{FUN, MOST_ENV};
ghost use Rattle.plain_term.specs.Tree.{Trees};
ghost use Rattle.plain_term.specs.Tree.Tree.{Fun};
ghost use Rattle.term_words.specs.Role.{outside};
ghost use Rattle.term_words.specs.Object.{IsFunRecord};
ghost use Rattle.term_words.specs.Stands.{Stands, AllStand};
ghost use Rattle.term_words.specs.Kept.{Keeps};
ghost use Rattle.term_build.specs.Taken.{Taken, IsFree, Lie, of_fun};
ghost use Rattle.term_build.specs.Grows.{BuiltLink};
ghost use Rattle.term_build.specs.Clear.{IsRoom, Clear, AllClear, KeepsClear, Uses};

use crate::rows::put;
use term_tags::{FUN, boxed_at, head_of, pid};
use word_mem::{Room, WordMem};

/// The fun of this arity, which the process with number `creator` made, over the record at place `rec`: six words and one
/// for each environment place. `next` is the place of the next in a chain, 0 at its end. The record's count stays.
pub fn fun_thing(
    mem: &mut WordMem,
    room: &mut Room,
    rec: u64,
    next: u64,
    arity: u64,
    creator: u64,
    env: &[u64],
) -> u64
    requires places { IsRoom room.old mem.old }
    requires few { length env.now ≤ MOST_ENV }
    requires process { creator < PIDS }
    requires words { room.old.top + (6 + length env.now) ≤ room.old.end }
    ensures uses { Uses (6 + length env.now) room.old room.new mem.old mem.new }
    ensures place { result ≡ boxed_word room.old.top }
    ensures words { Lie mem.new room.old.top (head_word FUN (5 + length env.now) ∷ rec ∷ next ∷ arity ∷ length env.now ∷ pid_word creator ∷ env.now) }
    ensures made { (c d : ℕ → ℕ → Bool) (shared : List (List ℕ)) (name : ℕ) (ts : Trees) → Taken of_fun c d room.old.top (6 + length env.now)
        → IsFunRecord c mem.old rec name arity → AllStand c shared mem.old env.now ts → Stands d shared mem.new result (Fun name arity creator ts) }
    ensures kept { (roles : ℕ → ℕ) (c d : ℕ → ℕ → Bool) → Taken roles c d room.old.top (6 + length env.now) → Keeps c d mem.old mem.new }
    ensures built { (c : ℕ → ℕ → Bool) (shared : List (List ℕ)) (name : ℕ) (ts : Trees) → IsFree c room.old.top (room.old.top + (6 + length env.now))
        → IsFunRecord c mem.old rec name arity → AllStand c shared mem.old env.now ts
        → BuiltLink c room.old.top (6 + length env.now) mem.old mem.new shared result (Fun name arity creator ts) }
    ensures made_clear { (shared : List (List ℕ)) (name : ℕ) (ts : Trees) → IsFunRecord (outside room.old.top room.old.end) mem.old rec name arity
        → AllClear room.old shared mem.old env.now ts → Clear room.new shared mem.new result (Fun name arity creator ts) }
    ensures kept_clear { KeepsClear room.old room.new mem.old mem.new }
{
    mem.bounded();
    let count = env.len() as u64;
    let place = put(
        mem,
        room,
        &[
            head_of(FUN, 5 + count),
            rec,
            next,
            arity,
            count,
            pid(creator),
        ],
    );
    put(mem, room, env);
    boxed_at(place)
}
