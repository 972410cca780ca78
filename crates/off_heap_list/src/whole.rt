// A whole chain that is swept, or turned round, in one call: its length is kept by the caller.
ghost use Rattle.std.specs.Prelude.{◌≡◌, ℕ, ◌+◌, ◌<◌, ◌^◌, Bool, List, [], length};
ghost use Rattle.term_words.specs.Role.{IsSingle};
ghost use Rattle.off_heap_list.specs.Links.{Links};
ghost use Rattle.off_heap_list.specs.Turned.{Turning};
ghost use Rattle.off_heap_list.specs.Swept.{FrontSweeping, Sweeping};
ghost use Rattle.off_heap_list.specs.Whole.{moved_of, ordered, turned, one_of, SweptFront, SweptWhole, CanSweep, CanSweepFront, TurnedOnto, CanTurnOnto, TurnedWhole, CanTurn};

use crate::sweep::{Sweep, Swept, sweep_next};
use crate::turn::{Turn, turn_next};
use word_mem::WordMem;

/// How the objects of a swept chain follow one another: as in the old chain, or the other way round, which spares a walk.
#[derive(Clone, Copy)]
pub enum Order {
    Same,
    Turned,
}

/// What a sweep leaves of a chain: the first of those that were moved, 0 for none, their number, and the words of bytes that
/// they hold. Then the records that may be given back: the last of the objects that ended one, which leads by its word
/// `next` to those before it, and their number. Each still names its record.
#[derive(Clone, Copy)]
pub struct Survivors {
    pub first: u64,
    pub len: u64,
    pub words: u64,
    pub last: u64,
    pub freed: u64,
}

/// Sweeps a chain of `len` objects after a collection: the new chain has those that were moved, and the records of the others
/// do not count them any more. Every tree stands.
pub fn sweep_chain(mem: &mut WordMem, head: u64, len: u64, order: Order) -> Survivors
    requires { CanSweep mem.old head len }
    ensures { (c : ℕ → ℕ → Bool) (os further : List ℕ) → IsSingle c → length os ≡ len → Sweeping c mem.old head os 0 [] 0 [] further
        → SweptWhole c mem.old mem.new os (ordered order (moved_of mem.old os)) further result }
{
    let left = sweep_front(mem, head, len).left;
    match order {
        Order::Turned => left,
        Order::Same => Survivors {
            first: turn_chain(mem, left.first, left.len),
            len: left.len,
            words: left.words,
            last: left.last,
            freed: left.freed,
        },
    }
}

/// What a sweep leaves of the front part of a chain: the survivors, a chain of their own, the last one first; and the first object
/// of the rest, 0 for none.
#[derive(Clone, Copy)]
pub struct FrontLeft {
    pub left: Survivors,
    pub rest: u64,
}

/// Sweeps the first `len` objects of a chain after a collection, as where the objects behind them are of an older part: the rest
/// leads on as it did. Every tree stands.
pub fn sweep_front(mem: &mut WordMem, head: u64, len: u64) -> FrontLeft
    requires { CanSweepFront mem.old head len }
    ensures { (c : ℕ → ℕ → Bool) (os : List ℕ) (to : ℕ) (further : List ℕ) → IsSingle c → length os ≡ len
        → FrontSweeping c mem.old head os to 0 [] 0 [] further → SweptFront c mem.old mem.new os (turned (moved_of mem.old os) []) further to result }
{
    let mut sweep = Sweep {
        rest: head,
        first: 0,
        last: 0,
    };
    let mut tally = Tally {
        len: 0,
        words: 0,
        freed: 0,
    };
    for i in 0..len {
        mem.bounded();
        let swept = sweep_next(mem, &mut sweep);
        tally = counted(tally, swept);
    }
    FrontLeft {
        left: Survivors {
            first: sweep.first,
            len: tally.len,
            words: tally.words,
            last: sweep.last,
            freed: tally.freed,
        },
        rest: sweep.rest,
    }
}

// How many objects were moved, how many words of bytes they hold, and how many records were freed.
#[derive(Clone, Copy)]
pub struct Tally {
    pub len: u64,
    pub words: u64,
    pub freed: u64,
}

// The tally with what became of one more object.
fn counted(tally: Tally, swept: Swept) -> Tally
    requires len { tally.len + 1 < 2 ^ 64 }
    requires words { tally.words + swept.words < 2 ^ 64 }
    requires freed { tally.freed + 1 < 2 ^ 64 }
    ensures len { result.len ≡ tally.len + one_of swept.moved }
    ensures words { result.words ≡ tally.words + swept.words }
    ensures freed { result.freed ≡ tally.freed + one_of swept.freed }
{
    Tally {
        len: tally.len + one_if(swept.moved),
        words: tally.words + swept.words,
        freed: tally.freed + one_if(swept.freed),
    }
}

// 1 where there is one, else 0.
fn one_if(place: Option<u64>) -> u64
    ensures { result ≡ one_of place }
{
    match place {
        Some(_) => 1,
        None => 0,
    }
}

/// Turns a chain of `len` objects round. Counts stay, and every tree stands. The answer is its first object.
pub fn turn_chain(mem: &mut WordMem, head: u64, len: u64) -> u64
    requires { CanTurn mem.old head len }
    ensures { (c : ℕ → ℕ → Bool) (os further : List ℕ) → IsSingle c → length os ≡ len → Links c mem.old head os further
        → TurnedWhole c mem.old mem.new result os further }
{
    turn_onto(mem, head, len, 0)
}

/// Puts a chain of `len` objects before the one that begins at `first`, 0 for none, turned round. Counts stay, and every tree
/// stands. The answer is the first object.
pub fn turn_onto(mem: &mut WordMem, head: u64, len: u64, first: u64) -> u64
    requires { CanTurnOnto mem.old head len first }
    ensures { (c : ℕ → ℕ → Bool) (os kept further : List ℕ) → IsSingle c → length os ≡ len → Turning c mem.old head os first kept further
        → TurnedOnto c mem.old mem.new result os kept further }
{
    let mut turn = Turn { rest: head, first };
    for i in 0..len {
        turn_next(mem, &mut turn);
    }
    turn.first
}
