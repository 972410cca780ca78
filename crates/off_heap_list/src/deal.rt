// A chain is dealt into the objects outside a span and those within it, as after a collection that moves old objects there.
ghost use Rattle.std.specs.Prelude.{◌≡◌, ℕ, ◌+◌, ◌<◌, ◌≤◌, ◌^◌, Bool, true, false, List, [], length, slice_set};
ghost use Rattle.term_words.specs.Role.{IsSingle};
ghost use Rattle.off_heap_list.specs.Links.{next_in};
ghost use Rattle.off_heap_list.specs.Swept.{bin_words_at};
ghost use Rattle.off_heap_list.specs.Dealt.{lies_within, outside_of, FrontLinks, CanDeal, DealtWhole, DealtApart};

use crate::links::{next_of, set_next};
use crate::sweep::held_in;
use crate::whole::turn_onto;
use word_mem::{Span, WordMem};

/// A chain that was dealt: its first object; the number of its objects outside the span, which come first; and the words of bytes
/// that these hold.
#[derive(Clone, Copy)]
pub struct Dealt {
    pub first: u64,
    pub young: u64,
    pub words: u64,
}

/// Deals a chain of `len` objects, the swept front part of one whose rest begins at `to`: its objects outside the span come first, in
/// order, then those within it, and then the rest. Counts stay, and every tree stands.
pub fn deal_chain(mem: &mut WordMem, head: u64, len: u64, span: Span, to: u64) -> Dealt
    requires { CanDeal mem.old head len to }
    ensures { (c : ℕ → ℕ → Bool) (os rest further : List ℕ) → IsSingle c → length os ≡ len → FrontLinks c mem.old head os to rest further
        → DealtWhole c mem.old mem.new os rest further span result }
{
    let deal = deal_apart(mem, head, len, span, to);
    Dealt {
        first: turn_onto(mem, deal.young, deal.count, deal.aged),
        young: deal.count,
        words: deal.words,
    }
}

// A chain on the way: the first of the objects that are left; of those outside the span the last one that was seen, their number and
// the words of bytes that they hold; and the last one within it that was seen, which leads to the one before it and so to the rest.
#[derive(Clone, Copy)]
pub struct Deal {
    pub rest: u64,
    pub young: u64,
    pub count: u64,
    pub words: u64,
    pub aged: u64,
}

// Parts a chain: those outside the span are a chain of their own, the last one first, and those within it come before the rest.
fn deal_apart(mem: &mut WordMem, head: u64, len: u64, span: Span, to: u64) -> Deal
    requires { CanDeal mem.old head len to }
    ensures { (c : ℕ → ℕ → Bool) (os rest further : List ℕ) → IsSingle c → length os ≡ len → FrontLinks c mem.old head os to rest further
        → DealtApart c mem.old mem.new os rest further span result }
{
    let mut deal = Deal {
        rest: head,
        young: 0,
        count: 0,
        words: 0,
        aged: to,
    };
    for i in 0..len {
        mem.bounded();
        deal = deal_next(mem, deal, span);
    }
    deal
}

// The next object comes to those outside the span, or to those within it.
fn deal_next(mem: &mut WordMem, deal: Deal, span: Span) -> Deal
    requires object { deal.rest + 6 ≤ length mem.old }
    requires count { deal.count + 1 < 2 ^ 64 }
    requires words { deal.words + bin_words_at mem.old deal.rest < 2 ^ 64 }
    ensures inside { lies_within span deal.rest ≡ true → (mem.new ≡ slice_set mem.old (deal.rest + 2) deal.aged)
        × (result ≡ record deal { rest = next_in mem.old deal.rest; aged = deal.rest }) }
    ensures outside { lies_within span deal.rest ≡ false → (mem.new ≡ slice_set mem.old (deal.rest + 2) deal.young)
        × (result ≡ record deal {
          rest = next_in mem.old deal.rest;
          young = deal.rest;
          count = deal.count + 1;
          words = deal.words + bin_words_at mem.old deal.rest;
        }) }
{
    let object = deal.rest;
    let next = next_of(mem, object);
    if lies_in(span, object) {
        set_next(mem, object, deal.aged);
        return Deal {
            rest: next,
            young: deal.young,
            count: deal.count,
            words: deal.words,
            aged: object,
        };
    }
    let held = held_in(mem, object);
    set_next(mem, object, deal.young);
    Deal {
        rest: next,
        young: object,
        count: deal.count + 1,
        words: deal.words + held,
        aged: deal.aged,
    }
}

// Whether the place lies in the span.
fn lies_in(span: Span, place: u64) -> bool
    ensures { result ≡ lies_within span place }
{
    span.start <= place && place < span.end
}
