// Going through the words of what was copied.
ghost use Rattle.std.specs.Prelude.{◌≡◌, ℕ, true, false, List, ◌+◌, ◌/◌, ◌<◌};
ghost use Rattle.plain_term.specs.Tree.{Tree, Trees};
ghost use Rattle.plain_term.specs.Tree.Trees.{◌▹◌};
ghost use Rattle.term_words.specs.Object.{IsPointer};
ghost use Rattle.cheney.specs.Ranges.{stays};
ghost use Rattle.term_copy.specs.Copied.{Task};
ghost use Rattle.term_copy.specs.Going.{Advances, CanScanObject, CanWord, CanWords, IsStay, Item, Leading, Scanning};

use crate::objects::copy_part;
use cheney::Stay;
use term_tags::{arity_of, is_header, is_pointer, place_of, traced_from};
use word_mem::{Room, WordMem};

/// Goes through the traced words of the object at a place, and answers the place after it.
#[inline(always)]
pub fn scan_object(mem: &mut WordMem, room: &mut Room, stay: &Stay, at: u64) -> u64
    requires { CanScanObject mem.old room.old (stays stay.now) at }
    ensures room { Advances room.old room.new }
    ensures further { at < result }
    ensures each { (p : Task) (known : List Item) → IsStay p (stays stay.now) → Leading p known mem.old at at room.old.top 0
        → Leading p known mem.new result result room.new.top 0 }
{
    mem.bounded();
    let word = mem.get(at);
    if !is_header(word) {
        let end = at + 2;
        scan_words(mem, room, stay, at, end);
        return end;
    }
    let end = at + (1 + arity_of(word));
    scan_words(mem, room, stay, at + traced_from(word), end);
    end
}

// Goes through the words from one place up to another, the last of an object.
#[inline(always)]
fn scan_words(mem: &mut WordMem, room: &mut Room, stay: &Stay, from: u64, to: u64)
    requires { CanWords mem.old room.old (stays stay.now) from to }
    ensures room { Advances room.old room.new }
    ensures each { (p : Task) (known : List Item) (rest : Trees) → IsStay p (stays stay.now) → Scanning p known mem.old from to room.old.top rest
        → Leading p known mem.new to to room.new.top 0 }
{
    let mut at = from;
    while at < to {
        scan_word(mem, room, stay, at);
        at += 1;
    }
}

// Copies what the word at a place points to, unless it stays, and puts the pointer to the copy in its place.
#[inline(always)]
fn scan_word(mem: &mut WordMem, room: &mut Room, stay: &Stay, at: u64)
    requires { CanWord mem.old room.old (stays stay.now) at }
    ensures room { Advances room.old room.new }
    ensures each { (p : Task) (known : List Item) (to : ℕ) (u : Tree) (rest : Trees) → IsStay p (stays stay.now)
        → Scanning p known mem.old at to room.old.top (u ▹ rest) → Scanning p known mem.new (at + 1) to room.new.top rest }
{
    mem.bounded();
    let w = mem.get(at);
    if goes(stay, w) {
        let new = copy_part(mem, room, w);
        mem.set(at, new);
    }
}

/// Whether a word points to an object that does not stay.
#[inline]
pub fn goes(stay: &Stay, w: u64) -> bool
    ensures yes { result ≡ true → IsPointer w × (stays stay.now (w / 4) ≡ false) }
    ensures no { result ≡ false → IsPointer w → stays stay.now (w / 4) ≡ true }
{
    if !is_pointer(w) {
        return false;
    }
    !stay.has(place_of(w))
}
