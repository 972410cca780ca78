// The text of a small term, gathered in one pass and written at once.
ghost use Rattle.std.specs.Prelude.{◌≡◌, ℕ, ◌<◌, ◌-◌, ◌≤◌, ◌++◌, Bool, List, IfNone, IfSome, true, false};
ghost use Rattle.line_io.specs.Sink.{WritesTold};
ghost use Rattle.plain_term.specs.Beyond.{is_beyond};
ghost use Rattle.plain_term.specs.Text.{placed, text};
ghost use Rattle.plain_term.specs.Tree.{Tree};
ghost use Rattle.term_words.specs.Stands.{Stands};
ghost use Rattle.term_print.specs.Own.{leaf_text};
ghost use Rattle.term_print.specs.Printed.{CanBegin};
ghost use Rattle.term_print.specs.Short.{CanBeginRow, GathersRow, GathersTerm, HasLookName, comma_text, is_leaf};

use crate::levels::end_bytes;
use crate::own::{list_begin, list_end, tuple_begin};
use arrayvec::ArrayVec;
use atom_names::AtomNames;
use itoa::Buffer;
use line_io::{Sink, SinkFault};
use term_read::{Look, look_at};
use text_parts::put;
use word_mem::WordMem;

// The most bytes of a text that is gathered.
const SHORT: usize = 256;

// One more than the nodes that are gone through at most: a term of so few is within the walk limit.
const FEW: u64 = 64;

/// Writes the text of a term of few nodes at once, in one write: one of integers of a word, names, processes, lists and tuples, of at
/// most 63 nodes and 256 bytes. Of any other nothing is written, and nothing is told.
pub fn print_short<K: Sink>(
    mem: &WordMem,
    names: &AtomNames,
    w: u64,
    sink: &mut K,
) -> Option<Result<(), SinkFault>>
    requires { CanBegin mem.now names.now w }
    ensures within { IfSome result (λ r. (c : ℕ → ℕ → Bool) (shared : List (List ℕ)) (t : Tree) → Stands c shared mem.now w t → is_beyond shared t ≡ false) }
    ensures puts { IfSome result (λ r. (c : ℕ → ℕ → Bool) (shared : List (List ℕ)) (t : Tree) → Stands c shared mem.now w t
        → WritesTold K.wrote K.faults sink.old sink.new (text names.now shared t) r) }
    ensures none { IfNone result (sink.new ≡ sink.old) }
{
    let mut text = ArrayVec::new();
    let left = gather_term(mem, names, w, false, FEW, &mut text);
    if left == 0 {
        return None;
    }
    Some(put(sink, text.as_slice()))
}

// Adds the text of a term, as it stands or as the tail of a list; answers how many of `most` nodes are left, 0 where it gave up.
#[cycle(gathering)]
fn gather_term(
    mem: &WordMem,
    names: &AtomNames,
    w: u64,
    tail: bool,
    most: u64,
    text: &mut ArrayVec<u8, SHORT>,
) -> u64
    requires { CanBegin mem.now names.now w }
    ensures fewer { result ≤ most - 1 }
    ensures gathers { 0 < result → GathersTerm mem.now names.now w tail most text.old.items text.new.items result }
{
    mem.bounded();
    if most == 0 {
        return 0;
    }
    match look_at(mem, w) {
        Look::Cons(place) => {
            if !add(text, list_begin(tail)) {
                return 0;
            }
            let left = gather_term(mem, names, mem.get(place), false, most - 1, text);
            if left == 0 {
                return 0;
            }
            gather_term(mem, names, mem.get(place + 1), true, left, text)
        }
        Look::Nil => {
            if !add(text, list_end(tail)) {
                return 0;
            }
            most - 1
        }
        Look::Tuple(row) => {
            if !add(text, tuple_begin(tail)) {
                return 0;
            }
            let left = gather_row(mem, names, row.first, row.len, false, most - 1, text);
            if left == 0 {
                return 0;
            }
            if !add(text, end_bytes(tail)) {
                return 0;
            }
            left
        }
        leaf => {
            if !gather_placed(names, leaf, tail, text) {
                return 0;
            }
            most - 1
        }
    }
}

// Adds the texts of `len` terms side by side, divided by commas; a comma stands before the first where others do.
#[cycle(gathering)]
fn gather_row(
    mem: &WordMem,
    names: &AtomNames,
    first: u64,
    len: u64,
    more: bool,
    most: u64,
    text: &mut ArrayVec<u8, SHORT>,
) -> u64
    requires { CanBeginRow mem.now names.now first len }
    ensures fewer { result ≤ most }
    ensures gathers { 0 < result → GathersRow mem.now names.now first len more most text.old.items text.new.items result }
{
    mem.bounded();
    if len == 0 {
        return most;
    }
    if !add(text, comma(more)) {
        return 0;
    }
    let left = gather_term(mem, names, mem.get(first), false, most, text);
    if left == 0 {
        return 0;
    }
    gather_row(mem, names, first + 1, len - 1, true, left, text)
}

// Adds the text of a term without parts, as it stands or as the last tail of a list; false where it is of another kind or finds no room.
fn gather_placed(names: &AtomNames, look: Look, tail: bool, text: &mut ArrayVec<u8, SHORT>) -> bool
    requires { HasLookName names.now look }
    ensures leaf { result ≡ true → is_leaf look ≡ true }
    ensures added { result ≡ true → (xs : List ℕ) → text.new.items ≡ text.old.items ++ placed tail (leaf_text names.now xs look) }
{
    if !tail {
        return gather_leaf(names, look, text);
    }
    if !add(text, b"|") {
        return false;
    }
    if !gather_leaf(names, look, text) {
        return false;
    }
    add(text, b"]")
}

// The same as it stands.
fn gather_leaf(names: &AtomNames, look: Look, text: &mut ArrayVec<u8, SHORT>) -> bool
    requires { HasLookName names.now look }
    ensures leaf { result ≡ true → is_leaf look ≡ true }
    ensures added { result ≡ true → (xs : List ℕ) → text.new.items ≡ text.old.items ++ leaf_text names.now xs look }
{
    match look {
        Look::Small(i) => {
            let mut buffer = Buffer::new();
            add(text, buffer.format(i).as_bytes())
        }
        Look::Atom(k) => add(text, names.name(k)),
        _ => false,
    }
}

// What stands before a part that others stand before.
fn comma(more: bool) -> &'static [u8]
    ensures { result.now ≡ comma_text more }
{
    if more { b"," } else { b"" }
}

// Adds bytes where there is room for them.
fn add(text: &mut ArrayVec<u8, SHORT>, bytes: &[u8]) -> bool
    ensures { result ≡ true → text.new.items ≡ text.old.items ++ bytes.now }
{
    match text.try_extend_from_slice(bytes) {
        Ok(()) => true,
        Err(_) => false,
    }
}
