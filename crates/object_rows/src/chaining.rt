// The holders and funs of a row of objects come into a chain.
ghost use Rattle.std.specs.Prelude.{◌≡◌, ℕ, ◌+◌, ◌/◌, ◌%◌, ◌≤◌, Bool, true, false, List, length, slice_index};
ghost use Rattle.object_rows.specs.Row.{AreObjects, ChainsRow, IsRow, is_link_header, links_in};

use off_heap_list::{held_in, set_next};
use term_tags::{FUN, HOLDER};
use word_mem::WordMem;

/// A chain after objects came into it: its first object, how many came, and the words of bytes that the holders among them
/// have: those of their records, bytes rounded up to words.
#[derive(Clone, Copy)]
pub struct Chained {
    pub head: u64,
    pub count: u64,
    pub words: u64,
}

/// Puts the holders and funs among the objects from one place up to another before a chain, in order of place, so that the
/// last one is its first object then; `head` is the first object before, 0 for none. The row is walked once. Counts stay.
pub fn chain_row(mem: &mut WordMem, from: u64, to: u64, head: u64) -> Chained
    requires { IsRow mem.old from to }
    ensures { (ws : List ℕ) → AreObjects mem.old from ws to → ChainsRow mem.old mem.new (links_in mem.old ws) head result }
{
    mem.bounded();
    let mut at = from;
    let mut chained = Chained {
        head,
        count: 0,
        words: 0,
    };
    while at < to {
        let word = mem.get(at);
        if word % 4 != 0 {
            at += 2;
        } else {
            if is_link_word(word) {
                let held = held_in(mem, at);
                set_next(mem, at, chained.head);
                chained = Chained {
                    head: at,
                    count: chained.count + 1,
                    words: chained.words.wrapping_add(held),
                };
            }
            at += 1 + word / 64;
        }
    }
    chained
}

/// Whether a header is that of a holder or of a fun.
#[inline]
pub fn is_link_word(header: u64) -> bool
    ensures { result ≡ is_link_header header }
{
    let subtag = (header / 4 % 16) as u8;
    subtag == HOLDER || subtag == FUN
}
