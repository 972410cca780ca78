// Copying one object.
ghost use Rattle.std.specs.Prelude.{◌≡◌, ℕ, ◌+◌, ◌/◌, ◌%◌, List};
ghost use Rattle.plain_term.specs.Tree.{Tree};
ghost use Rattle.plain_term.specs.Measures.{flat};
ghost use Rattle.term_words.specs.Object.{object_words};
ghost use Rattle.term_words.specs.Stands.{Stands};
ghost use Rattle.term_copy.specs.Copied.{Task};
ghost use Rattle.term_copy.specs.Going.{Advances, CanPart, CanTake, Goes, HasImage, Item, Leading, Took};

use object_rows::is_link_word;
use off_heap_list::chain;
use term_tags::{arity_of, is_list, place_of};
use word_mem::{Room, WordMem};

/// Copies an object of the tree to the first free words of the room, and answers the pointer to its copy.
#[inline]
pub fn copy_part(mem: &mut WordMem, room: &mut Room, w: u64) -> u64
    requires { CanPart mem.old room.old w }
    ensures room { Advances room.old room.new }
    ensures place { result / 4 ≡ room.old.top }
    ensures each { (p : Task) (known : List Item) (mark at owed : ℕ) (u : Tree) → Leading p known mem.old mark at room.old.top (flat u + owed)
        → Stands p.test p.shared p.start w u → Goes p w → HasImage p known mem.new mark at room.new.top owed w result }
{
    mem.bounded();
    copy_object(mem, room, w)
}

// Copies the object that a pointer leads to. A holder or fun gets `next` 0, and its record counts it.
#[inline]
fn copy_object(mem: &mut WordMem, room: &mut Room, w: u64) -> u64
    requires { CanTake mem.old room.old.top room.old.end w }
    ensures took { Took mem.old mem.new w room.old.top result }
    ensures room { room.new ≡ record room.old { top = room.old.top + object_words mem.old w } }
{
    if is_list(w) {
        copy_cons(mem, room, w)
    } else {
        copy_boxed(mem, room, w)
    }
}

#[inline]
fn copy_cons(mem: &mut WordMem, room: &mut Room, w: u64) -> u64
    requires can { CanTake mem.old room.old.top room.old.end w }
    requires tag { w % 4 ≡ 1 }
    ensures took { Took mem.old mem.new w room.old.top result }
    ensures room { room.new ≡ record room.old { top = room.old.top + object_words mem.old w } }
{
    mem.bounded();
    let at = place_of(w);
    let to = room.top;
    let head = mem.get(at);
    let tail = mem.get(at + 1);
    mem.set(to, head);
    mem.set(to + 1, tail);
    room.top = to + 2;
    to * 4 + 1
}

fn copy_boxed(mem: &mut WordMem, room: &mut Room, w: u64) -> u64
    requires can { CanTake mem.old room.old.top room.old.end w }
    requires tag { w % 4 ≡ 2 }
    ensures took { Took mem.old mem.new w room.old.top result }
    ensures room { room.new ≡ record room.old { top = room.old.top + object_words mem.old w } }
{
    mem.bounded();
    let at = place_of(w);
    let to = room.top;
    let header = mem.get(at);
    let words = 1 + arity_of(header);
    mem.copy_apart(at, to, words);
    if is_link_word(header) {
        chain(mem, 0, to);
    }
    room.top = to + words;
    to * 4 + 2
}
