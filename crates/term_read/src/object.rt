// Where the object of a word lies.
ghost use Rattle.std.specs.Prelude.{◌≡◌, ◌+◌, ◌*◌, ◌/◌, ◌%◌, ◌<◌, ◌≤◌, length, slice_index, IfSome, IfNone};
ghost use Rattle.term_words.specs.Stands.{IsTerm};

use term_tags::{Kind, kind_of, subtag_of};
use word_mem::WordMem;

// The place of the cons of a list pointer.
pub fn cons_at(mem: &WordMem, w: u64) -> Option<u64>
    requires { IsTerm mem.now w }
    ensures some { IfSome result (λ p. (w % 4 ≡ 1) × (p ≡ w / 4) × (p + 2 ≤ length mem.now)) }
    ensures none { IfNone result (w % 4 ≡ 1 → ⊥) }
{
    mem.bounded();
    if let Kind::ListAt(place) = kind_of(w) {
        Some(place)
    } else {
        None
    }
}

// The place of the object of a boxed pointer, where its header has this subtag.
pub fn object_at(mem: &WordMem, w: u64, subtag: u8) -> Option<u64>
    requires { IsTerm mem.now w }
    ensures some { IfSome result (λ p. (w % 4 ≡ 2) × (p ≡ w / 4) × (slice_index mem.now p / 4 % 16 ≡ subtag)
        × (p + (1 + slice_index mem.now p / 64) ≤ length mem.now)) }
    ensures none { IfNone result (w % 4 ≡ 2 → slice_index mem.now (w / 4) / 4 % 16 ≡ subtag → ⊥) }
{
    mem.bounded();
    if let Kind::BoxedAt(place) = kind_of(w) {
        if subtag_of(mem.get(place)) == subtag {
            return Some(place);
        }
    }
    None
}
