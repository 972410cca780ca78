// Records on their way to new places.
ghost use Rattle.std.specs.Prelude.{◌≡◌, ℕ, ◌+◌, ◌<◌, ◌≤◌, ◌⊎◌, Bool, List, ◌∷◌, length, slice_index};
ghost use Rattle.record_move.specs.declared.moves.TheConstants.{MOVED};
ghost use Rattle.record_move.specs.Copies.{AreFew, RecordsCanMove, AllRecordsCanMove, CanMoveOne, Moves, RecordsMoved};

use off_heap_list::{next_of, record_of, set_record};
use shared_rec::count_of;
use word_mem::WordMem;

/// What the count word of a record that was moved has beside its new place: more than any count.
pub const MOVED: u64 = 4294967296;

/// Moves the records that the objects of a chain name to the free words before `top`, the first one last, each once: the
/// objects name the copies, which have the counts. Every tree stands at every moment. The answer is the lowest word in use.
pub fn move_records(mem: &mut WordMem, head: u64, len: u64, top: u64) -> u64
    requires { AllRecordsCanMove mem.old head len top }
    ensures { (c : ℕ → ℕ → Bool) (os : List ℕ) (low : ℕ) → length os ≡ len → RecordsCanMove c mem.old head os low top
        → (low ≤ result) × RecordsMoved c mem.old mem.new head os result top }
{
    mem.bounded();
    let mut object = head;
    let mut now = top;
    for i in 0..len {
        let next = next_of(mem, object);
        now = move_record(mem, object, now);
        object = next;
    }
    now
}

// Moves the record that the object names to the words before `now`, unless it was moved: the object names the copy.
fn move_record(mem: &mut WordMem, object: u64, now: u64) -> u64
    requires { CanMoveOne mem.old object now }
    ensures { (c : ℕ → ℕ → Bool) (start : List ℕ) (head : ℕ) (os rest : List ℕ) (low top : ℕ) → RecordsCanMove c start head os low top → AreFew c start
        → Moves c start mem.old os (object ∷ rest) low now top → Moves c start mem.new os rest low result top }
{
    mem.bounded();
    let from = record_of(mem, object);
    let count = count_of(mem, from);
    if count >= MOVED {
        set_record(mem, object, count - MOVED);
        return now;
    }
    let words = mem.get(from) / 16;
    let place = now - words;
    copy_record(mem, from, place, words);
    set_record(mem, object, place);
    place
}

// Copies a record to a place, which its count word shows from then on.
fn copy_record(mem: &mut WordMem, from: u64, place: u64, words: u64)
    requires source { from + words ≤ length mem.old }
    requires target { place + words ≤ length mem.old }
    requires apart { (from + words ≤ place) ⊎ (place + words ≤ from) }
    requires some { 3 ≤ words }
    ensures same_len { length mem.new ≡ length mem.old }
    ensures copied { (j : ℕ) → j < words → slice_index mem.new (place + j) ≡ slice_index mem.old (from + j) }
    ensures mark { slice_index mem.new (from + 2) ≡ MOVED + place }
    ensures others { (q : ℕ) → (q < place) ⊎ (place + words ≤ q) → (q ≡ from + 2 → ⊥) → slice_index mem.new q ≡ slice_index mem.old q }
{
    mem.bounded();
    mem.copy_words(from, place, words);
    mem.set(from + 2, MOVED + place);
}
