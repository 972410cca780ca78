// The table of layouts in its own words: a law is the contract of a function that does nothing.
ghost use Rattle.std.specs.Prelude.{◌≡◌, ℕ, ◌+◌, ◌/◌, ◌≤◌, None};
ghost use Rattle.term_tags.specs.declared.layouts.TheConstants.{TUPLE, POS_BIG, NEG_BIG, REF, FUN, HOLDER, HEAP_BIN, SUB_BIN, MAP, MOST_PARTS, MOST_ENV, MOST_HEAP_BYTES, MOST_KEYS};
ghost use Rattle.term_tags.specs.Table.{layout_for, shape, IsOfObject};
ghost use Rattle.term_tags.specs.Words.{head_word};

/// Each kind of object has its words, the first that is traced, and how many are; every other word is the header of no object.
pub fn table_of_layouts()
    ensures tuple { (n : ℕ) → n ≤ MOST_PARTS → layout_for (head_word TUPLE n) ≡ shape (1 + n) 1 n }
    ensures pos_big { (n : ℕ) → 1 ≤ n → n ≤ 2 → layout_for (head_word POS_BIG n) ≡ shape (1 + n) (1 + n) 0 }
    ensures neg_big { (n : ℕ) → 1 ≤ n → n ≤ 2 → layout_for (head_word NEG_BIG n) ≡ shape (1 + n) (1 + n) 0 }
    ensures reference { layout_for (head_word REF 2) ≡ shape 3 3 0 }
    ensures fun { (k : ℕ) → k ≤ MOST_ENV → layout_for (head_word FUN (k + 5)) ≡ shape (6 + k) 6 k }
    ensures holder { layout_for (head_word HOLDER 5) ≡ shape 6 6 0 }
    ensures heap_bin { (n : ℕ) → n ≤ MOST_HEAP_BYTES / 8 → layout_for (head_word HEAP_BIN (1 + n)) ≡ shape (2 + n) (2 + n) 0 }
    ensures sub_bin { layout_for (head_word SUB_BIN 4) ≡ shape 5 4 1 }
    ensures map { (n : ℕ) → n ≤ MOST_KEYS → layout_for (head_word MAP (n + 2)) ≡ shape (3 + n) 2 (n + 1) }
    ensures none { (h : ℕ) → ((s n : ℕ) → IsOfObject s n → h ≡ head_word s n → ⊥) → layout_for h ≡ None }
{}
