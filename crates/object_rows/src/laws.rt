// What keeps rows.
ghost use Rattle.std.specs.Prelude.{◌≡◌, ℕ, ◌+◌, ◌<◌, ◌≤◌, Bool, true, List, slice_index};
ghost use Rattle.term_words.specs.Role.{COUNT};
ghost use Rattle.term_words.specs.Counted.{In};
ghost use Rattle.off_heap_list.specs.Links.{IsLink};
ghost use Rattle.object_rows.specs.Raised.{CanRaise, RaisesRow};
ghost use Rattle.object_rows.specs.Row.{AreObjects, links_in};

/// A row has the same objects, holders and funs where its words are the same: so between two steps of `drop_next`, where only
/// counts and the words of freed records change.
pub fn rows_stay_where_their_words_do()
    ensures { (old new : List ℕ) (from : ℕ) (ws : List ℕ) (to : ℕ) → AreObjects old from ws to
        → ((q : ℕ) → from ≤ q → q < to → slice_index new q ≡ slice_index old q)
        → AreObjects new from ws to × (links_in new ws ≡ links_in old ws) }
{}

/// A row has the same objects, holders and funs after `raise_row`: the row that was raised, and every other one without a count.
pub fn rows_stay_where_counts_rise()
    ensures own { (old new : List ℕ) (from : ℕ) (ws : List ℕ) (to : ℕ) → CanRaise old from to → AreObjects old from ws to
        → RaisesRow old new (links_in old ws) → AreObjects new from ws to × (links_in new ws ≡ links_in old ws) }
    ensures other { (c : ℕ → ℕ → Bool) (old new ps : List ℕ) (from : ℕ) (ws : List ℕ) (to : ℕ) → AreObjects old from ws to
        → RaisesRow old new ps → ((p : ℕ) → In p ps → IsLink c old p)
        → ((q : ℕ) → from ≤ q → q < to → c q COUNT ≡ true → ⊥)
        → AreObjects new from ws to × (links_in new ws ≡ links_in old ws) }
{}
