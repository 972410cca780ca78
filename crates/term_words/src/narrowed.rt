// Tests narrowed to what one owner sees: its own places, places in common, and records.
ghost use Rattle.std.specs.Prelude.{◌≡◌, ℕ, Bool, true, List, ◌↔◌};
ghost use Rattle.term_words.specs.Role.{IsInSight, IsSingle, by, sees};
ghost use Rattle.term_words.specs.Kept.{AgreeInSight, Kept, Keeps};

/// A test that is narrowed to what an owner sees allows one role a place still; every tree that stands by it stands by the wide
/// test, by that of an owner who sees more, and in each memory that agrees in what this owner sees: what others do to their own
/// words leaves it.
pub fn narrowed_tests_keep_trees()
    ensures sight { (own common : ℕ → Bool) (a k : ℕ) → (sees own common a k ≡ true) ↔ IsInSight own common a k }
    ensures allows { (c : ℕ → ℕ → Bool) (own common : ℕ → Bool) (a k : ℕ) → (by c own common a k ≡ true) ↔ ((c a k ≡ true) × IsInSight own common a k) }
    ensures single { (c : ℕ → ℕ → Bool) (own common : ℕ → Bool) → IsSingle c → IsSingle (by c own common) }
    ensures wide { (c : ℕ → ℕ → Bool) (own common : ℕ → Bool) (mem : List ℕ) → Keeps (by c own common) c mem mem }
    ensures wider { (c : ℕ → ℕ → Bool) (own common more further : ℕ → Bool) (mem : List ℕ) → ((a : ℕ) → own a ≡ true → more a ≡ true)
        → ((a : ℕ) → common a ≡ true → further a ≡ true) → Keeps (by c own common) (by c more further) mem mem }
    ensures kept { (c d : ℕ → ℕ → Bool) (own common : ℕ → Bool) (old new : List ℕ) → AgreeInSight c d own common old new
        → Kept (by c own common) (by d own common) old new }
    ensures trees { (c d : ℕ → ℕ → Bool) (own common : ℕ → Bool) (old new : List ℕ) → AgreeInSight c d own common old new
        → Keeps (by c own common) (by d own common) old new }
{}
