// What one role a place tells of the words of objects and records.
ghost use Rattle.std.specs.Prelude.{◌≡◌, ℕ, Bool, true, List, ◌+◌, ◌/◌, ◌<◌, ◌≤◌, ◌⊎◌};
ghost use Rattle.plain_term.specs.Tree.{Tree};
ghost use Rattle.term_words.specs.Role.{roles_of, IsSingle, OfObject, OfRecord};
ghost use Rattle.term_words.specs.Object.{IsPointer, IsRecord, object_words};
ghost use Rattle.term_words.specs.Stands.{Stands};

/// A test by a map of roles allows the one role of a place, and no other.
pub fn maps_of_roles_are_single()
    ensures allows { (r : ℕ → ℕ) (a k : ℕ) → 0 < k → r a ≡ k → roles_of r a k ≡ true }
    ensures tells { (r : ℕ → ℕ) (a k : ℕ) → roles_of r a k ≡ true → r a ≡ k }
    ensures single { (r : ℕ → ℕ) → IsSingle (roles_of r) }
{}

/// Each word of an object that stands has a role of an object's word, and each word of a record one of a record's.
pub fn words_of_objects_have_roles()
    ensures object { (c : ℕ → ℕ → Bool) (shared : List (List ℕ)) (mem : List ℕ) (w : ℕ) (t : Tree) (q : ℕ) → Stands c shared mem w t → IsPointer w → w / 4 ≤ q
        → q < w / 4 + object_words mem w
        → (k : ℕ) × (OfObject k × (c q k ≡ true)) }
    ensures of_record { (c : ℕ → ℕ → Bool) (mem : List ℕ) (v n q : ℕ) → IsRecord c mem v n → v ≤ q → q < v + n → (k : ℕ) × (OfRecord k × (c q k ≡ true)) }
{}

/// Two objects that stand, where each place has one role at most, are one or have no word in common.
pub fn objects_are_one_or_apart()
    ensures { (c : ℕ → ℕ → Bool) (shared : List (List ℕ)) (mem : List ℕ) (w v : ℕ) (t u : Tree) → IsSingle c → Stands c shared mem w t
        → Stands c shared mem v u → IsPointer w → IsPointer v
        → (w ≡ v) ⊎ ((w / 4 + object_words mem w ≤ v / 4) ⊎ (v / 4 + object_words mem v ≤ w / 4)) }
{}

/// Where each place has one role at most, two records are one or have no word in common, and an object and a record have none.
pub fn records_are_one_or_apart()
    ensures records { (c : ℕ → ℕ → Bool) (mem : List ℕ) (v n u m : ℕ) → IsSingle c → IsRecord c mem v n → IsRecord c mem u m
        → (v ≡ u) ⊎ ((v + n ≤ u) ⊎ (u + m ≤ v)) }
    ensures object { (c : ℕ → ℕ → Bool) (shared : List (List ℕ)) (mem : List ℕ) (w v n : ℕ) (t : Tree) → IsSingle c → Stands c shared mem w t → IsPointer w
        → IsRecord c mem v n
        → (w / 4 + object_words mem w ≤ v) ⊎ (v + n ≤ w / 4) }
{}
