// How many words lists of objects take, and how many places pass a test.
ghost use Rattle.std.specs.Prelude.{◌≡◌, ℕ, Bool, true, false, List, filter, ◌||◌, ◌+◌, ◌/◌, ◌<◌, ◌≤◌, ◌⊎◌, ◌↔◌, ◌++◌};
ghost use Rattle.plain_term.specs.Tree.{Trees};
ghost use Rattle.plain_term.specs.Measures.{flat_of_all};
ghost use Rattle.term_words.specs.Role.{IsSingle};
ghost use Rattle.term_words.specs.Object.{IsPointer, object_words};
ghost use Rattle.term_words.specs.Stands.{AllStand};
ghost use Rattle.term_words.specs.Reach.{Reach};
ghost use Rattle.term_words.specs.Tiled.{tile_words};
ghost use Rattle.term_words.specs.Counted.{In, Distinct, total, words_and_owed, OwesReferences, count, Listed, ArePacked, TileStands};

/// Each object that standing roots reach has at most the flat words of their trees.
pub fn flat_size_covers_objects()
    ensures { (c : ℕ → ℕ → Bool) (shared : List (List ℕ)) (mem roots : List ℕ) (ts : Trees) (w : ℕ) → AllStand c shared mem roots ts → Reach mem roots w
        → IsPointer w → object_words mem w ≤ flat_of_all ts }
{}

/// The objects that standing roots reach can be listed, each once, and a list of such objects without repetition takes at
/// most the flat words of the roots' trees together.
pub fn flat_size_covers_lists_of_objects()
    ensures words { (c : ℕ → ℕ → Bool) (shared : List (List ℕ)) (mem roots : List ℕ) (ts : Trees) (vs : List ℕ) → AllStand c shared mem roots ts → Distinct vs
        → ((v : ℕ) → In v vs → IsPointer v × Reach mem roots v) → total (object_words mem) vs ≤ flat_of_all ts }
    ensures listed { (c : ℕ → ℕ → Bool) (shared : List (List ℕ)) (mem roots : List ℕ) (ts : Trees) → AllStand c shared mem roots ts → Listed mem roots }
{}

/// Where words that refer to a set of places owe the flat words of their trees, and what stands there refers to that set alone:
/// a list without repetition of reached objects outside it takes, with what their traced words and the roots owe, at most the
/// flat words of the roots' trees together. What would be copied to each place that refers to the set is within these.
pub fn flat_size_covers_references()
    ensures { (c : ℕ → ℕ → Bool) (shared : List (List ℕ)) (mem roots : List ℕ) (ts : Trees) (vs : List ℕ) (s : ℕ → Bool) (owed : ℕ → ℕ)
        → AllStand c shared mem roots ts → OwesReferences c shared mem s owed → Distinct vs
        → ((v : ℕ) → In v vs → IsPointer v × (Reach mem roots v × (s (v / 4) ≡ false)))
        → total (words_and_owed owed mem) vs + total owed roots ≤ flat_of_all ts }
{}

/// What is one or apart and lies at places that pass a test takes at most as many words as places pass; and where each
/// place has one role at most, tiles that stand, objects and records alike, are one or apart.
pub fn packed_words_are_counted()
    ensures words { (at size : ℕ → ℕ) (s : ℕ → Bool) (from n : ℕ) (vs : List ℕ) → ArePacked at size s from n vs → total size vs ≤ count s from n }
    ensures tiles { (c : ℕ → ℕ → Bool) (shared : List (List ℕ)) (mem : List ℕ) (s : ℕ → Bool) (from n : ℕ) (ws : List ℕ) → IsSingle c → Distinct ws
        → ((w : ℕ) → In w ws → TileStands c shared mem w) → ((w : ℕ) → In w ws → (from ≤ w / 4) × (w / 4 + tile_words mem w ≤ from + n))
        → ((w q : ℕ) → In w ws → w / 4 ≤ q → q < w / 4 + tile_words mem w → s q ≡ true) → ArePacked (λ w. w / 4) (tile_words mem) s from n ws }
{}

/// Places are counted part by part; no more pass than there are, all of them where each passes and none where none does,
/// no fewer pass a test that allows more, and those that pass one of two tests are at most the sum, and are the sum where
/// none passes both.
pub fn places_are_counted()
    ensures empty { (s : ℕ → Bool) (from : ℕ) → count s from 0 ≡ 0 }
    ensures join { (s : ℕ → Bool) (from m n : ℕ) → count s from (m + n) ≡ count s from m + count s (from + m) n }
    ensures most { (s : ℕ → Bool) (from n : ℕ) → count s from n ≤ n }
    ensures all { (s : ℕ → Bool) (from n : ℕ) → ((q : ℕ) → from ≤ q → q < from + n → s q ≡ true) → count s from n ≡ n }
    ensures none { (s : ℕ → Bool) (from n : ℕ) → ((q : ℕ) → from ≤ q → q < from + n → s q ≡ false) → count s from n ≡ 0 }
    ensures wider { (s t : ℕ → Bool) (from n : ℕ) → ((q : ℕ) → from ≤ q → q < from + n → s q ≡ true → t q ≡ true) → count s from n ≤ count t from n }
    ensures either { (s t : ℕ → Bool) (from n : ℕ) → count (λ q. s q || t q) from n ≤ count s from n + count t from n }
    ensures apart { (s t : ℕ → Bool) (from n : ℕ) → ((q : ℕ) → s q ≡ true → t q ≡ true → ⊥) → count (λ q. s q || t q) from n ≡ count s from n + count t from n }
{}

/// Words of two lists are those of both together, none stands twice where none stands in both, and those that pass a test
/// are no more than were there.
pub fn lists_without_repetition()
    ensures joined { (v : ℕ) (xs ys : List ℕ) → In v (xs ++ ys) ↔ (In v xs ⊎ In v ys) }
    ensures once { (xs ys : List ℕ) → Distinct xs → Distinct ys → ((v : ℕ) → In v xs → In v ys → ⊥) → Distinct (xs ++ ys) }
    ensures words { (size : ℕ → ℕ) (xs ys : List ℕ) → total size (xs ++ ys) ≡ total size xs + total size ys }
    ensures chosen { (f : ℕ → Bool) (v : ℕ) (vs : List ℕ) → In v (filter f vs) ↔ (In v vs × (f v ≡ true)) }
    ensures left { (f : ℕ → Bool) (vs : List ℕ) → Distinct vs → Distinct (filter f vs) }
{}
