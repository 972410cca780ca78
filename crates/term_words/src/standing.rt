// What keeps trees standing, and what standing words have in common.
ghost use Rattle.std.specs.Prelude.{◌≡◌, ℕ, Bool, true, List, ◌+◌, ◌<◌, ◌≤◌, ◌⊎◌, ◌↔◌, ◌++◌, length, slice_index, slice_set};
ghost use Rattle.plain_term.specs.Tree.{Tree, Trees};
ghost use Rattle.term_words.specs.Role.{outside, Idle};
ghost use Rattle.term_words.specs.Stands.{Stands, AllStand};
ghost use Rattle.term_words.specs.Reach.{Reach};
ghost use Rattle.term_words.specs.Kept.{Kept, Carried, Keeps};

/// What keeps the content of a memory, allows no less and makes it no shorter keeps every tree.
pub fn kept_content_keeps_trees()
    ensures { (c d : ℕ → ℕ → Bool) (old new : List ℕ) → Kept c d old new → Keeps c d old new }
{}

/// What carries the words of objects keeps every tree, and kept content is carried.
pub fn carried_objects_keep_trees()
    ensures trees { (c d : ℕ → ℕ → Bool) (old new : List ℕ) → Carried c d old new → Keeps c d old new }
    ensures kept { (c d : ℕ → ℕ → Bool) (old new : List ℕ) → Kept c d old new → Carried c d old new }
{}

/// What carries the words of objects keeps what standing roots reach: no less, and no more.
pub fn carried_objects_keep_reach()
    ensures { (c d : ℕ → ℕ → Bool) (shared : List (List ℕ)) (old new roots : List ℕ) (ts : Trees) (w : ℕ) → Carried c d old new → AllStand c shared old roots ts
        → (Reach old roots w ↔ Reach new roots w) }
{}

/// A test that allows more keeps every tree.
pub fn weaker_tests_keep_trees()
    ensures { (c d : ℕ → ℕ → Bool) (mem : List ℕ) → ((a k : ℕ) → c a k ≡ true → d a k ≡ true) → Keeps c d mem mem }
{}

/// A write at a place without content keeps every tree.
pub fn idle_writes_keep_trees()
    ensures { (c : ℕ → ℕ → Bool) (mem : List ℕ) (a v : ℕ) → Idle c a → Keeps c c mem (slice_set mem a v) }
{}

/// Words written at the first free places of a room keep every tree that was clear of it, and these are clear of the places that are left.
pub fn rooms_keep_what_is_clear()
    ensures { (top more limit : ℕ) (old new : List ℕ) → length old ≤ length new → top ≤ more → more ≤ limit
        → ((q : ℕ) → (q < top) ⊎ (more ≤ q) → slice_index new q ≡ slice_index old q) → Keeps (outside top limit) (outside more limit) old new }
{}

/// A word stands for its tree still when shared lists are added.
pub fn more_lists_keep_trees()
    ensures { (c : ℕ → ℕ → Bool) (shared more : List (List ℕ)) (mem : List ℕ) (w : ℕ) (t : Tree) → Stands c shared mem w t → Stands c (shared ++ more) mem w t }
{}

/// What standing roots reach stands for trees.
pub fn reached_words_stand()
    ensures { (c : ℕ → ℕ → Bool) (shared : List (List ℕ)) (mem roots : List ℕ) (ts : Trees) → AllStand c shared mem roots ts → (w : ℕ) → Reach mem roots w
        → (t : Tree) × Stands c shared mem w t }
{}

/// A word stands for one tree at most, whatever the tests and the shared lists.
pub fn words_stand_for_one_tree()
    ensures { (c d : ℕ → ℕ → Bool) (shared other : List (List ℕ)) (mem : List ℕ) (w : ℕ) (t u : Tree) → Stands c shared mem w t → Stands d other mem w u
        → t ≡ u }
{}
