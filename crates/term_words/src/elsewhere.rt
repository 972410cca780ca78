// What roots reach at new places, and by a further test.
ghost use Rattle.std.specs.Prelude.{◌≡◌, ℕ, Bool, List, map};
ghost use Rattle.plain_term.specs.Tree.{Tree, Trees};
ghost use Rattle.term_words.specs.Role.{both};
ghost use Rattle.term_words.specs.Stands.{Stands, AllStand};
ghost use Rattle.term_words.specs.Reach.{Reach, PassTest};
ghost use Rattle.term_words.specs.Relocated.{Relocated};

/// Where what the roots reach lies at new places, each word's image stands for the tree that the word stood for, and what
/// the images of the roots reach are exactly the images of what the roots reached: a slide of the memory, a purge by
/// copying, a sweep in slices. Only what the roots reach is asked for: objects that stand by the same test and are not
/// reached may be left behind.
pub fn relocated_words_stand()
    ensures word { (c d : ℕ → ℕ → Bool) (shared : List (List ℕ)) (old new roots : List ℕ) (f g : ℕ → ℕ) → Relocated c d old new roots f g
        → (w : ℕ) (t : Tree) → Reach old roots w → Stands c shared old w t → Stands d shared new (f w) t }
    ensures roots { (c d : ℕ → ℕ → Bool) (shared : List (List ℕ)) (old new roots : List ℕ) (f g : ℕ → ℕ) → Relocated c d old new roots f g
        → (ts : Trees) → AllStand c shared old roots ts → AllStand d shared new (map f roots) ts }
    ensures reached { (c d : ℕ → ℕ → Bool) (shared : List (List ℕ)) (old new roots : List ℕ) (f g : ℕ → ℕ) → Relocated c d old new roots f g
        → (ts : Trees) → AllStand c shared old roots ts → (w : ℕ) → Reach old roots w → Reach new (map f roots) (f w) }
    ensures no_more { (c d : ℕ → ℕ → Bool) (shared : List (List ℕ)) (old new roots : List ℕ) (f g : ℕ → ℕ) → Relocated c d old new roots f g
        → (ts : Trees) → AllStand c shared old roots ts → (x : ℕ) → Reach new (map f roots) x → (w : ℕ) × (Reach old roots w × (x ≡ f w)) }
{}

/// Where all words of the objects that standing roots reach, and of the records that these name, pass a further test, what
/// the roots reach stands by both tests: it lies in one half, or in some process's blocks.
pub fn roots_stand_by_narrower_tests()
    ensures roots { (c d : ℕ → ℕ → Bool) (shared : List (List ℕ)) (mem roots : List ℕ) (ts : Trees) → AllStand c shared mem roots ts → PassTest c d mem roots
        → AllStand (both c d) shared mem roots ts }
    ensures word { (c d : ℕ → ℕ → Bool) (shared : List (List ℕ)) (mem roots : List ℕ) (ts : Trees) → AllStand c shared mem roots ts → PassTest c d mem roots
        → (w : ℕ) (t : Tree) → Reach mem roots w → Stands c shared mem w t → Stands (both c d) shared mem w t }
{}
