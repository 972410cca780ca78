// What stands after both passes.
ghost use Rattle.std.specs.Prelude.{◌≡◌, ℕ, ◌<◌, ◌≤◌, Bool, List, map, slice_index};
ghost use Rattle.plain_term.specs.Tree.{Tree, Trees};
ghost use Rattle.term_words.specs.Role.{IsSingle};
ghost use Rattle.term_words.specs.Stands.{Stands, AllStand};
ghost use Rattle.term_words.specs.Reach.{Reach};
ghost use Rattle.term_words.specs.Relocated.{Relocated};
ghost use Rattle.term_words.specs.Counted.{In};
ghost use Rattle.object_rows.specs.Row.{AreObjects, links_in};
ghost use Rattle.word_shift.specs.Shifted.{word_image, ObjectShifted, RowShifted};
ghost use Rattle.word_shift.specs.Slides.{RolesMoved, Slides};

/// A row that was relocated stays so while other words are written, and one that is relocated after others was a row from the start:
/// so rows that have no word in common are relocated one by one, and each object is relocated over the first memory.
pub fn rows_are_relocated_one_by_one()
    ensures row { (old now : List ℕ) (from to : ℕ) (ws : List ℕ) → AreObjects old from ws to
        → ((q : ℕ) → from ≤ q → q < to → slice_index now q ≡ slice_index old q) → AreObjects now from ws to }
    ensures later { (g : ℕ → ℕ) (old now new : List ℕ) (from to : ℕ) (ws : List ℕ) → AreObjects old from ws to → RowShifted g now new from to ws
        → ((q : ℕ) → from ≤ q → q < to → slice_index now q ≡ slice_index old q) → (w : ℕ) → In w ws → ObjectShifted g old new w }
    ensures stays { (g : ℕ → ℕ) (old now new : List ℕ) (from to : ℕ) (ws : List ℕ) → AreObjects old from ws to → RowShifted g old now from to ws
        → ((q : ℕ) → from ≤ q → q < to → slice_index new q ≡ slice_index now q) → (w : ℕ) → In w ws → ObjectShifted g old new w }
{}

/// A row that was relocated is a row still, with the same objects, holders and funs.
pub fn relocated_rows_are_rows()
    ensures { (g : ℕ → ℕ) (old new : List ℕ) (from to : ℕ) (ws : List ℕ) → AreObjects old from ws to → RowShifted g old new from to ws
        → AreObjects new from ws to × (links_in new ws ≡ links_in old ws) }
{}

/// Where words were relocated in place and then each used word moved, what the roots reached lies at the new places: each word's
/// image stands for the tree that the word stood for, and what the images of the roots reach are exactly the images.
pub fn slid_words_stand()
    ensures lies { (g : ℕ → ℕ) (used : ℕ → Bool) (c d : ℕ → ℕ → Bool) (shared : List (List ℕ)) (old mid new roots : List ℕ) (ts : Trees)
        → IsSingle c → AllStand c shared old roots ts → Slides g used c d old mid new roots → Relocated c d old new roots (word_image g) g }
    ensures word { (g : ℕ → ℕ) (used : ℕ → Bool) (c d : ℕ → ℕ → Bool) (shared : List (List ℕ)) (old mid new roots : List ℕ) (ts : Trees)
        → IsSingle c → AllStand c shared old roots ts → Slides g used c d old mid new roots
        → (w : ℕ) (t : Tree) → Reach old roots w → Stands c shared old w t → Stands d shared new (word_image g w) t }
    ensures roots { (g : ℕ → ℕ) (used : ℕ → Bool) (c d : ℕ → ℕ → Bool) (shared : List (List ℕ)) (old mid new roots : List ℕ) (ts : Trees)
        → IsSingle c → AllStand c shared old roots ts → Slides g used c d old mid new roots → AllStand d shared new (map (word_image g) roots) ts }
    ensures reached { (g : ℕ → ℕ) (used : ℕ → Bool) (c d : ℕ → ℕ → Bool) (shared : List (List ℕ)) (old mid new roots : List ℕ) (ts : Trees)
        → IsSingle c → AllStand c shared old roots ts → Slides g used c d old mid new roots
        → (w : ℕ) → Reach old roots w → Reach new (map (word_image g) roots) (word_image g w) }
    ensures no_more { (g : ℕ → ℕ) (used : ℕ → Bool) (c d : ℕ → ℕ → Bool) (shared : List (List ℕ)) (old mid new roots : List ℕ) (ts : Trees)
        → IsSingle c → AllStand c shared old roots ts → Slides g used c d old mid new roots
        → (x : ℕ) → Reach new (map (word_image g) roots) x → (w : ℕ) × (Reach old roots w × (x ≡ word_image g w)) }
{}

/// Where no two used places come to one, roles that moved with their words are one a place still.
pub fn moved_roles_are_single()
    ensures { (g : ℕ → ℕ) (used : ℕ → Bool) (c d : ℕ → ℕ → Bool) → IsSingle c → RolesMoved g used c d → IsSingle d }
{}
