// Words and objects in a row.
ghost use Rattle.std.specs.Prelude.{◌≡◌, ℕ, Bool, List, [], ◌∷◌, ◌+◌, ◌*◌, ◌/◌, ◌<◌, ◌≤◌, ◌++◌, length, map, slice_index};
ghost use Rattle.plain_term.specs.Tree.{Tree, Trees, trees_append, trees_len};
ghost use Rattle.term_words.specs.Object.{IsPointer, IsRecord, object_words};
ghost use Rattle.term_words.specs.Stands.{tree_at, Stands, RowStands, AllStand};
ghost use Rattle.term_words.specs.Tiled.{MoveAsOne, Tiled};
ghost use Rattle.term_words.specs.Counted.{In};

/// Two lists of words stand for two lists of trees exactly where they stand for both side by side.
pub fn lists_stand_side_by_side()
    ensures joined { (c : ℕ → ℕ → Bool) (shared : List (List ℕ)) (mem xs ys : List ℕ) (ts us : Trees) → AllStand c shared mem xs ts
        → AllStand c shared mem ys us → AllStand c shared mem (xs ++ ys) (trees_append ts us) }
    ensures split { (c : ℕ → ℕ → Bool) (shared : List (List ℕ)) (mem xs ys : List ℕ) (vs : Trees) → AllStand c shared mem (xs ++ ys) vs
        → (ts us : Trees) × ((vs ≡ trees_append ts us) × (AllStand c shared mem xs ts × AllStand c shared mem ys us)) }
{}

/// A list of words stands for a list of trees exactly where each word stands for the tree at its place; some trees will do
/// where each word stands for some tree; and the list stands exactly where its words lie in the memory as a row that does.
pub fn lists_stand_word_by_word()
    ensures each { (c : ℕ → ℕ → Bool) (shared : List (List ℕ)) (mem ws : List ℕ) (ts : Trees) → AllStand c shared mem ws ts
        → (length ws ≡ trees_len ts) × ((i : ℕ) → i < length ws → Stands c shared mem (slice_index ws i) (tree_at ts i)) }
    ensures all { (c : ℕ → ℕ → Bool) (shared : List (List ℕ)) (mem ws : List ℕ) (ts : Trees) → length ws ≡ trees_len ts
        → ((i : ℕ) → i < length ws → Stands c shared mem (slice_index ws i) (tree_at ts i)) → AllStand c shared mem ws ts }
    ensures some { (c : ℕ → ℕ → Bool) (shared : List (List ℕ)) (mem ws : List ℕ) → ((w : ℕ) → In w ws → (t : Tree) × Stands c shared mem w t)
        → (ts : Trees) × AllStand c shared mem ws ts }
    ensures member { (c : ℕ → ℕ → Bool) (shared : List (List ℕ)) (mem ws : List ℕ) (ts : Trees) → AllStand c shared mem ws ts → (w : ℕ) → In w ws
        → (t : Tree) × Stands c shared mem w t }
    ensures row { (c : ℕ → ℕ → Bool) (shared : List (List ℕ)) (mem : List ℕ) (p : ℕ) (ws : List ℕ) (ts : Trees) → AllStand c shared mem ws ts
        → ((j : ℕ) → j < length ws → slice_index mem (p + j) ≡ slice_index ws j) → RowStands c shared mem p ts }
    ensures list { (c : ℕ → ℕ → Bool) (shared : List (List ℕ)) (mem : List ℕ) (p : ℕ) (ws : List ℕ) (ts : Trees) → length ws ≡ trees_len ts
        → ((j : ℕ) → j < length ws → slice_index mem (p + j) ≡ slice_index ws j) → RowStands c shared mem p ts → AllStand c shared mem ws ts }
{}

/// An object that stands, and a record, is a row of one tile; rows join; and a row is one still where its words are the same.
pub fn tiles_lie_side_by_side()
    ensures object { (c : ℕ → ℕ → Bool) (shared : List (List ℕ)) (mem : List ℕ) (w : ℕ) (t : Tree) → Stands c shared mem w t → IsPointer w
        → Tiled mem (w / 4) (w ∷ []) (w / 4 + object_words mem w) }
    ensures of_record { (c : ℕ → ℕ → Bool) (mem : List ℕ) (v n : ℕ) → IsRecord c mem v n → Tiled mem v (v * 4 ∷ []) (v + n) }
    ensures joined { (mem : List ℕ) (a b e : ℕ) (xs ys : List ℕ) → Tiled mem a xs b → Tiled mem b ys e → Tiled mem a (xs ++ ys) e }
    ensures same { (old new : List ℕ) (a b : ℕ) (ws : List ℕ) → ((q : ℕ) → a ≤ q → q < b → slice_index new q ≡ slice_index old q) → Tiled old a ws b
        → Tiled new a ws b }
{}

/// A row of whole objects and records that moves as a block is a row at its new places: a heap that slides, a block that is
/// copied elsewhere. Only what tiles are read by has to stand there, so traced words may be images by then.
pub fn moved_tiles_lie_side_by_side()
    ensures { (old new : List ℕ) (f g : ℕ → ℕ) (from to : ℕ) (ws : List ℕ) → MoveAsOne old new f g from to ws → Tiled old from ws to
        → Tiled new (g from) (map f ws) (g to) }
{}
