// What stands after a slide: each law is the contract of a function that does nothing.
ghost use Rattle.std.specs.Prelude.{◌≡◌, ℕ, ◌+◌, ◌-◌, ◌<◌, ◌≤◌, ◌⊎◌, Bool, true, List, ◌++◌, map, length, slice_index};
ghost use Rattle.plain_term.specs.Tree.{Trees};
ghost use Rattle.term_words.specs.Role.{IsSingle};
ghost use Rattle.term_words.specs.Stands.{AllStand};
ghost use Rattle.off_heap_list.specs.Elsewhere.{LinksMoved, AreChainsTo};
ghost use Rattle.off_heap_list.specs.Exact.{OwnChain, objects_of};
ghost use Rattle.off_heap_list.specs.Links.{Links};
ghost use Rattle.object_rows.specs.Row.{AreObjects, links_in};
ghost use Rattle.off_heap_list.specs.Several.{ManyLinks};
ghost use Rattle.term_words.specs.Relocated.{Relocated};
ghost use Rattle.word_arena.specs.Blocks.{size_at, Blocked, IsUsed};
ghost use Rattle.word_arena.specs.Shifts.{IsSummed};
ghost use Rattle.word_arena.specs.declared.shifts.Shifts.{Shifts};
ghost use Rattle.word_shift.specs.Shifted.{word_image, FitsBeside};
ghost use Rattle.word_shift.specs.Slides.{RolesMoved, Slides};
ghost use Rattle.block_slide.specs.Down.{packed_place, is_in_use, packed_test};
ghost use Rattle.block_slide.specs.Held.{BlocksSlid, LinksHeld, ReachHeld, RolesHeld};
ghost use Rattle.block_slide.specs.Parts.{nth_part, span_of, AreParts, SlidParts};
ghost use Rattle.block_slide.specs.declared.parts.Part.{Part};
ghost use Rattle.block_slide.specs.declared.parts.Part.TheVariants.{Objects, Words, Links as LinkWords};
ghost use Rattle.word_mem.specs.declared.ranges.Span.{Span};

/// The map of a slide can be asked whatever words stand in a block in use behind its two first words, and answers the same.
pub fn sums_fit_inside_blocks()
    ensures { (mem : List ℕ) (s : Shifts) (p from to : ℕ) → IsSummed mem s → IsUsed mem p → p + 2 ≤ from → to ≤ p + size_at mem p
        → FitsBeside (λ m. IsSummed m s) packed_place mem from to }
{}

/// No two places of blocks in use come to one, so a test of one role a place is one where the words have come to.
pub fn packed_places_differ()
    ensures places { (mem : List ℕ) (a b : ℕ) → Blocked mem → is_in_use mem a ≡ true → is_in_use mem b ≡ true → packed_place mem a ≡ packed_place mem b
        → a ≡ b }
    ensures roles { (c : ℕ → ℕ → Bool) (mem : List ℕ) → Blocked mem → RolesMoved (packed_place mem) (is_in_use mem) c (packed_test c mem) }
    ensures single { (c : ℕ → ℕ → Bool) (mem : List ℕ) → Blocked mem → IsSingle c → IsSingle (packed_test c mem) }
{}

/// After a slide the blocks in use stand at the new places in their order, and one free block or none behind them.
pub fn slid_blocks_stay()
    ensures { (old new : List ℕ) (xs : List Part) → Blocked old → AreParts old xs → SlidParts old new xs → BlocksSlid old new }
{}

/// After a slide a word of a stack stands at its new place as its image, a link as the new place of what it told, and each other word
/// of a block in use as it was. The words of a part move by one shift. Rows of whole objects are rows still, whose holders and funs are
/// those at the new places.
pub fn slid_words_lie()
    ensures words { (old new : List ℕ) (xs : List Part) (i : ℕ) (span : Span) → SlidParts old new xs → Blocked old → AreParts old xs → i < length xs
        → nth_part xs i ≡ Words span → (q : ℕ) → span.start ≤ q → q < span.end
        → slice_index new (packed_place old q) ≡ word_image (packed_place old) (slice_index old q) }
    ensures links { (old new : List ℕ) (xs : List Part) (i : ℕ) (span : Span) → SlidParts old new xs → Blocked old → AreParts old xs → i < length xs
        → nth_part xs i ≡ LinkWords span → (q : ℕ) → span.start ≤ q → q < span.end
        → slice_index new (packed_place old q) ≡ packed_place old (slice_index old q) }
    ensures rows { (old new : List ℕ) (xs : List Part) (i : ℕ) (span : Span) (ws : List ℕ) → SlidParts old new xs → Blocked old → AreParts old xs
        → i < length xs → nth_part xs i ≡ Objects span → AreObjects old span.start ws span.end
        → AreObjects new (packed_place old span.start) (map (word_image (packed_place old)) ws) (packed_place old span.end) }
    ensures held { (old new : List ℕ) (xs : List Part) (i : ℕ) (span : Span) (ws : List ℕ) → SlidParts old new xs → Blocked old → AreParts old xs
        → i < length xs → nth_part xs i ≡ Objects span → AreObjects old span.start ws span.end
        → links_in new (map (word_image (packed_place old)) ws) ≡ map (packed_place old) (links_in old ws) }
    ensures others { (old new : List ℕ) (xs : List Part) (q : ℕ) → SlidParts old new xs → Blocked old → AreParts old xs → is_in_use old q ≡ true
        → ((i : ℕ) → i < length xs → (q < (span_of (nth_part xs i)).start) ⊎ ((span_of (nth_part xs i)).end ≤ q))
        → slice_index new (packed_place old q) ≡ slice_index old q }
    ensures shift { (old : List ℕ) (xs : List Part) (i q : ℕ) → Blocked old → AreParts old xs → i < length xs → (span_of (nth_part xs i)).start ≤ q
        → q ≤ (span_of (nth_part xs i)).end
        → packed_place old q ≡ packed_place old (span_of (nth_part xs i)).start + (q - (span_of (nth_part xs i)).start) }
{}

/// After a slide everything that stood stands at the new places, where the rows that were relocated hold what the roots reach.
pub fn slid_parts_stand()
    ensures slides { (c : ℕ → ℕ → Bool) (old new roots : List ℕ) (xs : List Part) (s : SlidParts old new xs) → Blocked old → AreParts old xs
        → RolesHeld c old xs → ReachHeld old roots xs → Slides (packed_place old) (is_in_use old) c (packed_test c old) old s.mid new roots }
    ensures lies { (c : ℕ → ℕ → Bool) (shared : List (List ℕ)) (old new roots : List ℕ) (ts : Trees) (xs : List Part) → SlidParts old new xs → Blocked old
        → AreParts old xs → RolesHeld c old xs → ReachHeld old roots xs → IsSingle c → AllStand c shared old roots ts
        → Relocated c (packed_test c old) old new roots (word_image (packed_place old)) (packed_place old) }
    ensures roots { (c : ℕ → ℕ → Bool) (shared : List (List ℕ)) (old new roots : List ℕ) (ts : Trees) (xs : List Part) → SlidParts old new xs → Blocked old
        → AreParts old xs → RolesHeld c old xs → ReachHeld old roots xs → IsSingle c → AllStand c shared old roots ts
        → AllStand (packed_test c old) shared new (map (word_image (packed_place old)) roots) ts }
{}

/// After a slide each chain is a chain at the new places, and each record's count is the number of objects that name it.
pub fn slid_chains_stand()
    ensures moved { (c : ℕ → ℕ → Bool) (old new ps : List ℕ) (xs : List Part) → SlidParts old new xs → Blocked old → AreParts old xs → IsSingle c
        → RolesHeld c old xs → LinksHeld c old xs ps → LinksMoved (packed_place old) c (packed_test c old) old new ps }
    ensures one { (c : ℕ → ℕ → Bool) (old new : List ℕ) (head : ℕ) (os further : List ℕ) (xs : List Part) → SlidParts old new xs → Blocked old → AreParts old xs
        → IsSingle c → RolesHeld c old xs → LinksHeld c old xs (os ++ further) → Links c old head os further
        → Links (packed_test c old) new (packed_place old head) (map (packed_place old) os) (map (packed_place old) further) }
    ensures several { (c : ℕ → ℕ → Bool) (old new : List ℕ) (chains slid : List OwnChain) (further : List ℕ) (xs : List Part) → SlidParts old new xs
        → Blocked old → AreParts old xs → IsSingle c → RolesHeld c old xs → LinksHeld c old xs (objects_of chains ++ further)
        → ManyLinks c old chains further → AreChainsTo (packed_place old) chains slid
        → ManyLinks (packed_test c old) new slid (map (packed_place old) further) }
{}
