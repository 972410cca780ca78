// What holds of each collection: each law is the contract of a function that does nothing.
ghost use Rattle.std.specs.Prelude.{◌≡◌, ℕ, ◌+◌, ◌-◌, ◌*◌, ◌/◌, ◌<◌, ◌≤◌, ◌⊎◌, ◌++◌, Bool, true, false, List, length, slice_index, slice_set};
ghost use Rattle.term_words.specs.Role.{FIRST, FURTHER, IsSingle};
ghost use Rattle.term_words.specs.Stands.{AllStand};
ghost use Rattle.cheney.specs.declared.moving.Moving.{Moving};
ghost use Rattle.term_words.specs.Object.{IsPointer, object_words};
ghost use Rattle.term_words.specs.Reach.{first_traced};
ghost use Rattle.term_words.specs.Counted.{In, count, total};
ghost use Rattle.cheney.specs.Plan.{RoomFits, IsIn, IsNoTail, IsOutside, Leaves, LiesBetween, Plan, Ready, Reached, first, size};
ghost use Rattle.cheney.specs.Moved.{IsImage, moved};
ghost use Rattle.cheney.specs.Spans.{AreDisjoint, in_spans, span_places};
ghost use Rattle.word_mem.specs.declared.ranges.Span.{Span};
ghost use Rattle.cheney.specs.Zones.{Marks, at_objects};
ghost use Rattle.cheney.specs.Rooms.{RoomsAgree, Runs, top_of};
ghost use Rattle.cheney.specs.Calls.{Later, either, nowhere};
ghost use Rattle.cheney.specs.Collected.{AllImages, AreImages, Collected, Composes, IsBeside, RootsMoved, used};
ghost use Rattle.cheney.specs.Roots.{in_places, words_at};
ghost use Rattle.cheney.specs.Next.{CollectionGoesOn, HasRoles, IsTiled, Remains, Succeeds};

/// A room holds the objects that go there where it has as many free words as the range that they lie in, whatever they
/// share, or as the places of that range that pass a test which all words of these objects pass; or as such places and the
/// objects of a list together, where those that do not lie so are in the list.
pub fn counted_places_bound_rooms()
    ensures range { (p : Plan) (b : Bool) (from to : ℕ) → AllStand p.test p.shared p.start p.roots p.trees → IsSingle p.test → from ≤ to
        → ((v : ℕ) → Reached p v → Leaves p v → p.mature (v / 4) ≡ b → (from ≤ v / 4) × (v / 4 + size p v ≤ to)) → p.low b + (to - from) ≤ p.high b
        → RoomFits p b }
    ensures places { (p : Plan) (b : Bool) (from to : ℕ) (s : ℕ → Bool) → AllStand p.test p.shared p.start p.roots p.trees → IsSingle p.test → from ≤ to
        → ((v : ℕ) → Reached p v → Leaves p v → p.mature (v / 4) ≡ b → (from ≤ v / 4) × (v / 4 + size p v ≤ to))
        → ((v q : ℕ) → Reached p v → Leaves p v → p.mature (v / 4) ≡ b → IsIn p v q → s q ≡ true) → p.low b + count s from (to - from) ≤ p.high b
        → RoomFits p b }
    ensures further { (p : Plan) (b : Bool) (from to : ℕ) (s : ℕ → Bool) (others : List ℕ) → AllStand p.test p.shared p.start p.roots p.trees
        → IsSingle p.test → from ≤ to
        → ((v : ℕ) → Reached p v → Leaves p v → p.mature (v / 4) ≡ b → In v others ⊎ LiesBetween p s from to v)
        → p.low b + (count s from (to - from) + total (size p) others) ≤ p.high b → RoomFits p b }
{}

/// The places of spans are no more than the lengths of the spans together; and they are as many where no two have a place in
/// common, counted among places that have all of these: with `counted_places_bound_rooms`, a room that has as many free words as
/// the spans have places holds what lies in them.
pub fn spans_are_counted()
    ensures most { (ss : List Span) (from n : ℕ) → count (in_spans ss) from n ≤ span_places ss }
    ensures whole { (ss : List Span) (from n : ℕ) → AreDisjoint ss → ((q : ℕ) → in_spans ss q ≡ true → (from ≤ q) × (q < from + n))
        → count (in_spans ss) from n ≡ span_places ss }
{}

/// A collection that is ready, with two empty rooms, runs.
pub fn ready_collections_run()
    ensures { (p : Plan) (mv : Moving) → Ready p → RoomsAgree p mv → mv.aged.top ≡ mv.aged.start → mv.young.top ≡ mv.young.start
        → Runs p p.start mv (at_objects mv.aged.start mv.young.start) }
{}

/// What a word has become stays that, whatever is moved later; and what two calls do, one after the other, is again what
/// calls do.
pub fn images_last()
    ensures images { (p : Plan) (s : ℕ → Bool) (mem mem2 : List ℕ) (w x : ℕ) → Later p s mem mem2 → Reached p w → IsImage p mem w x → IsImage p mem2 w x }
    ensures same { (p : Plan) (mem : List ℕ) → Later p nowhere mem mem }
    ensures further { (p : Plan) (s t : ℕ → Bool) (a b c : List ℕ) → Later p s a b → Later p t b c → Later p (either s t) a c }
    ensures wider { (p : Plan) (s t : ℕ → Bool) (a b : List ℕ) → ((q : ℕ) → s q ≡ true → t q ≡ true) → Later p s a b → Later p t a b }
{}

/// What no call changes but at places that it writes as roots: a word in no room that has no role, such as a stack place; a
/// word whose role is neither FIRST nor FURTHER, such as a record's or a `next`; and each word in no room that stays,
/// reached or not, where no cons that moves reaches into it.
pub fn calls_change_no_other_words()
    ensures free { (p : Plan) (s : ℕ → Bool) (a b : List ℕ) (q : ℕ) → Ready p → Later p s a b → s q ≡ false → IsOutside p q → ((k : ℕ)
        → p.test q k ≡ true → ⊥) → slice_index b q ≡ slice_index a q }
    ensures other { (p : Plan) (s : ℕ → Bool) (a b : List ℕ) (q k : ℕ) → Ready p → Later p s a b → s q ≡ false → p.test q k ≡ true → (k ≡ FIRST → ⊥)
        → (k ≡ FURTHER → ⊥) → slice_index b q ≡ slice_index a q }
    ensures stays { (p : Plan) (s : ℕ → Bool) (a b : List ℕ) (q : ℕ) → Later p s a b → s q ≡ false → IsOutside p q → p.stay q ≡ true → IsNoTail p q
        → slice_index b q ≡ slice_index a q }
{}

/// A caller may write between two calls, away from the rooms and from all words with a role: roots that stand in the memory.
pub fn writes_beside_keep_collections()
    ensures runs { (p : Plan) (mem mem2 : List ℕ) (mv : Moving) (k : Marks) → Runs p mem mv k → IsBeside p mem mem2 (top_of mv) → Runs p mem2 mv k }
    ensures images { (p : Plan) (mem mem2 : List ℕ) (top : Bool → ℕ) (w x : ℕ) → Ready p → IsBeside p mem mem2 top → Reached p w → IsImage p mem w x
        → IsImage p mem2 w x }
{}

/// A word outside the used places of the rooms that has no role may be written: a stack place, a register in the memory.
pub fn places_without_roles_lie_beside()
    ensures { (p : Plan) (mem : List ℕ) (top : Bool → ℕ) (a w : ℕ) → ((b : Bool) → (a < p.low b) ⊎ (top b ≤ a)) → ((k : ℕ) → p.test a k ≡ true → ⊥)
        → IsBeside p mem (slice_set mem a w) top }
{}

/// Roots by membership, and what they have become list by list: registers and stacks of one process after another. Words at
/// places with a step between are told one by one.
pub fn roots_become_images()
    ensures at { (ws : List ℕ) (j : ℕ) → j < length ws → In (slice_index ws j) ws }
    ensures within { (w : ℕ) (vs ws : List ℕ) → In w vs ⊎ In w ws → In w (vs ++ ws) }
    ensures reached { (p : Plan) (w : ℕ) → In w p.roots → Reached p w }
    ensures moved { (p : Plan) (m : List ℕ) → ((w : ℕ) → In w p.roots → Leaves p w → moved m w ≡ true) → RootsMoved p m }
    ensures join { (p : Plan) (m vs xs ws ys : List ℕ) → AllImages p m vs xs → AllImages p m ws ys → AllImages p m (vs ++ ws) (xs ++ ys) }
    ensures later { (p : Plan) (s : ℕ → Bool) (m n vs xs : List ℕ) → Later p s m n → ((w : ℕ) → In w vs → Reached p w) → AllImages p m vs xs
        → AllImages p n vs xs }
    ensures beside { (p : Plan) (m n vs xs : List ℕ) (top : Bool → ℕ) → Ready p → IsBeside p m n top → ((w : ℕ) → In w vs → Reached p w)
        → AllImages p m vs xs → AllImages p n vs xs }
    ensures all { (p : Plan) (m ws : List ℕ) → AllImages p m p.roots ws → RootsMoved p m × AreImages p m ws }
    ensures back { (p : Plan) (m ws : List ℕ) → AreImages p m ws → AllImages p m p.roots ws }
    ensures elsewhere { (from step n q : ℕ) → ((j : ℕ) → j < n → (q ≡ from + j * step) → ⊥) → in_places from step n q ≡ false }
    ensures places { (m : List ℕ) (from step n j : ℕ) → j < n → slice_index (words_at m from step n) j ≡ slice_index m (from + j * step) }
{}

/// The whole collection, where each root was moved and then all was scanned.
pub fn scanned_collections_are_whole()
    ensures { (p : Plan) (mem : List ℕ) (mv : Moving) → Runs p mem mv (at_objects mv.aged.top mv.young.top) → RootsMoved p mem → Collected p mem (top_of mv) }
{}

/// What an object has become has its size and its first traced word.
pub fn images_keep_their_shape()
    ensures { (p : Plan) (m : List ℕ) (mv : Moving) (v x : ℕ) → Runs p m mv (at_objects mv.aged.top mv.young.top) → RootsMoved p m → Reached p v
        → IsPointer v → IsImage p m v x
        → (object_words m x ≡ size p v) × (first_traced m x ≡ first p v) }
{}

/// Collections compose: what the new roots reach are exactly the copies, and what stays.
pub fn new_roots_reach_the_copies()
    ensures { (p : Plan) (mem : List ℕ) (mv : Moving) → Runs p mem mv (at_objects mv.aged.top mv.young.top) → RootsMoved p mem → Composes p mem }
{}

/// The new memory has one role a place, so that a later collection can say where its objects lie.
pub fn memories_get_single_roles()
    ensures { (p : Plan) (m : List ℕ) (top : Bool → ℕ) (s : ℕ → ℕ → Bool) → Ready p → Collected p m top → Remains p s → HasRoles p m s }
{}

/// Each room is filled with whole objects, side by side.
pub fn rooms_are_tiled()
    ensures { (p : Plan) (m : List ℕ) (mv : Moving) (b : Bool) → Runs p m mv (at_objects mv.aged.top mv.young.top) → RootsMoved p m
        → IsTiled p m b (top_of mv b) }
{}

/// A collection can follow another whose rooms hold no record and nothing else that keeps a role, as between two halves of
/// objects alone: what it moves lies in the rooms that the first one filled, so a room holds all of it where it has as many
/// words as these have in use.
pub fn collections_can_follow()
    ensures lies { (p q : Plan) (m : List ℕ) (mv : Moving) → Runs p m mv (at_objects mv.aged.top mv.young.top) → RootsMoved p m → Succeeds p q m
        → (v : ℕ) → Reached q v → Leaves q v → (b : Bool) × ((p.low b ≤ v / 4) × (v / 4 + size q v ≤ top_of mv b)) }
    ensures fits { (p q : Plan) (m : List ℕ) (mv : Moving) → Runs p m mv (at_objects mv.aged.top mv.young.top) → RootsMoved p m → Succeeds p q m
        → (b : Bool) → q.low b ≤ q.high b → (q.low b + used p (top_of mv) ≤ q.high b) ⊎ ((a : ℕ) → q.mature a ≡ b → ⊥) → RoomFits q b }
    ensures ready { (p q : Plan) (m : List ℕ) (mv : Moving) (s : ℕ → ℕ → Bool) → Runs p m mv (at_objects mv.aged.top mv.young.top) → RootsMoved p m
        → (r : HasRoles p m s) → CollectionGoesOn p q m (top_of mv) s r → Ready q }
{}
