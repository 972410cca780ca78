// What objects have a word `next`, and what keeps chains.
ghost use Rattle.std.specs.Prelude.{◌≡◌, ℕ, ◌+◌, ◌/◌, ◌<◌, ◌≤◌, ◌⊎◌, Bool, true, false, List, [], ◌∷◌, ◌++◌, map, length};
ghost use Rattle.plain_term.specs.Tree.{Trees};
ghost use Rattle.plain_term.specs.Tree.Tree.{Shared, Fun};
ghost use Rattle.term_words.specs.Stands.{Stands};
ghost use Rattle.term_words.specs.Kept.{Kept};
ghost use Rattle.shared_rec.specs.Record.{count_in};
ghost use Rattle.off_heap_list.specs.Links.{named, Chain, IsLink, Links};
ghost use Rattle.off_heap_list.specs.Exact.{ListsHeld, AllCounted, Exact, OwnChain, AreOwn, objects_of, Chained};
ghost use Rattle.off_heap_list.specs.Several.{AreChains, ManyLinks, AreListed, LeadAlike};
ghost use Rattle.off_heap_list.specs.Elsewhere.{LinksMoved, AreChainsTo};
ghost use Rattle.off_heap_list.specs.Turned.{Turning};
ghost use Rattle.off_heap_list.specs.Swept.{is_moved, new_place, named_records, IsOld, Sweeping};
ghost use Rattle.off_heap_list.specs.Dealt.{FrontLinks};
ghost use Rattle.off_heap_list.specs.Whole.{SweptFront, SweptWhole};
ghost use Rattle.off_heap_list.specs.declared.whole.FrontLeft.{FrontLeft};
ghost use Rattle.off_heap_list.specs.declared.whole.Survivors.{Survivors};
ghost use Rattle.term_words.specs.Object.{IsRecord};
ghost use Rattle.term_words.specs.Counted.{In, Distinct};

/// A shared binary that stands, and a fun, can be chained, but for one at place 0.
pub fn holders_and_funs_are_links()
    ensures holder { (c : ℕ → ℕ → Bool) (shared : List (List ℕ)) (mem : List ℕ) (w id : ℕ) → Stands c shared mem w (Shared id) → 0 < w / 4
        → IsLink c mem (w / 4) }
    ensures fun { (c : ℕ → ℕ → Bool) (shared : List (List ℕ)) (mem : List ℕ) (w name arity creator : ℕ) (env : Trees)
        → Stands c shared mem w (Fun name arity creator env) → 0 < w / 4 → IsLink c mem (w / 4) }
{}

/// An object that can be chained can be still where content is kept.
pub fn chained_objects_stay()
    ensures { (c d : ℕ → ℕ → Bool) (old new : List ℕ) (p : ℕ) → Kept c d old new → IsLink c old p → IsLink d new p }
{}

/// Where a sweep is not at its end, the next object lies in the memory, at its new place too, and the record of one that was
/// left behind counts it.
pub fn sweeps_go_on()
    ensures object { (c : ℕ → ℕ → Bool) (mem : List ℕ) (head p : ℕ) (os : List ℕ) (first : ℕ) (kept : List ℕ) (last : ℕ) (ends further : List ℕ)
        → Sweeping c mem head (p ∷ os) first kept last ends further
        → (head ≡ p) × (head + 6 ≤ length mem) × IsOld c mem head }
    ensures moved { (c : ℕ → ℕ → Bool) (mem : List ℕ) (head p : ℕ) (os : List ℕ) (first : ℕ) (kept : List ℕ) (last : ℕ) (ends further : List ℕ)
        → Sweeping c mem head (p ∷ os) first kept last ends further
        → is_moved mem head ≡ true → new_place mem head + 6 ≤ length mem }
    ensures of_record { (c : ℕ → ℕ → Bool) (mem : List ℕ) (head p : ℕ) (os : List ℕ) (first : ℕ) (kept : List ℕ) (last : ℕ) (ends further : List ℕ)
        → Sweeping c mem head (p ∷ os) first kept last ends further
        → is_moved mem head ≡ false → named mem head + 4 ≤ length mem }
    ensures count { (c : ℕ → ℕ → Bool) (mem : List ℕ) (head p : ℕ) (os : List ℕ) (first : ℕ) (kept : List ℕ) (last : ℕ) (ends further : List ℕ)
        → Sweeping c mem head (p ∷ os) first kept last ends further
        → is_moved mem head ≡ false → 1 ≤ count_in mem (named mem head) }
{}

/// Where every object was seen, the new chain has exactly the objects that were moved, and counts are namings by it.
pub fn sweeps_end()
    ensures { (c : ℕ → ℕ → Bool) (mem : List ℕ) (head first : ℕ) (kept : List ℕ) (last : ℕ) (ends further : List ℕ)
        → Sweeping c mem head [] first kept last ends further → Links c mem first kept further }
{}

/// The rest of a chain whose front part was swept leads on as before, where nothing was moved to its objects.
pub fn swept_fronts_leave_the_rest()
    ensures chain { (c : ℕ → ℕ → Bool) (start mem os kept further : List ℕ) (to : ℕ) (result : FrontLeft) → SweptFront c start mem os kept further to result
        → (rest : List ℕ) → Chain start to rest → ((p : ℕ) → In p rest → IsLink c start p) → ((p : ℕ) → In p rest → In p kept → ⊥)
        → Chain mem result.rest rest }
    ensures front { (c : ℕ → ℕ → Bool) (start mem os kept rest further : List ℕ) (to : ℕ) (result : FrontLeft)
        → SweptFront c start mem os kept (rest ++ further) to result → Chain start to rest → Distinct rest → ((p : ℕ) → In p rest → IsLink c start p)
        → ((p : ℕ) → In p rest → In p kept → ⊥) → FrontLinks c mem result.left.first kept result.rest rest further }
{}

/// Where a chain, or several with a further list, have exactly the holders and funs that the roots reach, and no record has
/// count 0, each record's count is the number of them that name it.
pub fn chains_of_what_is_reached_count_exactly()
    ensures one { (c : ℕ → ℕ → Bool) (mem roots : List ℕ) (head : ℕ) (os : List ℕ) → Links c mem head os [] → ListsHeld c mem roots os → AllCounted c mem
        → Exact c mem roots }
    ensures several { (c : ℕ → ℕ → Bool) (mem roots : List ℕ) (xs : List OwnChain) (further : List ℕ) → Chained c mem roots xs further
        → ListsHeld c mem roots (objects_of xs ++ further) → Exact c mem roots }
{}

/// Where no record had count 0 before a sweep, each record has one after it, or is told as freed.
pub fn swept_records_are_counted_or_told()
    ensures { (c : ℕ → ℕ → Bool) (start mem os kept further : List ℕ) (left : Survivors) (s : SweptWhole c start mem os kept further left)
        → AllCounted c start → (v n : ℕ) → IsRecord c mem v n → (1 ≤ count_in mem v) ⊎ In v (named_records mem s.ends) }
{}

/// One of several chains is a chain with the objects of the others beside it, and back.
pub fn each_of_several_chains_is_one()
    ensures one { (c : ℕ → ℕ → Bool) (mem roots : List ℕ) (xs ys : List OwnChain) (x : OwnChain) (further : List ℕ)
        → Chained c mem roots (xs ++ x ∷ ys) further → Links c mem x.head x.os (objects_of xs ++ (objects_of ys ++ further)) }
    ensures several { (c : ℕ → ℕ → Bool) (mem roots : List ℕ) (xs ys : List OwnChain) (x : OwnChain) (further : List ℕ)
        → AreOwn c mem roots (xs ++ x ∷ ys) → Distinct (objects_of (xs ++ x ∷ ys) ++ further) → AllCounted c mem
        → Links c mem x.head x.os (objects_of xs ++ (objects_of ys ++ further)) → Chained c mem roots (xs ++ x ∷ ys) further }
{}

/// Of several chains in one memory, one is a chain with the objects of the others beside it, and back; another chain may come in
/// the place of one while the others lead on as before; and all objects stand beside an empty chain.
pub fn many_chains_are_chains()
    ensures one { (c : ℕ → ℕ → Bool) (mem : List ℕ) (xs ys : List OwnChain) (x : OwnChain) (further : List ℕ)
        → ManyLinks c mem (xs ++ x ∷ ys) further → Links c mem x.head x.os (objects_of xs ++ (objects_of ys ++ further)) }
    ensures again { (c : ℕ → ℕ → Bool) (mem : List ℕ) (xs ys : List OwnChain) (x : OwnChain) (further : List ℕ)
        → AreChains mem (xs ++ x ∷ ys) → Distinct (objects_of (xs ++ x ∷ ys) ++ further)
        → Links c mem x.head x.os (objects_of xs ++ (objects_of ys ++ further)) → ManyLinks c mem (xs ++ x ∷ ys) further }
    ensures changed { (c d : ℕ → ℕ → Bool) (old new : List ℕ) (xs ys : List OwnChain) (x y : OwnChain) (further : List ℕ)
        → ManyLinks c old (xs ++ x ∷ ys) further → LeadAlike old new (objects_of xs ++ objects_of ys) → ((p : ℕ) → In p y.os → y.mine p ≡ true)
        → ((p : ℕ) → In p y.os → In p (objects_of xs ++ (objects_of ys ++ further)) → ⊥)
        → Links d new y.head y.os (objects_of xs ++ (objects_of ys ++ further)) → ManyLinks d new (xs ++ y ∷ ys) further }
    ensures none { (c : ℕ → ℕ → Bool) (mem : List ℕ) (xs : List OwnChain) (further : List ℕ)
        → ManyLinks c mem xs further → Links c mem 0 [] (objects_of xs ++ further) }
    ensures of_none { (c : ℕ → ℕ → Bool) (mem : List ℕ) (xs : List OwnChain) (further : List ℕ)
        → AreChains mem xs → Distinct (objects_of xs ++ further) → Links c mem 0 [] (objects_of xs ++ further) → ManyLinks c mem xs further }
    ensures swapped { (c : ℕ → ℕ → Bool) (mem : List ℕ) (head : ℕ) (os xs ys zs : List ℕ)
        → Links c mem head os (xs ++ (ys ++ zs)) → Links c mem head os (ys ++ (xs ++ zs)) }
{}

/// Several chains that have all that the roots reach are several chains by their words, and back where no record has count 0.
pub fn chains_of_what_is_reached_are_many()
    ensures many { (c : ℕ → ℕ → Bool) (mem roots : List ℕ) (xs : List OwnChain) (further : List ℕ)
        → Chained c mem roots xs further → ManyLinks c mem xs further × AreListed c mem roots xs }
    ensures reached { (c : ℕ → ℕ → Bool) (mem roots : List ℕ) (xs : List OwnChain) (further : List ℕ)
        → ManyLinks c mem xs further → AreListed c mem roots xs → AllCounted c mem → Chained c mem roots xs further }
{}

/// Where holders, funs and records lie at new places, a chain and several are chains there, and counts are namings there.
pub fn relocated_chains_stand()
    ensures one { (g : ℕ → ℕ) (c d : ℕ → ℕ → Bool) (old new : List ℕ) (head : ℕ) (os further : List ℕ)
        → LinksMoved g c d old new (os ++ further) → Links c old head os further → Links d new (g head) (map g os) (map g further) }
    ensures several { (g : ℕ → ℕ) (c d : ℕ → ℕ → Bool) (old new : List ℕ) (xs ys : List OwnChain) (further : List ℕ)
        → LinksMoved g c d old new (objects_of xs ++ further) → ManyLinks c old xs further → AreChainsTo g xs ys → ManyLinks d new ys (map g further) }
{}

/// A chain can be turned round, and when all of its objects were seen the new chain has them, the last one first.
pub fn turns_begin_and_end()
    ensures begins { (c : ℕ → ℕ → Bool) (mem : List ℕ) (head : ℕ) (os further : List ℕ) → Links c mem head os further → Turning c mem head os 0 [] further }
    ensures ends { (c : ℕ → ℕ → Bool) (mem : List ℕ) (head first : ℕ) (kept further : List ℕ)
        → Turning c mem head [] first kept further → Links c mem first kept further }
{}
