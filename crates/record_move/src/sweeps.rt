// What a collection leaves of a chain.
ghost use Rattle.std.specs.Prelude.{◌≡◌, ℕ, Bool, List, [], ◌++◌};
ghost use Rattle.off_heap_list.specs.Links.{Chain, Links};
ghost use Rattle.off_heap_list.specs.Swept.{FrontSweeping, Sweeping};
ghost use Rattle.cheney.specs.Plan.{Plan, Ready};
ghost use Rattle.cheney.specs.Collected.{Collected};
ghost use Rattle.cheney.specs.Next.{HasRoles, Remains};
ghost use Rattle.term_words.specs.Counted.{In};
ghost use Rattle.off_heap_list.specs.Whole.{moved_of, SweptWhole};
ghost use Rattle.off_heap_list.specs.declared.whole.Survivors.{Survivors};
ghost use Rattle.record_move.specs.Copies.{RecordsCanMove};
ghost use Rattle.record_move.specs.Follows.{Sweepable, RecordsHaveRoom, first_object};

/// After a collection its chain can be swept, by the test of roles under which the new roots stand: each object of the chain
/// was moved, with its words but the first, or left behind, and all records stayed.
pub fn collections_leave_sweeps()
    ensures { (p : Plan) (m : List ℕ) (top : Bool → ℕ) (s : ℕ → ℕ → Bool) (r : HasRoles p m s) (head : ℕ) (os further : List ℕ) → Ready p
        → Collected p m top → Remains p s → Sweepable p s os further → Links p.test p.start head os further
        → Sweeping r.test m head os 0 [] 0 [] further }
{}

/// So can the front part of its chain, where the objects behind it stay, as those of an older part: these are a chain still.
pub fn collections_leave_front_sweeps()
    ensures begins { (p : Plan) (m : List ℕ) (top : Bool → ℕ) (s : ℕ → ℕ → Bool) (r : HasRoles p m s) (head : ℕ) (os rest further : List ℕ) → Ready p
        → Collected p m top → Remains p s → Sweepable p s os (rest ++ further) → Links p.test p.start head (os ++ rest) further
        → FrontSweeping r.test m head os (first_object rest) 0 [] 0 [] (rest ++ further) }
    ensures rest { (p : Plan) (m : List ℕ) (top : Bool → ℕ) (s : ℕ → ℕ → Bool) (r : HasRoles p m s) (head : ℕ) (os rest further : List ℕ) → Ready p
        → Collected p m top → Links p.test p.start head (os ++ rest) further → Chain m (first_object rest) rest }
{}

/// After the sweep the records that are still named can move to words that are free, where these hold them.
pub fn swept_records_can_move()
    ensures { (p : Plan) (m : List ℕ) (top : Bool → ℕ) (s : ℕ → ℕ → Bool) (r : HasRoles p m s) (head : ℕ) (os : List ℕ) → Ready p → Collected p m top
        → Sweepable p s os [] → Links p.test p.start head os []
        → (mem kept : List ℕ) (left : Survivors) → SweptWhole r.test m mem os kept [] left → ((q : ℕ) → In q kept → In q (moved_of m os))
        → (low high : ℕ) → RecordsHaveRoom p s top os low high → RecordsCanMove r.test mem left.first kept low high }
{}
