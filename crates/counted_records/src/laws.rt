// What holds of records, of those who name them and of the roots' trees: each law is the contract of a function that does nothing.
ghost use Rattle.std.specs.Prelude.{◌≡◌, ℕ, ◌+◌, ◌*◌, ◌≤◌, Bool, List};
ghost use Rattle.plain_term.specs.Tree.{Trees};
ghost use Rattle.plain_machine.specs.Tightness.{funs_in_all, ids_in_all};
ghost use Rattle.plain_machine.specs.Maps.{AllIn, occurrences};
ghost use Rattle.term_words.specs.Object.{IsBinRecord, IsFunRecord};
ghost use Rattle.term_words.specs.Stands.{AllStand};
ghost use Rattle.term_words.specs.Counted.{In, Distinct, total};
ghost use Rattle.off_heap_list.specs.Links.{named, naming};
ghost use Rattle.record_move.specs.Copies.{record_words};
ghost use Rattle.counted_records.specs.Occurs.{AreHeld, BinOccurs, FunOccurs, NamedOnce, OwnersDiffer, records_for};

/// What the record of a reached object is of occurs in the roots' trees, and what occurs there has a record that stands.
pub fn reached_records_occur()
    ensures bin { (c : ℕ → ℕ → Bool) (shared : List (List ℕ)) (mem roots : List ℕ) (ts : Trees) (os : List ℕ) (p serial : ℕ) (bytes : List ℕ)
        → AllStand c shared mem roots ts → AreHeld c mem roots os → In p os → IsBinRecord c mem (named mem p) serial bytes → In serial (ids_in_all ts) }
    ensures fun { (c : ℕ → ℕ → Bool) (shared : List (List ℕ)) (mem roots : List ℕ) (ts : Trees) (os : List ℕ) (p name arity : ℕ)
        → AllStand c shared mem roots ts → AreHeld c mem roots os → In p os → IsFunRecord c mem (named mem p) name arity
        → In (256 * name + arity) (funs_in_all ts) }
    ensures bin_stands { (c : ℕ → ℕ → Bool) (shared : List (List ℕ)) (mem roots : List ℕ) (ts : Trees) (id : ℕ)
        → AllStand c shared mem roots ts → In id (ids_in_all ts) → BinOccurs c shared mem id }
    ensures fun_stands { (c : ℕ → ℕ → Bool) (shared : List (List ℕ)) (mem roots : List ℕ) (ts : Trees) (code : ℕ)
        → AllStand c shared mem roots ts → In code (funs_in_all ts) → FunOccurs c mem code }
{}

/// Of reached objects, each once, no more name a record than what it is of occurs in the roots' trees, nothing shared.
pub fn namings_are_occurrences()
    ensures bin { (c : ℕ → ℕ → Bool) (shared : List (List ℕ)) (mem roots : List ℕ) (ts : Trees) (os : List ℕ) (v serial : ℕ) (bytes : List ℕ)
        → AllStand c shared mem roots ts → AreHeld c mem roots os → Distinct os → IsBinRecord c mem v serial bytes
        → naming mem v os ≤ occurrences serial (ids_in_all ts) }
    ensures fun { (c : ℕ → ℕ → Bool) (shared : List (List ℕ)) (mem roots : List ℕ) (ts : Trees) (os : List ℕ) (v name arity : ℕ)
        → AllStand c shared mem roots ts → AreHeld c mem roots os → Distinct os → IsFunRecord c mem v name arity
        → naming mem v os ≤ occurrences (256 * name + arity) (funs_in_all ts) }
{}

/// The records that objects name can be listed, each once. Where the roots reach the objects, and no two records are of one
/// serial, or of one name and arity, they have together no more words than the records for what occurs in the roots' trees.
pub fn named_records_are_demanded()
    ensures listed { (mem os : List ℕ) → (each : List ℕ) × NamedOnce mem os each }
    ensures words { (c : ℕ → ℕ → Bool) (shared : List (List ℕ)) (mem roots : List ℕ) (ts : Trees) (os each ids funs : List ℕ)
        → AllStand c shared mem roots ts → AreHeld c mem roots os → OwnersDiffer c mem → NamedOnce mem os each
        → AllIn (ids_in_all ts) ids → AllIn (funs_in_all ts) funs → total (record_words mem) each ≤ records_for shared ids funs }
{}
