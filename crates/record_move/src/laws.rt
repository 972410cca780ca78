// What moved records are to those who leave the old ones behind, and to tables of them.
ghost use Rattle.std.specs.Prelude.{◌≡◌, ℕ, ◌+◌, ◌<◌, ◌≤◌, Bool, true, List, [], ◌++◌};
ghost use Rattle.term_words.specs.Role.{RECORD_FIRST, both};
ghost use Rattle.term_words.specs.Object.{IsRecord};
ghost use Rattle.term_words.specs.Counted.{In, Distinct, total};
ghost use Rattle.shared_rec.specs.Record.{count_in};
ghost use Rattle.off_heap_list.specs.Links.{named, Links};
ghost use Rattle.record_move.specs.Copies.{RecordsMoved, LeavesOld, record_words};
ghost use Rattle.record_move.specs.Tables.{AreRecords, IsRenewed, OwnersRise, renewed};

/// Where the old records are left behind, as with the half in which they lie, the chain's objects name all records that there
/// are: counts are namings, and none is 0.
pub fn moved_records_are_all()
    ensures links { (c : ℕ → ℕ → Bool) (start mem : List ℕ) (head : ℕ) (os : List ℕ) (low top : ℕ) (r : RecordsMoved c start mem head os low top)
        (d : ℕ → ℕ → Bool) → LeavesOld c os low top d → Links (both r.test d) mem head os [] }
    ensures some { (c : ℕ → ℕ → Bool) (start mem : List ℕ) (head : ℕ) (os : List ℕ) (low top : ℕ) (r : RecordsMoved c start mem head os low top)
        (d : ℕ → ℕ → Bool) → LeavesOld c os low top d → (v n : ℕ) → IsRecord (both r.test d) mem v n → 1 ≤ count_in mem v }
{}

/// A table of records that was renewed has the copies of those that the chain's objects name, each once where the records
/// stood there once, in the same order of their owner words, and in no more than the words that the records moved to.
pub fn renewed_tables_name_the_copies()
    ensures made { (c : ℕ → ℕ → Bool) (start mem : List ℕ) (head : ℕ) (os : List ℕ) (low top : ℕ) (r : RecordsMoved c start mem head os low top)
        (vs : List ℕ) → AreRecords c start vs → (u : ℕ) → In u (renewed mem vs) → IsRenewed start mem os vs u }
    ensures all { (c : ℕ → ℕ → Bool) (start mem : List ℕ) (head : ℕ) (os : List ℕ) (low top : ℕ) (r : RecordsMoved c start mem head os low top)
        (vs : List ℕ) (o : ℕ) → In o os → In (named start o) vs → In (named mem o) (renewed mem vs) }
    ensures once { (c : ℕ → ℕ → Bool) (start mem : List ℕ) (head : ℕ) (os : List ℕ) (low top : ℕ) (r : RecordsMoved c start mem head os low top)
        (vs : List ℕ) → AreRecords c start vs → Distinct vs → Distinct (renewed mem vs) }
    ensures owners { (c : ℕ → ℕ → Bool) (start mem : List ℕ) (head : ℕ) (os : List ℕ) (low top : ℕ) (r : RecordsMoved c start mem head os low top)
        (vs : List ℕ) → AreRecords c start vs → OwnersRise start vs → OwnersRise mem (renewed mem vs) }
    ensures fits { (c : ℕ → ℕ → Bool) (start mem : List ℕ) (head : ℕ) (os : List ℕ) (low top : ℕ) (r : RecordsMoved c start mem head os low top)
        (vs : List ℕ) → AreRecords c start vs → Distinct vs → low ≤ top → low + total (record_words mem) (renewed mem vs) ≤ top }
    ensures joined { (mem vs ws : List ℕ) → renewed mem (vs ++ ws) ≡ renewed mem vs ++ renewed mem ws }
{}
