// What keeps records.
ghost use Rattle.std.specs.Prelude.{◌≡◌, ℕ, ◌+◌, Bool, true, List};
ghost use Rattle.term_words.specs.Role.{COUNT, IsSingle, Idle};
ghost use Rattle.term_words.specs.Object.{IsBinRecord, IsFunRecord, IsRecord};
ghost use Rattle.term_words.specs.Kept.{Kept};

/// Records stay where content is kept, counts aside; and where each place has one role at most, a count is no content.
pub fn kept_content_keeps_records()
    ensures bins { (c d : ℕ → ℕ → Bool) (old new : List ℕ) (v serial : ℕ) (bytes : List ℕ) → Kept c d old new
        → IsBinRecord c old v serial bytes → IsBinRecord d new v serial bytes }
    ensures funs { (c d : ℕ → ℕ → Bool) (old new : List ℕ) (v name arity : ℕ) → Kept c d old new
        → IsFunRecord c old v name arity → IsFunRecord d new v name arity }
    ensures records { (c d : ℕ → ℕ → Bool) (old new : List ℕ) (v n : ℕ) → Kept c d old new → IsRecord c old v n → IsRecord d new v n }
    ensures counts { (c : ℕ → ℕ → Bool) (mem : List ℕ) (v n : ℕ) → IsSingle c → IsRecord c mem v n → Idle c (v + 2) }
{}
