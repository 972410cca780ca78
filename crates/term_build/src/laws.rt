// What holds of all words that are taken: each law is the contract of a function that does nothing.
ghost use Rattle.std.specs.Prelude.{◌≡◌, ℕ, ◌+◌, ◌<◌, ◌≤◌, ◌⊎◌, Bool, true, List};
ghost use Rattle.plain_term.specs.Tree.{Tree};
ghost use Rattle.term_words.specs.Role.{IsSingle};
ghost use Rattle.term_build.specs.Taken.{Taken, IsFree, with_object};
ghost use Rattle.term_build.specs.Grows.{Grows, Built};

/// Words without a role may be taken for an object whatever its roles are: the test that has these beside allows one role
/// at most at each place where the test before did, and none at new places but those of the object.
pub fn taken_words_keep_one_role()
    ensures fits { (roles : ℕ → ℕ) (c : ℕ → ℕ → Bool) (top n : ℕ) → IsFree c top (top + n) → Taken roles c (with_object roles c top n) top n }
    ensures single { (roles : ℕ → ℕ) (c : ℕ → ℕ → Bool) (top n : ℕ) → IsSingle c → IsSingle (with_object roles c top n) }
    ensures within { (roles : ℕ → ℕ) (c : ℕ → ℕ → Bool) (top n a k : ℕ) → with_object roles c top n a k ≡ true → (c a k ≡ true) ⊎ ((top ≤ a) × (a < top + n)) }
{}

/// Roles that grow in some words and then in the next ones grow in all of these, what is built last stands by them, and
/// what was free behind them stays free.
pub fn roles_grow_one_after_the_other()
    ensures joined { (c d e : ℕ → ℕ → Bool) (top m n : ℕ) (old mid new : List ℕ) → Grows c d top m old mid → Grows d e (top + m) n mid new
        → Grows c e top (m + n) old new }
    ensures built { (c d : ℕ → ℕ → Bool) (top m n : ℕ) (old mid new : List ℕ) (shared : List (List ℕ)) (w : ℕ) (t : Tree) → Grows c d top m old mid
        → Built d (top + m) n mid new shared w t → Built c top (m + n) old new shared w t }
    ensures free { (c d : ℕ → ℕ → Bool) (top n limit : ℕ) (old new : List ℕ) → Grows c d top n old new → IsFree c top limit → IsFree d (top + n) limit }
{}
