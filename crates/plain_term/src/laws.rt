// What holds of the definitions.
ghost use Rattle.std.specs.Prelude.{◌≡◌, ◌≢◌, ◌≤◌, ◌<◌, ◌^◌, ◌↔◌, ℕ, ℤ, List, length, IsTrue};
ghost use Rattle.std.specs.Cmp.{IsTotalOrder};
ghost use Rattle.std.specs.Str.Parse.{signed_digits_value};
ghost use Rattle.std.specs.declared.cmp.Ordering.TheVariants.{Less, Equal};
ghost use Rattle.plain_term.specs.Tree.{Tree};
ghost use Rattle.plain_term.specs.Tree.Tree.{Int, Part};
ghost use Rattle.plain_term.specs.Bytes.{bytes_of, is_binary};
ghost use Rattle.plain_term.specs.Measures.{nodes, depth, magnitude};
ghost use Rattle.plain_term.specs.Order.{order};
ghost use Rattle.plain_term.specs.Proper.{is_proper};
ghost use Rattle.plain_term.specs.Text.{text};

/// The order of terms is total, and two terms are equal exactly where neither is less.
pub fn order_is_total()
    ensures total { (names shared : List (List ℕ)) → IsTotalOrder (order names shared) }
    ensures equal { (names shared : List (List ℕ)) (a b : Tree)
        → (order names shared a b ≡ Equal) ↔ ((order names shared a b ≢ Less) × (order names shared b a ≢ Less)) }
{}

/// Two binaries are equal exactly where their bytes are the same.
pub fn binaries_are_equal_by_bytes()
    ensures { (names shared : List (List ℕ)) (a b : Tree) → IsTrue (is_binary a) → IsTrue (is_binary b)
        → (order names shared a b ≡ Equal) ↔ (bytes_of shared a ≡ bytes_of shared b) }
{}

/// A part has as many bytes as it says.
pub fn parts_have_their_length()
    ensures { (names shared : List (List ℕ)) (base : Tree) (offset len : ℕ) → IsTrue (is_proper names shared (Part base offset len))
        → length (bytes_of shared (Part base offset len)) ≡ len }
{}

/// Terms that are equal have as many nodes and are as deep.
pub fn equal_terms_measure_alike()
    ensures { (names shared : List (List ℕ)) (a b : Tree) → order names shared a b ≡ Equal → (nodes shared a ≡ nodes shared b) × (depth a ≡ depth b) }
{}

/// A term is no deeper than it has nodes.
pub fn depth_is_within_nodes()
    ensures { (shared : List (List ℕ)) (t : Tree) → depth t ≤ nodes shared t }
{}

/// The text of an integer says that integer.
pub fn integers_read_back()
    ensures { (names shared : List (List ℕ)) (i : ℤ) → magnitude i < 2 ^ 127 → signed_digits_value 10 (text names shared (Int i)) ≡ i }
{}
