// What holds of the pairs of a map that is made.
ghost use Rattle.std.specs.Prelude.{◌≡◌, ℕ, true, false, List};
ghost use Rattle.plain_term.specs.Tree.{Pairs};
ghost use Rattle.plain_term.specs.InOrder.{in_order};
ghost use Rattle.plain_term.specs.Proper.{keys_rise};
ghost use Rattle.term_maps.specs.Stops.{has_beyond};

/// Keys that are put in order rise, and none is beyond the walk limit where none was.
pub fn keys_in_order_rise()
    ensures rise { (names shared : List (List ℕ)) (given : Pairs) → keys_rise names shared (in_order names shared given) ≡ true }
    ensures within { (names shared : List (List ℕ)) (given : Pairs) → has_beyond shared given ≡ false
        → has_beyond shared (in_order names shared given) ≡ false }
{}
