// The search for a number, by halving.
ghost use Rattle.std.specs.Prelude.{◌≡◌, ℕ, ◌<◌, ◌≤◌, length, is_some, IfSome};
ghost use Rattle.space_api.specs.Calls.{AreRising};
ghost use Rattle.numbered_rows.specs.Numbers.{is_among, row_number, numbers};

/// A row with a number.
pub trait Numbered {
    /// The number.
    ghost number_of: { Self → ℕ };

    /// The number.
    fn number(&self) -> u64
        ensures { result ≡ number_of self.now };
}

/// How many rows have a number of at most `n`: the place of the first one above.
pub fn first_above<R: Numbered>(rows: &[R], n: u64) -> usize
    requires { AreRising 0 (numbers R.number_of rows.now) }
    ensures within { result ≤ length rows.now }
    ensures low { (k : ℕ) → k < result → row_number R.number_of rows.now k ≤ n }
    ensures high { (k : ℕ) → result ≤ k → k < length rows.now → n < row_number R.number_of rows.now k }
{
    let mut low = 0;
    let mut high = rows.len();
    while low < high {
        let middle = low + (high - low) / 2;
        if rows[middle].number() <= n {
            low = middle + 1;
        } else {
            high = middle;
        }
    }
    low
}

/// The place of the row with this number.
pub fn find<R: Numbered>(rows: &[R], n: u64) -> Option<usize>
    requires { AreRising 0 (numbers R.number_of rows.now) }
    ensures among { is_some result ≡ is_among R.number_of rows.now n }
    ensures place { IfSome result (λ i. (i < length rows.now) × (row_number R.number_of rows.now i ≡ n)) }
{
    let above = first_above(rows, n);
    if above == 0 {
        return None;
    }
    if rows[above - 1].number() == n {
        Some(above - 1)
    } else {
        None
    }
}
