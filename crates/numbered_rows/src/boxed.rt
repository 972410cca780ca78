// A row in a box of its own.
ghost use Rattle.std.specs.Prelude.{◌≡◌, IfSome};
ghost use Rattle.std.specs.Borrow.{Lends, sem};

use crate::table::Numbered;
use std::alloc::Global;
use std::marker::Model;

/// A row in a box of its own, so that a row that changes its place moves no word but that of the box. It is seen as the row.
#[derive(Drop)]
pub struct Boxed<T> {
    inner: Box<T>,
}

impl<T> Model for Boxed<T> {
    ghost Value = { T };

    ghost coded = { T.code };

    ghost view = { λ r. r.inner.value };
}

impl<T: Drop> Boxed<T> {
    ghost use Rattle.numbered_rows.specs.contracts.boxed.Boxed.{the_row};

    /// A box with this row; none where there is no memory for it.
    pub fn new(alloc: Global, row: T) -> Option<Boxed<T>>
        ensures { IfSome result (λ r. r ≡ row) }
    {
        match Box::new(alloc, row) {
            Ok(inner) => Some(Boxed { inner }),
            Err(_) => None,
        }
    }

    /// The row.
    #[inline]
    pub fn row(&self) -> &T
        ensures { result.now ≡ self.now }
    {
        &self.inner
    }

    /// The row, to be changed.
    #[inline]
    pub fn row_mut(&mut self) -> &mut T
        ensures* writes_back { sem 𝓛 (Lends (the_row T.row) T.row self.entry result (λ w. w)) }
        ensures value { result.now ≡ self.old }
    {
        self.inner.as_mut()
    }
}

impl<T: Drop + Numbered> Numbered for Boxed<T> {
    ghost number_of = { T.number_of };

    fn number(&self) -> u64 {
        self.inner.number()
    }
}
