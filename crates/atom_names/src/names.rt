// Names of atoms, given numbers in the order in which they come.
ghost use Rattle.std.specs.Prelude.{
  ◌≡◌,
  ℕ,
  ◌+◌,
  ◌*◌,
  ◌-◌,
  ◌<◌,
  ◌≤◌,
  List,
  [],
  ◌∷◌,
  ◌++◌,
  length,
  take,
  IfOk,
  IfSome,
  IfNone,
  slice_index_or,
  map,
};
ghost use Rattle.atom_names.specs.Names.{AreNames, index_of, with_name};
ghost use Rattle.atom_names.specs.Rows.{AreShort, row_name};

use crate::open_fault::OpenFault;
use crate::row::{LONGEST_NAME, Row, name_in, row_of};
use crate::table::Table;
use std::alloc::Global;
use std::marker::Model;

/// How many names there may be. This project's own limit.
pub const MOST_NAMES: usize = 16_384;

/// The names of atoms in the order of their numbers, from 0 on.
#[derive(Drop)]
pub struct AtomNames {
    rows: Vec<Row>,
    table: Table,
    count: usize,
}

impl Model for AtomNames {
    ghost use Rattle.std.specs.Prelude.{List, ℕ};

    ghost Value = { List (List ℕ) };

    ghost use Rattle.atom_names.specs.Rows.{names_of, NamesHold};

    ghost view = { λ a. names_of a.rows.items a.count };

    ghost invariant = { λ a. NamesHold a.rows.items a.table a.count };
}

impl AtomNames {
    /// Takes all memory that the names will ever need.
    pub fn new(alloc: Global) -> Result<AtomNames, OpenFault>
        ensures { IfOk result (λ names. names ≡ []) }
    {
        let Ok(table) = Table::new(alloc) else {
            return Err(OpenFault::Memory);
        };
        let row = Row {
            len: 0,
            bytes: [0; LONGEST_NAME],
        };
        match vec![in alloc; row; MOST_NAMES] {
            Ok(rows) => Ok(AtomNames {
                rows,
                table,
                count: 0,
            }),
            Err(_) => Err(OpenFault::Memory),
        }
    }

    /// The number of a name. A new one goes last; `None` where it is new and all numbers are taken.
    pub fn intern(&mut self, name: &[u8]) -> Option<u64>
        requires { (1 ≤ length name.now) × (length name.now ≤ LONGEST_NAME) }
        ensures names { IfSome result (λ _. self.new ≡ with_name self.old name.now) }
        ensures number { IfSome result (λ k. index_of self.new name.now ≡ Some k) }
        ensures room { IfSome result (λ _. length self.new ≤ MOST_NAMES) }
        ensures full { IfNone result ((self.new ≡ self.old) × (index_of self.old name.now ≡ None) × (length self.old ≡ MOST_NAMES)) }
    {
        let slot = match self.table.find(&self.rows[..self.count], name) {
            Ok(k) => return Some(k as u64),
            Err(slot) => slot,
        };
        if self.count == MOST_NAMES {
            return None;
        }
        let k = self.count;
        self.rows[k] = row_of(name);
        self.table.add(k, slot);
        self.count += 1;
        Some(k as u64)
    }

    /// Does nothing. After it a proof knows what is true of all names: none stands twice, none is empty or too long, and they are few.
    #[inline]
    pub fn sound(&self)
        ensures { AreNames self.now }
    {
        let _count = self.count;
    }

    /// How many names there are.
    pub fn count(&self) -> u64
        ensures value { result ≡ length self.now }
        ensures names { AreNames self.now }
    {
        self.count as u64
    }

    /// The bytes of the name with this number.
    pub fn name(&self, k: u64) -> &[u8]
        requires { k < length self.now }
        ensures value { result.now ≡ slice_index_or self.now k [] }
        ensures sized { (1 ≤ length result.now) × (length result.now ≤ LONGEST_NAME) }
    {
        name_in(&self.rows[k as usize])
    }

    /// Lets the first `n` names stay and takes back the others.
    pub fn forget(&mut self, n: u64)
        requires { n ≤ length self.old }
        ensures { self.new ≡ take n self.old }
    {
        let count = n as usize;
        self.table.free(count, self.count);
        self.count = count;
    }
}
