// The open table of slots by which a name is found.
ghost use Rattle.std.specs.Prelude.{
  ◌≡◌,
  ℕ,
  ◌+◌,
  ◌*◌,
  ◌-◌,
  ◌<◌,
  ◌≤◌,
  ◌≢◌,
  List,
  [],
  ◌∷◌,
  length,
  map,
  IfOk,
  IfErr,
  slice_set,
  slice_index,
  slice_index_or,
};
ghost use Rattle.atom_names.specs.Rows.{AreShort, row_name};
ghost use Rattle.atom_names.specs.Slots.{FindsSlot, IsFreeSlot};

use crate::names::MOST_NAMES;
use crate::row::{Row, name_in};
use crate::spread::spread;
use std::alloc::{AllocError, Global};

/// How many slots there are: four times as many as names, so that most names stand in the first slot that is sought.
const SLOTS: usize = 65_536;

/// By which slots a name is found, and at which slot each name stands.
#[derive(Drop)]
pub(crate) struct Table {
    pub(crate) slots: Vec<u16>,
    pub(crate) places: Vec<u16>,
}

impl Table {
    /// A table of free slots.
    pub(crate) fn new(alloc: Global) -> Result<Table, AllocError>
        ensures { IfOk result (λ table. (names : List (List ℕ)) → FindsSlot names 0 table.slots.items table.places.items) }
    {
        let slots = vec![in alloc; 0; SLOTS]?;
        let places = vec![in alloc; 0; MOST_NAMES]?;
        Ok(Table { slots, places })
    }

    /// The number of the name, or the free slot for it where it is new.
    pub(crate) fn find(&self, rows: &[Row], name: &[u8]) -> Result<usize, usize>
        requires few { length rows.now ≤ MOST_NAMES }
        requires short { AreShort rows.now }
        requires finds { FindsSlot (map row_name rows.now) (length rows.now) self.now.slots.items self.now.places.items }
        ensures inside { IfOk result (λ k. k < length rows.now) }
        ensures there { IfOk result (λ k. slice_index_or (map row_name rows.now) k [] ≡ name.now) }
        ensures free { IfErr result (λ slot. IsFreeSlot name.now self.now.slots.items slot) }
        ensures new { IfErr result
            (λ _. (k : ℕ) → k < length rows.now → slice_index_or (map row_name rows.now) k [] ≢ name.now) }
    {
        let start = spread(name);
        for j in 0..SLOTS {
            let slot = (start + j) % SLOTS;
            let number = self.slots[slot] as usize;
            if number == 0 {
                return Err(slot);
            }
            if name_in(&rows[number - 1]) == name {
                return Ok(number - 1);
            }
        }
        unreachable!()
    }

    /// Puts the number of a new name into its free slot.
    pub(crate) fn add(&mut self, number: usize, slot: usize)
        requires number { number < MOST_NAMES }
        requires slot { slot < 65536 }
        requires slots_room { length self.old.slots.items ≡ 65536 }
        requires places_room { length self.old.places.items ≡ MOST_NAMES }
        ensures slots { self.new.slots.items ≡ slice_set self.old.slots.items slot (number + 1) }
        ensures places { self.new.places.items ≡ slice_set self.old.places.items number slot }
    {
        self.slots[slot] = (number + 1) as u16;
        self.places[number] = slot as u16;
    }

    /// Frees the slots of the names from the first one given to the last, the last one first.
    pub(crate) fn free(&mut self, first: usize, count: usize)
        requires order { (first ≤ count) × (count ≤ MOST_NAMES) }
        requires slots_room { length self.old.slots.items ≡ 65536 }
        requires places_room { length self.old.places.items ≡ MOST_NAMES }
        requires placed { (k : ℕ) → k < count → slice_index self.old.places.items k < 65536 }
        ensures { (names : List (List ℕ)) → FindsSlot names count self.old.slots.items self.old.places.items →
            FindsSlot names first self.new.slots.items self.new.places.items }
    {
        let mut number = count;
        while number > first {
            number -= 1;
            let slot = self.places[number] as usize;
            self.slots[slot] = 0;
        }
    }
}
