// The items of a line's terms.
ghost use Rattle.std.specs.Prelude.{◌≡◌, ℕ, ◌+◌, ◌<◌, ◌≤◌, List, [], ◌∷◌, ◌++◌, length, take, slice_set, IfOk};
ghost use Rattle.script_parse.specs.declared.buffer.TheConstants.{MOST_ITEMS};

use atom_names::OpenFault;
use plain_term::Item;
use std::alloc::Global;
use std::marker::Model;

/// How many items there may be: as many as a line may have bytes.
pub const MOST_ITEMS: usize = 4096;

/// The items of the terms of one line, in prefix form.
#[derive(Drop)]
pub struct Code {
    places: Vec<Item>,
    len: usize,
}

impl Model for Code {
    ghost use Rattle.std.specs.Prelude.{◌≡◌, ◌≤◌, List, take, length};
    ghost use Rattle.plain_term.specs.declared.item.Item.{Item};
    ghost use Rattle.script_parse.specs.declared.buffer.TheConstants.{MOST_ITEMS};

    ghost Value = { List Item };

    ghost view = { λ c. take c.len c.places.items };

    ghost invariant = { λ c. (length c.places.items ≡ MOST_ITEMS) × (c.len ≤ MOST_ITEMS) };
}

impl Code {
    /// Takes the memory for all places.
    pub fn new(alloc: Global) -> Result<Code, OpenFault>
        ensures { IfOk result (λ code. code ≡ []) }
    {
        match vec![in alloc; Item::Nil; MOST_ITEMS] {
            Ok(places) => Ok(Code { places, len: 0 }),
            Err(_) => Err(OpenFault::Memory),
        }
    }

    /// The items of the last parse.
    pub fn items(&self) -> &[Item]
        ensures value { result.now ≡ self.now }
        ensures few { length self.now ≤ MOST_ITEMS }
    {
        &self.places[..self.len]
    }

    /// How many items there are.
    pub(crate) fn len(&self) -> usize
        ensures value { result ≡ length self.now }
        ensures few { length self.now ≤ MOST_ITEMS }
    {
        self.len
    }

    /// Takes all items away.
    pub(crate) fn clear(&mut self)
        ensures { self.new ≡ [] }
    {
        self.len = 0;
    }

    /// Puts an item at the end.
    pub(crate) fn push(&mut self, item: Item)
        requires { length self.old < MOST_ITEMS }
        ensures { self.new ≡ self.old ++ item ∷ [] }
    {
        self.places[self.len] = item;
        self.len += 1;
    }

    /// Puts an item in place of another.
    pub(crate) fn put(&mut self, at: usize, item: Item)
        requires { at < length self.old }
        ensures { self.new ≡ slice_set self.old at item }
    {
        self.places[at] = item;
    }
}
