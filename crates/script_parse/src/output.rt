// What a line gives while it is read.
ghost use Rattle.std.specs.Prelude.{◌≡◌, ℕ, ◌+◌, ◌≤◌, ◌<◌, List, [], ◌++◌, length};
ghost use Rattle.atom_names.specs.declared.row.TheConstants.{LONGEST_NAME};
ghost use Rattle.script_parse.specs.declared.buffer.TheConstants.{MOST_ITEMS};
ghost use Rattle.script_parse.specs.Output.{given, push, put_at, put_atom, put_name, entered_number, begun, begun_items, led, ended, led_items, OutputGrows};

use crate::buffer::Code;
use crate::forms::Form;
use atom_names::AtomNames;
use plain_term::Item;

/// The names and items so far, and whether a name found no place.
#[derive(Drop)]
pub(crate) struct Output<'a> {
    pub(crate) names: &'a mut AtomNames,
    pub(crate) code: &'a mut Code,
    pub(crate) full: bool,
}

impl<'a> Output<'a> {
    /// An item goes last.
    pub(crate) fn push(&mut self, item: Item)
        requires { length self.old.code.now < MOST_ITEMS }
        ensures item { given self.new ≡ push (given self.old) item }
        ensures grown { OutputGrows self.old self.new }
    {
        self.code.push(item);
    }

    /// An atom goes last by its number. Where it is new and there is no number for it, that is kept in mind.
    pub(crate) fn put_atom(&mut self, name: &[u8])
        requires sized { (1 ≤ length name.now) × (length name.now ≤ LONGEST_NAME) }
        requires room { length self.old.code.now < MOST_ITEMS }
        ensures atom { given self.new ≡ put_atom (given self.old) name.now }
        ensures grown { OutputGrows self.old self.new }
        ensures one { length self.new.code.now ≡ length self.old.code.now + 1 }
    {
        match self.names.intern(name) {
            Some(k) => self.code.push(Item::Atom(k)),
            None => {
                self.full = true;
                self.code.push(Item::Atom(0));
            }
        }
    }

    /// A name that is no term gets its number. Where it is new and there is none for it, that is kept in mind.
    pub(crate) fn put_name(&mut self, name: &[u8]) -> u64
        requires { (1 ≤ length name.now) × (length name.now ≤ LONGEST_NAME) }
        ensures name { given self.new ≡ put_name (given self.old) name.now }
        ensures number { result ≡ entered_number (given self.old) name.now }
        ensures grown { OutputGrows self.old self.new }
        ensures same { length self.new.code.now ≡ length self.old.code.now }
    {
        match self.names.intern(name) {
            Some(k) => k,
            None => {
                self.full = true;
                0
            }
        }
    }

    /// What stands before the parts of a form.
    pub(crate) fn begin(&mut self, form: Form)
        requires { length self.old.code.now < MOST_ITEMS }
        ensures items { given self.new ≡ begun form (given self.old) }
        ensures grown { OutputGrows self.old self.new }
    {
        match form {
            Form::List => {},
            Form::Tuple => self.code.push(Item::Tuple(0)),
            Form::Map => self.code.push(Item::Map(0)),
            Form::Binary => self.code.push(Item::Bin(0)),
        }
    }

    /// What stands before each part of a form.
    pub(crate) fn lead(&mut self, form: Form)
        requires { length (led_items form self.old.code.now) ≤ MOST_ITEMS }
        ensures items { given self.new ≡ led form (given self.old) }
        ensures grown { OutputGrows self.old self.new }
    {
        match form {
            Form::List => self.code.push(Item::Cons),
            Form::Tuple | Form::Map | Form::Binary => {},
        }
    }

    /// A form whose items begin at this place and that has so many parts is complete.
    pub(crate) fn end(&mut self, form: Form, at: usize, n: u64)
        requires room { length self.old.code.now < MOST_ITEMS }
        requires at { at + length (begun_items form []) ≤ length self.old.code.now }
        ensures items { given self.new ≡ ended form at n (given self.old) }
        ensures grown { OutputGrows self.old self.new }
        ensures one { length self.new.code.now ≤ length self.old.code.now + 1 }
    {
        match form {
            Form::List => self.code.push(Item::Nil),
            Form::Tuple => self.code.put(at, Item::Tuple(n)),
            Form::Map => self.code.put(at, Item::Map(n)),
            Form::Binary => self.code.put(at, Item::Bin(n)),
        }
    }
}
