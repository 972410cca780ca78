// What a run leaves: nothing, or the machine in its last state.
ghost use Rattle.std.specs.Prelude.{◌≡◌};

use engine::Machine;
use one_space::OneSpace;

/// What a run leaves: nothing where it did not begin, else the machine in its last state.
#[derive(Drop)]
pub enum Store {
    Vacant,
    One(Machine<OneSpace>),
}

impl Store {
    /// A store with no machine. It takes no memory.
    pub fn empty() -> Store
        ensures { result ≡ Store.Vacant }
    {
        Store::Vacant
    }
}
