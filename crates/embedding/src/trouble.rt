// What may stop the program.
use line_io::{OpenFault, SinkFault};

/// There is no memory, the output takes no more, or a line may not be said: it is too long, or it is one too many.
#[derive(Clone, Copy)]
pub enum Trouble {
    Memory,
    Output,
    Unsaid,
}

impl From<OpenFault> for Trouble {
    fn from(_fault: OpenFault) -> Trouble {
        Trouble::Memory
    }
}

impl From<SinkFault> for Trouble {
    fn from(_fault: SinkFault) -> Trouble {
        Trouble::Output
    }
}
