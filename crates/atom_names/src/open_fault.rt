// Why names could not be opened.
use thiserror::Error;

/// Why names could not be opened.
#[derive(Debug, Drop, Error)]
pub enum OpenFault {
    #[error("no memory for the names of atoms")]
    Memory,
}
