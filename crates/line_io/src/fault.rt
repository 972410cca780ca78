// Why something could not be opened.
use thiserror::Error;

/// Want of memory at an opening, the one cause that no input and no contract decides (this project).
#[derive(Debug, Drop, Error)]
pub enum OpenFault {
    #[error("out of memory")]
    Memory,
}
