// Why an opening call fails.
use thiserror::Error;

/// What an opening call answers where it could not open.
#[derive(Debug, Drop, Error)]
pub enum OpenFault {
    /// No memory was found.
    #[error("no memory")]
    Memory,
}
