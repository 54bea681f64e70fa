// Why bytes are no pixels.
use thiserror::Error;

/// Why the bytes of a draw are not its pixels.
#[derive(Clone, Copy, Debug, PartialEq, Eq, Error)]
pub enum DataFault {
    /// The rows, so many bytes apart, have no room for their pixels.
    #[error("rows of {0} bytes have no room for their pixels")]
    Stride(u32),
    /// So many bytes are not the stride times the height.
    #[error("{0} bytes are not the stride times the height")]
    Length(usize),
    #[error("out of memory")]
    NoMemory,
}
