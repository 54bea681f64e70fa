// Where a connection is.

/// A connection's place in the table.
#[derive(Drop)]
pub(crate) enum Place<E: Drop> {
    /// It is open, and kept under this key.
    Open(usize),
    /// It is open, and was taken out to be changed.
    Away,
    /// It has ended.
    Ended(E),
}
