// When a capture may be made.

/// Whether something is to be captured now.
#[derive(Clone, Copy, Debug, PartialEq, Eq)]
pub enum Due {
    /// There is nothing to capture.
    Clean,
    /// Not before this moment, in milliseconds.
    Early(u64),
    Now,
}
