// What became of a result.
use rgb_encoders::Encoded;

/// What became of a result.
#[derive(Debug, Drop)]
pub enum Kept {
    /// It is kept with its job.
    Kept,
    /// No job in hand has the number.
    Late,
    /// The job with the number has another capture. The result is handed back.
    Foreign(Encoded),
}
