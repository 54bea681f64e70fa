// What an acknowledgement comes to.
use xp_base::Rect;

/// What an acknowledgement comes to. Whether a draw was unacknowledged goes by its number alone.
#[derive(Clone, Copy, Debug, PartialEq, Eq)]
pub enum Ack {
    /// Its draw is no longer unacknowledged.
    Counted,
    /// So is its draw, which has this rectangle; but its decode time is negative, which says that the
    /// client could not draw it.
    Again(Rect),
    /// No unacknowledged draw has the number.
    Stray,
}
