// What is carried over to another size.
use rect_regions::Points;
use std::marker::Model;

/// The points of a window that are pending and that are lossy once it has another size.
#[derive(Drop)]
pub struct Carried<R: Points> {
    pub pending: R,
    pub lossy: R,
}

impl<R: Points> Model for Carried<R> {
    ghost use Rattle.resize_cancel.specs.Cancelled.{CarriedSeen};

    ghost Value = { CarriedSeen R };

    ghost view = { λ c. record { pending = c.pending; lossy = c.lossy } };
}
