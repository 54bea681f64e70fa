// That the types here may move between threads.
use crate::desk::Desk;
use crate::generator::Generator;
use crate::geometry::Geometry;
use crate::window::Win;
use xp_base::moves_between_threads;

/// Shows it of the types here. It does nothing.
pub fn window_types_move() {
    moves_between_threads::<Win>();
    moves_between_threads::<Desk>();
    moves_between_threads::<Geometry>();
    moves_between_threads::<Generator>();
}
