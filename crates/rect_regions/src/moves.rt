// That the types here may move between threads.
use crate::bit_region::BitRegion;
use crate::region::Region;
use xp_base::moves_between_threads;

/// Shows it of the types here. It does nothing.
pub fn region_types_move() {
    moves_between_threads::<Region>();
    moves_between_threads::<BitRegion>();
}
