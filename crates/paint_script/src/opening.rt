// What is kept of an open window.
use xp_base::Wid;

/// The number and the size, in pixels, of an open window.
#[derive(Clone, Copy, Debug)]
pub struct Opening {
    pub wid: Wid,
    pub w: u32,
    pub h: u32,
}
