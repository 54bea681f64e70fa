// What a reader keeps of an opened window.
use xp_base::Wid;

/// The number and the size of a window that a line opens.
#[derive(Clone, Copy, Debug)]
pub struct Opening {
    pub wid: Wid,
    pub w: u32,
    pub h: u32,
}
