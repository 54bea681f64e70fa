// What one client is owed of one window.
ghost use Rattle.std.specs.Prelude.{◌≡◌};

use crate::points::Points;
use xp_base::{Rect, Wid};

/// A client's view of a window: whether the client has mapped it, what is to be captured for it, and the
/// number of its next draw.
#[derive(Debug, Drop)]
pub struct Source {
    pub wid: Wid,
    pub mapped: bool,
    /// The points that changed since they were last captured.
    pub pending: Points,
    /// The sequence number of its next draw, from 1 on.
    pub next_sequence: u64,
}

impl Source {
    ghost use Rattle.client_connection.specs.Clients.{damaged_source, mapped_source};

    /// A rectangle of a window was painted.
    pub fn damage(&mut self, wid: Wid, r: Rect)
        ensures { self.new ≡ damaged_source wid r self.old }
    {
        if self.wid.get() == wid.get() {
            self.pending.add(r);
        }
    }

    /// The client mapped the window.
    pub fn map(&mut self, wid: Wid)
        ensures { self.new ≡ mapped_source wid self.old }
    {
        if self.wid.get() == wid.get() {
            self.mapped = true;
        }
    }
}
