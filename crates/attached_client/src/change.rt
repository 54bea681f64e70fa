// What a paint line is to one client, and what is made for it.
ghost use Rattle.std.specs.Prelude.{◌≡◌};
ghost use Rattle.attached_client.specs.Changes.{wid_of};

use client_outbox::Packet;
use rect_regions::Region;
use window_model::Geometry;
use window_source::{Resizing, WindowSource};
use xp_base::{Rect, Wid};

/// What a paint line is to a client. Places and sizes are in pixels.
#[derive(Clone, Copy)]
pub enum Change {
    /// A new window on top, all its pixels 0.
    Opened(Geometry),
    /// The window goes.
    Closed(Wid),
    /// The window has this place, and the size that it had.
    Moved(Geometry),
    /// The window is on top.
    Raised(Wid),
    /// The rectangle of the window has other pixels perhaps.
    Damaged(Wid, Rect),
    /// The window has this size, and the place that it had.
    Resized(Geometry),
}

impl Change {
    /// The number of its window.
    pub fn wid(&self) -> Wid
        ensures { result ≡ wid_of self.now }
    {
        match self {
            Change::Opened(g) | Change::Moved(g) | Change::Resized(g) => g.wid,
            Change::Closed(wid) | Change::Raised(wid) | Change::Damaged(wid, _) => *wid,
        }
    }
}

/// What was made of a client for a change. It is carried out once, on that client as it then stood.
#[derive(Drop)]
pub enum Prepared {
    Nothing,
    /// A new window's source and its announcement.
    Window(WindowSource<Region>, Packet<Region>),
    /// That a window goes.
    Lost(Packet<Region>),
    /// That a window has another place, or is on top.
    Message(Packet<Region>),
    /// What is pending of a window then.
    Pending(Region),
    /// What a window's resize needs.
    Resized(Resizing<Region>),
}
