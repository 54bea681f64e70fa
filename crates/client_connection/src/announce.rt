// A window is announced: what a client needs is prepared first, and then put in.
ghost use Rattle.std.specs.Prelude.{◌≡◌, OnOk, IfOk};
ghost use Rattle.window_model.specs.Desktop.{IsSide, IsPlace};
ghost use Rattle.client_connection.specs.Clients.{plain, announced, announcement, IsReady};

use crate::client::Client;
use crate::geometry::Geometry;
use crate::messages::new_window_packet;
use crate::packet::{Announcement, Packet};
use crate::points::Points;
use crate::source::Source;
use std::alloc::Global;
use xp_base::{Bytes, NoMemory};

/// The source and the announcement of a window.
pub(crate) fn make_announcement(
    alloc: Global,
    geometry: &Geometry,
) -> Result<Announcement, NoMemory>
    requires across { IsPlace geometry.now.x }
    requires down { IsPlace geometry.now.y }
    requires wide { IsSide geometry.now.w }
    requires high { IsSide geometry.now.h }
    ensures { IfOk result (λ made. made ≡ announcement geometry.now) }
{
    let pending = Points::new(alloc, geometry.w, geometry.h, true)?;
    let bytes = new_window_packet(alloc, geometry)?;
    Ok(Announcement {
        source: Source {
            wid: geometry.wid,
            mapped: false,
            pending,
            next_sequence: 1,
        },
        packet: Packet {
            bytes: Bytes::new(bytes),
            draw: None,
        },
    })
}

impl Client {
    /// Prepares the window, where the hello was accepted.
    pub fn prepare(&mut self, alloc: Global, geometry: &Geometry) -> Result<(), NoMemory>
        requires across { IsPlace geometry.now.x }
        requires down { IsPlace geometry.now.y }
        requires wide { IsSide geometry.now.w }
        requires high { IsSide geometry.now.h }
        ensures same { plain self.new ≡ plain self.old }
        ensures ready { OnOk result (IsReady geometry.now self.new) }
    {
        if self.greeted {
            self.sources.reserve(1)?;
            self.packets.reserve(1)?;
            self.next = Some(make_announcement(alloc, geometry)?);
        }
        Ok(())
    }

    /// Puts in the window that was prepared. Takes no memory.
    pub fn announce(&mut self, geometry: &Geometry)
        requires { IsReady geometry.now self.old }
        ensures { plain self.new ≡ announced geometry.now (plain self.old) }
    {
        if self.greeted {
            if let Some(Announcement { source, packet }) = self.next.take() {
                self.sources.push_reserved(source);
                self.packets.push_reserved(packet);
            }
        }
    }
}
