// A connection that is open.
ghost use Rattle.std.specs.Prelude.{◌≡◌, ◌<◌, ◌≤◌, IfOk, OnOk, option_copied};
ghost use Rattle.xp_base.specs.Clocks.{last_moment};
ghost use Rattle.attached_client.specs.Acting.{acts};
ghost use Rattle.link_bay.specs.Connections.{OthersStay};
ghost use Rattle.open_connection.specs.Connection.{fresh, connection_in, caps_in};
ghost use Rattle.open_connection.specs.Reading.{HearsPiece};
ghost use Rattle.open_connection.specs.Changing.{FitsIn, IsPreparedIn, ConnectionChanges};
ghost use Rattle.open_connection.specs.Sending.{SendsOn};
ghost use Rattle.open_connection.specs.Clear.{is_clear_connection};
ghost use Rattle.open_connection.specs.Drawing.{ConnectionDraws, ConnectionNearer};

use crate::client::{carry_out, draw, preparing, send};
use crate::heard::Heard;
use crate::step::{Surroundings, hear_packets};
use attached_client::{Attached, Change, Prepared};
use client_outbox::Out;
use hello_caps::Caps;
use link_bay::Bay;
use packet_frames::Framer;
use std::alloc::Global;
use std::marker::Model;
use window_model::{Desk, Win};
use xp_base::{Conn, NoMemory};

/// The greatest payload or chunk that a client may send, in bytes.
const SERVER_LIMIT: u32 = 1_048_576;

/// What a session keeps of a connection that is open.
#[derive(Drop)]
pub struct Connection {
    framer: Framer,
    /// Its client, once its hello was accepted.
    client: Option<Attached>,
}

impl Model for Connection {
    ghost use Rattle.open_connection.specs.Connection.{OpenSeen};

    ghost Value = { OpenSeen };

    ghost view = { λ c. record { framing = c.framer; client = c.client } };
}

impl Connection {
    /// One that was just accepted.
    pub fn new(alloc: Global) -> Connection
        ensures { connection_in result ≡ fresh }
    {
        Connection {
            framer: Framer::new(alloc, SERVER_LIMIT),
            client: None,
        }
    }

    /// Handles the packets that become whole with this piece of its bytes, beside this desktop and at this moment, in
    /// milliseconds. The first is read as its hello.
    pub fn hear(&mut self, alloc: Global, conn: Conn, piece: &[u8], desk: &Desk, now: u64) -> Heard
        requires { now ≤ last_moment }
        ensures { HearsPiece (acts desk.now conn.0 now) self.old piece.now result self.new }
    {
        if self.framer.feed(piece).is_err() {
            return Heard::NoMemory(0);
        }
        let beside = Surroundings {
            alloc,
            conn,
            desk,
            moment: now,
        };
        hear_packets(&mut self.framer, &mut self.client, &beside)
    }

    /// What its client's hello said, where it was accepted.
    pub fn caps(&self) -> Option<&Caps>
        ensures { option_copied result ≡ caps_in (connection_in self.now) }
    {
        match &self.client {
            Some(client) => Some(client.caps()),
            None => None,
        }
    }

    /// Makes what a change at this moment, in milliseconds, needs of its client; `None` where no hello was accepted
    /// yet.
    pub fn preparing(&mut self, change: Change, now: u64) -> Result<Option<Prepared>, NoMemory>
        requires fits { FitsIn change self.old.client }
        requires by_clock { now ≤ last_moment }
        ensures same { connection_in self.new ≡ connection_in self.old }
        ensures ready { IfOk result (IsPreparedIn change now self.new.client) }
    {
        preparing(&mut self.client, change, now)
    }

    /// Carries out a change at the moment for which it was prepared. It takes no memory.
    pub fn carry_out(&mut self, change: Change, now: u64, prepared: Option<Prepared>)
        requires made { IsPreparedIn change now self.old.client prepared }
        requires by_clock { now ≤ last_moment }
        ensures { ConnectionChanges change now (connection_in self.old) (connection_in self.new) }
    {
        carry_out(&mut self.client, change, now, prepared);
    }

    /// Writes once to its client: at most `max` bytes, of what is left of the first packet that waits.
    pub fn send<B: Bay>(&mut self, bay: &mut B, c: Conn, max: u32) -> Out
        requires known { c.0 < (B.provider bay.old).count }
        requires some { 1 ≤ max }
        ensures answer { SendsOn B.connection bay.old bay.new c.0 self.old max result self.new }
        ensures others { OthersStay (B.connection bay.old) (B.connection bay.new) c.0 }
        ensures provider { B.provider bay.new ≡ B.provider bay.old }
    {
        send(&mut self.client, bay, c, max)
    }

    /// Draws what is left of a window of the desktop at once for its client, at this moment in milliseconds: in one capture, or
    /// in two where the first may be lossy.
    pub fn draw(&mut self, alloc: Global, window: &Win, now: u64) -> Result<(), NoMemory>
        requires by_clock { now ≤ last_moment }
        ensures drawn { ConnectionDraws window.now now (connection_in self.old) (connection_in self.new) }
        ensures nearer { OnOk result (ConnectionNearer window.now.wid (connection_in self.old) (connection_in self.new)) }
    {
        draw(&mut self.client, alloc, window, now)
    }

    /// Whether its hello was accepted and nothing is left to be drawn of any window of its client. Draws may wait still.
    pub fn is_clear(&self) -> bool
        ensures { result ≡ is_clear_connection (connection_in self.now) }
    {
        match &self.client {
            Some(client) => client.is_clear(),
            None => false,
        }
    }
}
