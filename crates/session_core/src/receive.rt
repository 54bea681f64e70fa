// Reads.
ghost use Rattle.std.specs.Prelude.{◌≡◌, ◌≤◌, ◌<◌, ℕ, false, None, IfSome, OnOk, Err, length};
ghost use Rattle.std.specs.Option.{option_map, is_some};
ghost use Rattle.link_bay.specs.Connections.{OthersStay, AllStay};
ghost use Rattle.session_core.specs.State.{is_unended};
ghost use Rattle.client_connection.specs.Clients.{plain};
ghost use Rattle.session_core.specs.Slots.{HearsSlot};
ghost use Rattle.client_connection.specs.Hearing.{IsUnbuilt};
ghost use Rattle.session_core.specs.Reading.{ending_answer as answer_of};

use crate::answers::Received;
use crate::connections::{end_client, is_open};
use crate::state::Session;
use client_connection::{Client, End, Trouble};
use first_script::Paint;
use link_bay::{Bay, Gave};
use std::alloc::Global;
use window_model::Desk;
use xp_base::Conn;

/// How many bytes one read asks for at most.
const READ_LIMIT: u32 = 4096;

impl<B: Bay + Drop> Session<B> {
    ghost use Rattle.session_core.specs.State.{KeepsWindows, ends_with};
    ghost use Rattle.session_core.specs.Steps.{with_end, Receives, receive_ends};
    ghost use Rattle.session_core.specs.Causes.{DropMeans};
    ghost use Rattle.session_core.specs.Reading.{ending_answer};

    /// Reads once from the connection, and handles each packet that is then whole.
    pub fn receive(&mut self, c: Conn) -> Received
        ensures answer { Receives B.connection c.0 self.old result self.new }
        ensures windows { KeepsWindows self.old self.new }
        ensures ends { self.new.ends ≡ ends_with (receive_ends result) c.0 self.old.ends }
        ensures ended { IfSome (receive_ends result) (λ e. is_unended e ≡ false) }
        ensures means { IfSome (receive_ends result) (λ e. DropMeans self.new.lines (B.connection self.old.bay c.0) e (B.connection self.new.bay c.0)) }
        ensures some { (n : ℕ) → result ≡ Received.Took n → 1 ≤ n }
        ensures others { OthersStay (B.connection self.old.bay) (B.connection self.new.bay) c.0 }
        ensures provider { B.provider self.new.bay ≡ B.provider self.old.bay }
    {
        let k = c.0 as usize;
        if !is_open(&self.clients, k) {
            return Received::Closed;
        }
        let _count = self.desk.len();
        let mut bytes = Vec::new(self.alloc);
        match self.bay.read(c, &mut bytes, READ_LIMIT) {
            Gave::Bytes(count) => {
                let slot = &mut self.clients[k];
                let lines = self.paints.as_slice();
                match hear_slot(slot, self.alloc, bytes.as_slice(), lines, &self.desk) {
                    Ok(()) => Received::Took(count),
                    Err(trouble) => {
                        let end = trouble.end();
                        end_client(&mut self.clients, &mut self.ends, &mut self.bay, c, end);
                        ended(end)
                    }
                }
            }
            Gave::Again => Received::Again,
            Gave::End => self.end_reading(c, End::Unbuilt),
            Gave::Failed => self.end_reading(c, End::Unbuilt),
            Gave::NoMemory => self.end_reading(c, End::Short),
        }
    }

    /// Ends the connection so, and answers that.
    fn end_reading(&mut self, c: Conn, end: End) -> Received
        requires within { c.0 < length self.old.clients }
        requires ended { is_unended end ≡ false }
        ensures answer { result ≡ ending_answer end }
        ensures session { self.new ≡ with_end c.0 end self.new.bay self.old }
        ensures connections { AllStay (B.connection self.old.bay) (B.connection self.new.bay) }
        ensures provider { B.provider self.new.bay ≡ B.provider self.old.bay }
    {
        self.drop_client(c, end);
        ended(end)
    }
}

/// How a read answers that it ended the connection so.
fn ended(end: End) -> Received
    ensures { result ≡ answer_of end }
{
    match end {
        End::Short => Received::NoMemory,
        _ => Received::Ended(end),
    }
}

fn hear_slot(
    slot: &mut Option<Client>,
    alloc: Global,
    bytes: &[u8],
    paints: &[Paint],
    desk: &Desk,
) -> Result<(), Trouble>
    ensures kept { is_some slot.new ≡ is_some slot.old }
    ensures ok { OnOk result (HearsSlot paints.now desk.now (option_map plain slot.old) bytes.now (option_map plain slot.new)) }
    ensures unbuilt { result ≡ Err Trouble.Unbuilt → IfSome (option_map plain slot.old) (λ c. IsUnbuilt paints.now desk.now c bytes.now) }
{
    match slot {
        Some(client) => client.hear(alloc, bytes, paints, desk),
        None => Ok(()),
    }
}
