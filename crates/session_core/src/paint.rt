// Paint steps.
ghost use Rattle.std.specs.Prelude.{◌≡◌, OnOk, OnErr, map};
ghost use Rattle.first_script.specs.Painting.{painted};
ghost use Rattle.first_script.specs.Validity.{IsPaintOn};
ghost use Rattle.client_connection.specs.Clients.{painted_client, plain, damaged};
ghost use Rattle.std.specs.Option.{option_map};
ghost use Rattle.window_model.specs.Desktop.{IsInWindow, filled_on};
ghost use Rattle.session_core.specs.Slots.{plain_clients};

use crate::answers::Painted;
use crate::opening::open_window;
use crate::state::Session;
use client_connection::{Client, Geometry};
use first_script::{Paint, desk_at_next};
use link_bay::Bay;
use std::alloc::Global;
use window_model::Desk;
use xp_base::{NoMemory, Pixel, Rect, Wid};

impl<B: Bay + Drop> Session<B> {
    ghost use Rattle.session_core.specs.Steps.{Paints};

    /// Applies the next paint line to the desktop, and tells each client that is attached.
    #[tactic(auto, using(crate::proofs::Lives::live_changed, crate::proofs::Lives::live_same, crate::proofs::Lives::length_changed, crate::proofs::Lives::length_same))]
    pub fn paint(&mut self) -> Painted
        ensures answer { Paints self.old result self.new }
        ensures bay { self.new.bay ≡ self.old.bay }
    {
        desk_at_next();
        let _count = self.paints.len();
        let _windows = self.desk.len();
        let Some(line) = self.paints.line(self.place) else {
            return Painted::Finished;
        };
        match apply(self.alloc, &mut self.desk, &mut self.clients, line) {
            Ok(()) => {
                self.place += 1;
                Painted::Done
            }
            Err(NoMemory) => Painted::NoMemory,
        }
    }
}

/// Applies a paint line to the desktop and for each client, or changes nothing.
fn apply(
    alloc: Global,
    desk: &mut Desk,
    clients: &mut Vec<Option<Client>>,
    line: &Paint,
) -> Result<(), NoMemory>
    requires { IsPaintOn desk.old line.now }
    ensures desk_ok { OnOk result (desk.new ≡ painted desk.old line.now) }
    ensures clients_ok { OnOk result (plain_clients clients.new.items ≡ map (option_map (painted_client line.now)) (plain_clients clients.old.items)) }
    ensures desk_err { OnErr result (desk.new ≡ desk.old) }
    ensures clients_err { OnErr result (plain_clients clients.new.items ≡ plain_clients clients.old.items) }
{
    match *line {
        Paint::Open { wid, x, y, w, h } => {
            let geometry = Geometry::new(wid, x, y, w, h);
            open_window(alloc, desk, clients, &geometry)
        }
        Paint::Fill { wid, x, y, w, h, c } => {
            fill_window(desk, clients, wid, Rect { x, y, w, h }, c);
            Ok(())
        }
    }
}

fn fill_window(desk: &mut Desk, clients: &mut Vec<Option<Client>>, wid: Wid, r: Rect, colour: Pixel)
    requires { IsInWindow desk.old wid r }
    ensures desk { desk.new ≡ filled_on desk.old wid r colour }
    ensures clients { plain_clients clients.new.items ≡ map (option_map (damaged wid r)) (plain_clients clients.old.items) }
{
    desk.fill(wid, r, colour);
    damage_all(clients, wid, r);
}

fn damage_all(clients: &mut Vec<Option<Client>>, wid: Wid, r: Rect)
    ensures { plain_clients clients.new.items ≡ map (option_map (damaged wid r)) (plain_clients clients.old.items) }
{
    for slot in clients.iter_mut() {
        damage_slot(slot, wid, r);
    }
}

fn damage_slot(slot: &mut Option<Client>, wid: Wid, r: Rect)
    ensures { option_map plain slot.new ≡ option_map (damaged wid r) (option_map plain slot.old) }
{
    if let Some(client) = slot {
        client.damage(wid, r);
    }
}
