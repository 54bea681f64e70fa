// A window is opened: what each client needs is prepared first, and then put in.
ghost use Rattle.std.specs.Prelude.{◌≡◌, false, OnOk, OnErr, IfSome, All, map};
ghost use Rattle.std.specs.Option.{option_map};
ghost use Rattle.window_model.specs.Desktop.{IsSide, IsPlace, has_window, opened};
ghost use Rattle.client_connection.specs.Clients.{plain, announced, IsReady};
ghost use Rattle.session_core.specs.Slots.{plain_clients};

use client_connection::{Client, Geometry};
use std::alloc::Global;
use window_model::Desk;
use xp_base::NoMemory;

/// Opens a window on the desktop and for each client whose hello was accepted, or changes nothing.
pub(crate) fn open_window(
    alloc: Global,
    desk: &mut Desk,
    clients: &mut Vec<Option<Client>>,
    geometry: &Geometry,
) -> Result<(), NoMemory>
    requires new { has_window desk.old geometry.now.wid ≡ false }
    requires across { IsPlace geometry.now.x }
    requires down { IsPlace geometry.now.y }
    requires wide { IsSide geometry.now.w }
    requires high { IsSide geometry.now.h }
    ensures desk_ok { OnOk result (desk.new ≡ opened desk.old geometry.now.wid geometry.now.x geometry.now.y geometry.now.w geometry.now.h) }
    ensures clients_ok { OnOk result (plain_clients clients.new.items ≡ map (option_map (announced geometry.now)) (plain_clients clients.old.items)) }
    ensures desk_err { OnErr result (desk.new ≡ desk.old) }
    ensures clients_err { OnErr result (plain_clients clients.new.items ≡ plain_clients clients.old.items) }
{
    prepare_all(alloc, clients, geometry)?;
    desk.add(geometry.wid, geometry.x, geometry.y, geometry.w, geometry.h)?;
    announce_all(clients, geometry);
    Ok(())
}

/// Prepares the window for each client. What clients see stays, whatever the answer.
fn prepare_all(
    alloc: Global,
    clients: &mut Vec<Option<Client>>,
    geometry: &Geometry,
) -> Result<(), NoMemory>
    requires across { IsPlace geometry.now.x }
    requires down { IsPlace geometry.now.y }
    requires wide { IsSide geometry.now.w }
    requires high { IsSide geometry.now.h }
    ensures same { plain_clients clients.new.items ≡ plain_clients clients.old.items }
    ensures ready { OnOk result (All (λ slot. IfSome slot (IsReady geometry.now)) clients.new.items) }
{
    for i in 0..clients.len() {
        let slot = &mut clients[i];
        prepare_slot(alloc, slot, geometry)?;
    }
    Ok(())
}

fn prepare_slot(
    alloc: Global,
    slot: &mut Option<Client>,
    geometry: &Geometry,
) -> Result<(), NoMemory>
    requires across { IsPlace geometry.now.x }
    requires down { IsPlace geometry.now.y }
    requires wide { IsSide geometry.now.w }
    requires high { IsSide geometry.now.h }
    ensures same { option_map plain slot.new ≡ option_map plain slot.old }
    ensures ready { OnOk result (IfSome slot.new (IsReady geometry.now)) }
{
    match slot {
        Some(client) => client.prepare(alloc, geometry),
        None => Ok(()),
    }
}

fn announce_all(clients: &mut Vec<Option<Client>>, geometry: &Geometry)
    requires { All (λ slot. IfSome slot (IsReady geometry.now)) clients.old.items }
    ensures { plain_clients clients.new.items ≡ map (option_map (announced geometry.now)) (plain_clients clients.old.items) }
{
    for slot in clients.iter_mut() {
        announce_slot(slot, geometry);
    }
}

fn announce_slot(slot: &mut Option<Client>, geometry: &Geometry)
    requires { IfSome slot.old (IsReady geometry.now) }
    ensures { option_map plain slot.new ≡ option_map (announced geometry.now) (option_map plain slot.old) }
{
    if let Some(client) = slot {
        client.announce(geometry);
    }
}
