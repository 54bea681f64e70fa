// The client of a connection, where its hello was accepted.
ghost use Rattle.std.specs.Prelude.{◌≡◌, ◌<◌, ◌≤◌, IfOk, OnOk};
ghost use Rattle.std.specs.Option.{option_map};
ghost use Rattle.link_bay.specs.Connections.{OthersStay};
ghost use Rattle.xp_base.specs.Clocks.{last_moment};
ghost use Rattle.attached_client.specs.Client.{client_in};
ghost use Rattle.last_draws.specs.DrawnThrough.{IsNearer};
ghost use Rattle.open_connection.specs.Changing.{FitsIn, IsPreparedIn, ChangesIn};
ghost use Rattle.open_connection.specs.Drawing.{ForItsClient, DrawsAlone};
ghost use Rattle.open_connection.specs.Sending.{SendsThere};

use attached_client::{Attached, Change, Prepared};
use client_outbox::Out;
use last_draws::draw_window;
use link_bay::Bay;
use std::alloc::Global;
use window_model::Win;
use xp_base::{Conn, NoMemory};

/// What a change needs of the client, where there is one.
pub(crate) fn preparing(
    client: &mut Option<Attached>,
    change: Change,
    now: u64,
) -> Result<Option<Prepared>, NoMemory>
    requires fits { FitsIn change client.old }
    requires by_clock { now ≤ last_moment }
    ensures same { option_map client_in client.new ≡ option_map client_in client.old }
    ensures ready { IfOk result (IsPreparedIn change now client.new) }
{
    match client {
        Some(attached) => Ok(Some(attached.preparing(change, now)?)),
        None => Ok(None),
    }
}

/// Carries out what was made for it.
pub(crate) fn carry_out(
    client: &mut Option<Attached>,
    change: Change,
    now: u64,
    prepared: Option<Prepared>,
)
    requires made { IsPreparedIn change now client.old prepared }
    requires by_clock { now ≤ last_moment }
    ensures { ChangesIn change now (option_map client_in client.old) (option_map client_in client.new) }
{
    if let Some(attached) = client {
        if let Some(prepared) = prepared {
            attached.carry_out(change, now, prepared);
        }
    }
}

/// Writes once to the client, where there is one; else nothing waits.
pub(crate) fn send<B: Bay>(client: &mut Option<Attached>, bay: &mut B, c: Conn, max: u32) -> Out
    requires known { c.0 < (B.provider bay.old).count }
    requires some { 1 ≤ max }
    ensures answer { SendsThere B.connection bay.old bay.new c.0 client.old max result client.new }
    ensures others { OthersStay (B.connection bay.old) (B.connection bay.new) c.0 }
    ensures provider { B.provider bay.new ≡ B.provider bay.old }
{
    match client {
        Some(attached) => attached.send(bay, c, max),
        None => Out::Idle,
    }
}

/// Draws the window at once for the client, where there is one.
pub(crate) fn draw(
    client: &mut Option<Attached>,
    alloc: Global,
    window: &Win,
    now: u64,
) -> Result<(), NoMemory>
    requires by_clock { now ≤ last_moment }
    ensures drawn { ForItsClient (DrawsAlone window.now now) (option_map client_in client.old) (option_map client_in client.new) }
    ensures nearer { OnOk result (ForItsClient (IsNearer window.now.wid) (option_map client_in client.old) (option_map client_in client.new)) }
{
    match client {
        Some(attached) => draw_window(attached, alloc, window, now),
        None => Ok(()),
    }
}
