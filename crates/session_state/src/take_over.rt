// A later connection takes earlier ones over.
ghost use Rattle.std.specs.Prelude.{◌≡◌, ◌≤◌, ◌<◌, length, slice_get, slice_set, option_copied, Some};
ghost use Rattle.link_bay.specs.Connections.{AllStay};
ghost use Rattle.connection_ends.specs.declared.end.End.{End};
ghost use Rattle.connection_table.specs.Tables.{Slot, Away, Ended};
ghost use Rattle.open_connection.specs.Connection.{ConnectionSeen};
ghost use Rattle.session_steps.specs.Slots.{taken_over, change_first};
ghost use Rattle.session_state.specs.Views.{slots_in, is_named_in};

use connection_ends::End;
use connection_table::Table;
use link_bay::Bay;
use open_connection::Connection;
use xp_base::Conn;

/// The connection that was taken out has ended so, and is closed.
pub(crate) fn close<B: Bay>(table: &mut Table<Connection, End>, bay: &mut B, c: Conn, end: End)
    requires taken { slice_get table.old.slots c.0 ≡ Some Away }
    requires known { c.0 < (B.provider bay.old).count }
    ensures slots { table.new.slots ≡ slice_set table.old.slots c.0 (Ended end) }
    ensures connections { AllStay (B.connection bay.old) (B.connection bay.new) }
    ensures provider { B.provider bay.new ≡ B.provider bay.old }
{
    table.end(c.0 as usize, end);
    bay.close(c);
}

/// Drops what was kept of a connection.
pub(crate) fn discard(_connection: Connection) {}

/// Ends each connection before `c` whose client has this uuid.
pub(crate) fn take_over<B: Bay>(
    table: &mut Table<Connection, End>,
    bay: &mut B,
    c: Conn,
    uuid: &[u8],
)
    requires within { c.0 ≤ length table.old.slots }
    requires counted { length table.old.slots ≡ (B.provider bay.old).count }
    ensures slots { slots_in table.new.slots ≡ change_first (taken_over c uuid.now) c.0 (slots_in table.old.slots) }
    ensures connections { AllStay (B.connection bay.old) (B.connection bay.new) }
    ensures provider { B.provider bay.new ≡ B.provider bay.old }
{
    for number in 0..c.0 {
        take_over_one(table, bay, Conn(number), c, uuid);
    }
}

/// Ends the connection with this number by `c`, where its client has this uuid.
fn take_over_one<B: Bay>(
    table: &mut Table<Connection, End>,
    bay: &mut B,
    earlier: Conn,
    c: Conn,
    uuid: &[u8],
)
    requires within { earlier.0 < length table.old.slots }
    requires counted { length table.old.slots ≡ (B.provider bay.old).count }
    ensures slots { (slot : Slot ConnectionSeen End) → slice_get (slots_in table.old.slots) earlier.0 ≡ Some slot → slots_in table.new.slots ≡ slice_set (slots_in table.old.slots) earlier.0 (taken_over c uuid.now slot) }
    ensures connections { AllStay (B.connection bay.old) (B.connection bay.new) }
    ensures provider { B.provider bay.new ≡ B.provider bay.old }
{
    if is_named(table.get(earlier.0 as usize), uuid) {
        if let Some(taken) = table.take(earlier.0 as usize) {
            discard(taken);
            close(table, bay, earlier, End::TakenOver(c));
        }
    }
}

/// Whether the connection's client has this uuid, and it is not empty.
fn is_named(connection: Option<&Connection>, uuid: &[u8]) -> bool
    ensures { result ≡ is_named_in uuid.now (option_copied connection.entry) }
{
    match connection {
        Some(open) => match open.caps() {
            Some(caps) => !uuid.is_empty() && caps.uuid.as_slice() == uuid,
            None => false,
        },
        None => false,
    }
}
