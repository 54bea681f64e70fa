// The packets of one read, one after another.
ghost use Rattle.std.specs.Prelude.{◌≡◌, ◌+◌, ◌≤◌, min, None, Some, if◌then◌else◌};
ghost use Rattle.xp_base.specs.Clocks.{last_moment};
ghost use Rattle.xp_base.specs.Counts.{greatest};
ghost use Rattle.std.specs.Option.{option_map};
ghost use Rattle.client_talk.specs.Talked.{is_leaving};
ghost use Rattle.attached_client.specs.Client.{client_in};
ghost use Rattle.attached_client.specs.Acting.{acts};
ghost use Rattle.open_connection.specs.Reading.{HearsLeft, TakesPacket};

use crate::heard::Heard;
use attached_client::Attached;
use bencode_values::Value;
use client_talk::Ending;
use hello_caps::{HelloRead, read_hello};
use packet_frames::{Framer, Next, a_packet_given_was_the_next};
use packet_kinds::{FromClient, KindFault, TalkFault, read_from_client};
use std::alloc::Global;
use window_model::Desk;
use xp_base::Conn;

/// What stands beside a client that says something: its connection, the desktop, and the moment in milliseconds.
#[derive(Drop)]
pub(crate) struct Surroundings<'a> {
    pub alloc: Global,
    pub conn: Conn,
    pub desk: &'a Desk,
    pub moment: u64,
}

/// What one packet comes to.
pub(crate) enum Step {
    /// It was handled, and perhaps ignored.
    Handled(bool),
    Ends(Ending),
    NoMemory,
}

/// Handles all packets that are there.
pub(crate) fn hear_packets(
    framer: &mut Framer,
    client: &mut Option<Attached>,
    beside: &Surroundings,
) -> Heard
    requires { beside.now.moment ≤ last_moment }
    ensures { HearsLeft (acts beside.now.desk.now beside.now.conn.0 beside.now.moment) framer.old (option_map client_in client.old) result framer.new (option_map client_in client.new) }
{
    a_packet_given_was_the_next();
    let mut ignored: u64 = 0;
    loop {
        match framer.next() {
            Next::Packet(place, value) => match take_packet(client, beside, place, value) {
                Step::Handled(was_ignored) => ignored = counted(ignored, was_ignored),
                Step::Ends(ending) => return Heard::Ends(ending, ignored),
                Step::NoMemory => return Heard::NoMemory(ignored),
            },
            Next::Need => return Heard::GoesOn(ignored),
            Next::Bad(place, fault) => {
                return Heard::Ends(Ending::Broken(place, TalkFault::Frame(fault)), ignored);
            }
            Next::NoMemory => return Heard::NoMemory(ignored),
        }
    }
}

/// Handles a packet: the first as the hello, the others as messages.
fn take_packet(
    client: &mut Option<Attached>,
    beside: &Surroundings,
    place: u64,
    value: Value,
) -> Step
    requires { beside.now.moment ≤ last_moment }
    ensures { TakesPacket (acts beside.now.desk.now beside.now.conn.0 beside.now.moment) (option_map client_in client.old) place value result (option_map client_in client.new) }
{
    match client {
        Some(attached) => take_message(attached, beside, place, &value),
        None => take_hello(client, beside, place, &value),
    }
}

/// The first packet: a client whose hello is accepted is attached.
fn take_hello(
    client: &mut Option<Attached>,
    beside: &Surroundings,
    place: u64,
    value: &Value,
) -> Step
    requires fresh { client.old ≡ None }
    requires by_clock { beside.now.moment ≤ last_moment }
    ensures { TakesPacket (acts beside.now.desk.now beside.now.conn.0 beside.now.moment) None place value.now result (option_map client_in client.new) }
{
    match read_hello(beside.alloc, value) {
        HelloRead::Accepted(caps) => {
            match Attached::new(beside.alloc, beside.conn, caps, beside.desk, beside.moment) {
                Ok(attached) => {
                    *client = Some(attached);
                    Step::Handled(false)
                }
                Err(_) => Step::NoMemory,
            }
        }
        HelloRead::Refused(fault) => Step::Ends(Ending::Refused(fault)),
        HelloRead::NoMemory => Step::NoMemory,
    }
}

/// A message of a client whose hello was accepted.
fn take_message(attached: &mut Attached, beside: &Surroundings, place: u64, value: &Value) -> Step
    requires { beside.now.moment ≤ last_moment }
    ensures { TakesPacket (acts beside.now.desk.now beside.now.conn.0 beside.now.moment) (Some attached.old.client) place value.now result (Some attached.new.client) }
{
    match read_from_client(beside.alloc, value) {
        Ok(message) => {
            if says_leaving(&message) {
                return Step::Ends(Ending::Left);
            }
            match attached.act(&message, beside.moment) {
                Ok(ignored) => Step::Handled(ignored),
                Err(_) => Step::NoMemory,
            }
        }
        Err(KindFault::Shape(item)) => Step::Ends(Ending::Broken(place, TalkFault::Shape(item))),
        Err(KindFault::NoMemory) => Step::NoMemory,
    }
}

/// Whether the client says that it leaves.
fn says_leaving(message: &FromClient) -> bool
    ensures { result ≡ is_leaving message.now }
{
    matches!(message, FromClient::Disconnect { further: _ })
}

/// How many messages were ignored, after one more that perhaps was.
fn counted(ignored: u64, was_ignored: bool) -> u64
    ensures { result ≡ (if was_ignored then min (ignored + 1) greatest else ignored) }
{
    if was_ignored {
        return ignored.saturating_add(1);
    }
    ignored
}
