// What is owed.
ghost use Rattle.std.specs.Prelude.{◌≡◌};
ghost use Rattle.std.specs.List.{list_any};
ghost use Rattle.client_connection.specs.Owed.{source_owes, draw_relieves};

use crate::client::Client;
use crate::packet::Packet;
use crate::source::Source;
use xp_base::Wid;

impl Client {
    ghost use Rattle.client_connection.specs.Owed.{client_owes};

    /// Whether the point is to be captured, or a draw that waits repairs it.
    pub fn owes(&self, wid: Wid, x: u32, y: u32) -> bool
        ensures { result ≡ client_owes wid x y self.now }
    {
        any_pending(&self.sources, wid, x, y) || any_relieves(&self.packets, wid, x, y)
    }
}

fn any_pending(sources: &[Source], wid: Wid, x: u32, y: u32) -> bool
    ensures { result ≡ list_any (λ s. source_owes wid x y s) sources.now }
{
    sources.iter().any(|source| is_pending(source, wid, x, y))
}

fn is_pending(source: &Source, wid: Wid, x: u32, y: u32) -> bool
    ensures { result ≡ source_owes wid x y source.now }
{
    source.wid.get() == wid.get() && source.pending.has(x, y)
}

fn any_relieves(packets: &[Packet], wid: Wid, x: u32, y: u32) -> bool
    ensures { result ≡ list_any (λ p. draw_relieves wid x y p.draw) packets.now }
{
    packets.iter().any(|packet| relieves(packet, wid, x, y))
}

fn relieves(packet: &Packet, wid: Wid, x: u32, y: u32) -> bool
    ensures { result ≡ draw_relieves wid x y packet.now.draw }
{
    match &packet.draw {
        Some(draw) => draw.wid.get() == wid.get() && draw.relief.has(x, y),
        None => false,
    }
}
