// What a client says.
ghost use Rattle.std.specs.Prelude.{◌≡◌, ◌≢◌, ◌≤◌, min, pos, true, false, [], None, Ok, IfOk, OnOk, OnErr};
ghost use Rattle.ack_tracker.specs.declared.ack.Ack.TheVariants as A;
ghost use Rattle.packet_kinds.specs.declared.from_client.FromClient.TheVariants as C;
ghost use Rattle.attached_client.specs.Acting.{acted_client, ignored, Does};
ghost use Rattle.xp_base.specs.Clocks.{last_moment};
ghost use Rattle.xp_base.specs.Counts.{greatest};
ghost use Rattle.attached_client.specs.Client.{weight, pixels_in_hand};

use crate::client::{Attached, put, source_place};
use crate::packets::plain_packet_of;
use ack_tracker::Ack;
use packet_kinds::{FromClient, ToClient};
use rect_regions::Region;
use window_source::WindowSource;
use xp_base::{NoMemory, keyed_keeps, keyed_places};

/// From this weight on a ping is not answered.
const WEIGHT_LIMIT: u64 = 33_554_432;

impl Attached {
    /// Acts on a message of the client at this moment, in milliseconds. Answers whether it was ignored.
    pub fn act(&mut self, message: &FromClient, now: u64) -> Result<bool, NoMemory>
        requires { now ≤ last_moment }
        ensures ok { OnOk result (self.new.client ≡ acted_client now message.now self.old.client) }
        ensures same { OnErr result (self.new.client ≡ self.old.client) }
        ensures answer { IfOk result (λ answer. answer ≡ ignored message.now self.old.client.seen) }
    {
        match message {
            FromClient::MapWindow { wid, further: _ } => Ok(self.map(*wid)),
            FromClient::UnmapWindow { wid, further: _ } => self.unmap(*wid, now),
            FromClient::DamageSequence {
                packet_sequence,
                wid,
                width: _,
                height: _,
                decode_time,
                message: _,
            } => self.acknowledge(*wid, *packet_sequence, *decode_time, now),
            FromClient::BufferRefresh { wid, further: _ } => self.refresh(*wid, now),
            FromClient::Ping { t, further: _ } => self.answer(*t),
            FromClient::Hello { caps: _ } => Ok(true),
            FromClient::Other => Ok(true),
            FromClient::Disconnect { further: _ } => Ok(false),
        }
    }

    fn map(&mut self, wid: i64) -> bool
        ensures { Does (C.MapWindow wid []) 0 self.old.client (Ok result) self.new.client }
    {
        keyed_places::<WindowSource<Region>>();
        keyed_keeps::<WindowSource<Region>>();
        match source_place(&self.sources, wid) {
            Some(place) => {
                self.sources[place].map();
                false
            }
            None => true,
        }
    }

    fn unmap(&mut self, wid: i64, now: u64) -> Result<bool, NoMemory>
        requires { now ≤ last_moment }
        ensures { Does (C.UnmapWindow wid []) now self.old.client result self.new.client }
    {
        keyed_places::<WindowSource<Region>>();
        keyed_keeps::<WindowSource<Region>>();
        let Some(place) = source_place(&self.sources, wid) else {
            return Ok(true);
        };
        self.sources[place].unmap(now)?;
        Ok(false)
    }

    fn refresh(&mut self, wid: i64, now: u64) -> Result<bool, NoMemory>
        requires { now ≤ last_moment }
        ensures { Does (C.BufferRefresh wid []) now self.old.client result self.new.client }
    {
        keyed_places::<WindowSource<Region>>();
        keyed_keeps::<WindowSource<Region>>();
        let Some(place) = source_place(&self.sources, wid) else {
            return Ok(true);
        };
        self.sources[place].refresh_asked(now)?;
        Ok(false)
    }

    fn acknowledge(
        &mut self,
        wid: i64,
        sequence: i64,
        time: i64,
        now: u64,
    ) -> Result<bool, NoMemory>
        requires { now ≤ last_moment }
        ensures { Does (C.DamageSequence sequence wid (pos 0) (pos 0) time None) now self.old.client result self.new.client }
    {
        keyed_places::<WindowSource<Region>>();
        keyed_keeps::<WindowSource<Region>>();
        let Some(place) = source_place(&self.sources, wid) else {
            return Ok(true);
        };
        let ack = self.sources[place].ack(sequence, time, now)?;
        Ok(is_stray(ack))
    }

    /// Answers a ping with its time, where not too much waits.
    fn answer(&mut self, t: i64) -> Result<bool, NoMemory>
        ensures { Does (C.Ping t []) 0 self.old.client result self.new.client }
    {
        if self.weight() >= WEIGHT_LIMIT {
            return Ok(true);
        }
        let echo = ToClient::PingEcho { t };
        let packet = plain_packet_of(*self.sources.allocator(), &echo)?;
        put(&mut self.out, packet)?;
        Ok(false)
    }

    /// The pixels of its jobs in hand and the bytes that wait to be written, or the greatest `u64` where they are more.
    pub fn weight(&self) -> u64
        ensures { result ≡ weight self.now.client.seen }
    {
        pixels_of(&self.sources).saturating_add(self.out.weight())
    }
}

/// The pixels of the jobs in hand of all sources, or the greatest `u64` where they are more.
fn pixels_of(sources: &[WindowSource<Region>]) -> u64
    ensures { result ≡ min (pixels_in_hand sources.now) greatest }
{
    let mut pixels: u64 = 0;
    for source in sources {
        pixels = pixels.saturating_add(source.pixels());
    }
    pixels
}

/// Whether no unacknowledged draw had the number.
fn is_stray(ack: Ack) -> bool
    ensures stray { ack ≡ A.Stray → result ≡ true }
    ensures other { ack ≢ A.Stray → result ≡ false }
{
    match ack {
        Ack::Stray => true,
        Ack::Counted => false,
        Ack::Again(_) => false,
    }
}
