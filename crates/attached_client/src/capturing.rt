// Captures of a client's windows, their results, and jobs that are given back.
ghost use Rattle.std.specs.Prelude.{◌≡◌, ◌≤◌, OnOk, OnErr};
ghost use Rattle.xp_base.specs.Clocks.{last_moment};
ghost use Rattle.attached_client.specs.Capturing.{ClientCaptures, ClientFiles, recalled};
ghost use Rattle.attached_client.specs.Clear.{is_clear_client};

use crate::client::{Attached, place_of_window};
use capture_jobs::{Done, Filed};
use rect_regions::Region;
use window_model::Win;
use window_source::{Caught, Mode, WindowSource};
use xp_base::{JobId, NoMemory, Wid, keyed_keeps, keyed_places};

impl Attached {
    /// Captures this window of the desktop at this moment, in milliseconds: its jobs are numbered from `first` on. `None`
    /// where the client has not the window.
    pub fn capture(&mut self, window: &Win, mode: Mode, now: u64, first: JobId) -> Option<Caught>
        ensures { ClientCaptures mode now first.0 window.now self.old.client result self.new.client }
    {
        keyed_places::<WindowSource<Region>>();
        keyed_keeps::<WindowSource<Region>>();
        let weight = self.weight();
        let Some(place) = place_of_window(&self.sources, window.wid) else {
            return None;
        };
        let source = &mut self.sources[place];
        if !source.may_capture(window, first) {
            return Some(Caught::NoMemory);
        }
        let lossy = self.caps.lossy;
        Some(source.capture(window, lossy, now, mode, weight, first, &self.out))
    }

    /// Files a result of a job of this window at this moment, in milliseconds.
    pub fn file(&mut self, wid: Wid, done: Done, now: u64) -> Filed
        requires { now ≤ last_moment }
        ensures { ClientFiles wid now self.old.client done result self.new.client }
    {
        keyed_places::<WindowSource<Region>>();
        keyed_keeps::<WindowSource<Region>>();
        let Some(place) = place_of_window(&self.sources, wid) else {
            return Filed::Late;
        };
        let source = &mut self.sources[place];
        if !source.may_file() {
            return Filed::Back(done);
        }
        source.file(done, now, &mut self.out)
    }

    /// Gives the jobs in hand of this window back, at this moment, in milliseconds: what they relieve is pending.
    pub fn recall(&mut self, wid: Wid, now: u64) -> Result<(), NoMemory>
        requires { now ≤ last_moment }
        ensures ok { OnOk result (self.new.client ≡ recalled wid now self.old.client) }
        ensures same { OnErr result (self.new.client ≡ self.old.client) }
    {
        keyed_places::<WindowSource<Region>>();
        keyed_keeps::<WindowSource<Region>>();
        if let Some(place) = place_of_window(&self.sources, wid) {
            self.sources[place].recall(now)?;
        }
        Ok(())
    }
    /// Whether nothing is left to be drawn of any of its windows. Draws may wait still.
    pub fn is_clear(&self) -> bool
        ensures { result ≡ is_clear_client self.now.client }
    {
        self.sources.iter().all(|source| source.is_clear())
    }
}
