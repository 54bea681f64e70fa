// Damage of a source's window.
ghost use Rattle.std.specs.Prelude.{◌≡◌, ◌≤◌, IfOk, OnOk, OnErr};
ghost use Rattle.xp_base.specs.Clocks.{last_moment};
ghost use Rattle.xp_base.specs.Points.{Rectangle, LiesIn};
ghost use Rattle.window_source.specs.Calls.{IsDamaged, PutsDamage, refreshed};

use crate::source::WindowSource;
use damage_batch::damage_is_pending;
use delivery_model::points_are_their_tests;
use rect_regions::Points;
use xp_base::{NoMemory, Rect};

impl<R: Points> WindowSource<R> {
    /// What is pending, with this rectangle.
    pub fn damaged(&self, r: Rect) -> Result<R, NoMemory>
        requires lies { LiesIn self.now.wide self.now.high r }
        ensures { IfOk result (IsDamaged R.has self.now r) }
    {
        points_are_their_tests();
        let pending = self.batch.with(r)?;
        Ok(pending)
    }

    /// Puts in what `damaged` made of this source as it stands. It takes no memory.
    pub fn put_damaged(&mut self, pending: R, now: u64)
        requires made { (r : Rectangle) × IsDamaged R.has self.old r pending }
        requires by_clock { now ≤ last_moment }
        ensures { PutsDamage R.has now pending self.old self.new }
    {
        damage_is_pending::<R>();
        self.batch.set(pending, now);
    }

    /// The client wants the whole window anew.
    pub fn refresh_asked(&mut self, now: u64) -> Result<(), NoMemory>
        requires by_clock { now ≤ last_moment }
        ensures ok { OnOk result (self.new ≡ refreshed now self.old) }
        ensures same { OnErr result (self.new ≡ self.old) }
    {
        let whole = self.whole();
        let pending = self.damaged(whole)?;
        self.put_damaged(pending, now);
        Ok(())
    }

    // What is pending, with what of this rectangle is in the window.
    pub(crate) fn damaged_inside(&self, rect: Rect) -> Result<R, NoMemory>
        ensures { IfOk result (IsDamaged R.has self.now rect) }
    {
        points_are_their_tests();
        let mut pending = self.batch.with(rect)?;
        pending.clip(self.whole())?;
        Ok(pending)
    }
}
