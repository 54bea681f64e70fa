// What a client says of a window, and jobs in hand that are given back.
ghost use Rattle.std.specs.Prelude.{◌≡◌, ◌≢◌, ◌+◌, ◌≤◌, ◌<◌, ◌^◌, ◌↔◌, None, length, IfOk, OnOk, OnErr, IsSome};
ghost use Rattle.xp_base.specs.Clocks.{last_moment};
ghost use Rattle.delivery_model.specs.Events.{unmapped, given_back, counted};
ghost use Rattle.ack_tracker.specs.Unacknowledged.{rect_at, without_at, AckGives};
ghost use Rattle.window_source.specs.Source.{after};
ghost use Rattle.window_source.specs.Calls.{acknowledged_at, IsAgain};

use crate::source::WindowSource;
use ack_tracker::{Ack, one_draw_is_removed};
use damage_batch::delays_follow_the_load;
use rect_regions::Points;
use resize_cancel::{give_back, giving_back_is_damage};
use xp_base::NoMemory;

impl<R: Points> WindowSource<R> {
    /// The client does not show the window any more: its jobs in hand are given back.
    pub fn unmap(&mut self, now: u64) -> Result<(), NoMemory>
        requires by_clock { now ≤ last_moment }
        ensures ok { OnOk result (self.new ≡ after (unmapped now) self.old) }
        ensures same { OnErr result (self.new ≡ self.old) }
    {
        if !self.mapped {
            return Ok(());
        }
        self.recall(now)?;
        self.mapped = false;
        Ok(())
    }

    /// The jobs in hand are given back, and the window stays mapped.
    pub fn recall(&mut self, now: u64) -> Result<(), NoMemory>
        requires by_clock { now ≤ last_moment }
        ensures ok { OnOk result (self.new ≡ after (given_back now) self.old) }
        ensures same { OnErr result (self.new ≡ self.old) }
    {
        giving_back_is_damage::<R>();
        give_back(&mut self.jobs, &mut self.batch, now)?;
        Ok(())
    }

    /// The client says that it has drawn the draw with this number, in so many milliseconds; a negative time says that
    /// it could not.
    pub fn ack(&mut self, seq: i64, time: i64, now: u64) -> Result<Ack, NoMemory>
        requires by_clock { now ≤ last_moment }
        ensures ok { OnOk result (self.new ≡ after (acknowledged_at seq time now) self.old) }
        ensures stray { IfOk result (λ a. (a ≡ Ack.Stray) ↔ (rect_at self.old.unacknowledged seq ≡ None)) }
        ensures again { IfOk result (IsAgain self.old.unacknowledged seq time) }
        ensures same { OnErr result (self.new ≡ self.old) }
    {
        let Some(r) = self.acks.rect_of(seq) else {
            return Ok(Ack::Stray);
        };
        if time >= 0 {
            return Ok(self.counted(seq, time));
        }
        let pending = self.damaged_inside(r)?;
        let answer = self.counted(seq, time);
        self.put_damaged(pending, now);
        Ok(answer)
    }

    // An acknowledgement of a draw is counted. The delay follows the load that is left.
    fn counted(&mut self, seq: i64, time: i64) -> Ack
        requires there { IsSome (rect_at self.old.unacknowledged seq) }
        ensures counted { self.new ≡ after (counted (without_at self.old.unacknowledged seq)) self.old }
        ensures answer { AckGives self.old.unacknowledged self.new.unacknowledged seq time result }
    {
        one_draw_is_removed();
        delays_follow_the_load::<R>();
        let before = self.load();
        let answer = self.acks.ack(seq, time);
        self.batch.on_ack(before - 1);
        answer
    }
}
