// A run of a script, to its settling.
ghost use Rattle.std.specs.Prelude.{◌≡◌, ◌≢◌, All, true, Err, OnOk, IfOk, IsOk, length};
ghost use Rattle.xp_base.specs.Counts.{Rose};
ghost use Rattle.link_bay.specs.Provider.{IsFresh};
ghost use Rattle.first_script.specs.Painting.{last_desk};
ghost use Rattle.first_script.specs.Validity.{paint_lines, peer_orders};
ghost use Rattle.xp_base.specs.Told.{told_append};
ghost use Rattle.xpra_server.specs.Statuses.{AreEnds, AllHaveCauses};

use first_script::{Line, Script, desk_at_end};
use link_bay::Bay;
use session_core::{End, How, Painted, Session};
use std::alloc::Global;
use window_model::Desk;

/// Why a run stopped before its report.
#[derive(Clone, Copy, Debug, PartialEq, Eq)]
pub enum Stop {
    NoMemory,
    /// An accept failed.
    BayFault,
}

/// What a run leaves: the last windows, or why it stopped; the end of each connection; the provider.
#[derive(Drop)]
pub struct Played<B: Drop> {
    pub shown: Result<Desk, Stop>,
    pub ends: Vec<End>,
    pub bay: B,
}

/// Makes the lines in order, and settles the session.
pub fn play<B: Bay + Drop>(alloc: Global, script: &Script, bay: B) -> Played<B>
    requires fresh { IsFresh (B.provider bay) }
    ensures shown { IfOk result.shown (λ desk. desk ≡ last_desk (paint_lines script.now)) }
    ensures accept { result.shown ≡ Err Stop.BayFault → Rose (B.provider bay).faults (B.provider result.bay).faults }
    ensures well { result.shown ≢ Err Stop.BayFault → (B.provider result.bay).faults ≡ (B.provider bay).faults }
    ensures quiet { IsOk result.shown → Rose (B.provider bay).lulls (B.provider result.bay).lulls }
    ensures counted { length result.ends.items ≡ (B.provider result.bay).count }
    ensures ended { IsOk result.shown → AreEnds result.ends.items }
    ensures causes { AllHaveCauses B.tells (paint_lines script.now) (B.connection result.bay) result.ends.items }
    ensures fed { result.shown ≢ Err Stop.NoMemory → All (λ e. e ≢ End.Short) result.ends.items }
    ensures asked { IsOk result.shown → (B.provider result.bay).asked ≡ told_append (B.provider bay).asked (peer_orders script.now) }
    ensures served { IsOk result.shown → B.tells ≡ true → (B.provider result.bay).room ≡ 0 }
{
    let none = Vec::new(alloc);
    let Ok(paints) = script.paints(alloc) else {
        return stopped(Stop::NoMemory, none, bay);
    };
    let mut session = match Session::new(alloc, paints, bay) {
        Ok(session) => session,
        Err(bay) => return stopped(Stop::NoMemory, none, bay),
    };
    if make_lines(&mut session, script.lines()).is_err() {
        let left = session.abandon();
        return stopped(Stop::NoMemory, left.ends, left.bay);
    }
    let calm = session.settle();
    match calm.how {
        How::Settled => Played {
            shown: Ok(calm.desk),
            ends: calm.ends,
            bay: calm.bay,
        },
        How::NoMemory => stopped(Stop::NoMemory, calm.ends, calm.bay),
        How::BayFault => stopped(Stop::BayFault, calm.ends, calm.bay),
    }
}

fn stopped<B: Bay + Drop>(stop: Stop, ends: Vec<End>, bay: B) -> Played<B>
    ensures shown { result.shown ≡ Err stop }
    ensures ends { result.ends.items ≡ ends.items }
    ensures bay { result.bay ≡ bay }
{
    Played {
        shown: Err(stop),
        ends,
        bay,
    }
}

/// Each paint line is a paint step, and each peer line an order. An error is want of memory.
fn make_lines<B: Bay + Drop>(session: &mut Session<B>, lines: &[Line]) -> Result<(), Stop>
    requires start { session.old.place ≡ 0 }
    requires lines { session.old.lines ≡ paint_lines lines.now }
    ensures desk { OnOk result (session.new.desk ≡ last_desk (paint_lines lines.now)) }
    ensures faults { (B.provider session.new.bay).faults ≡ (B.provider session.old.bay).faults }
    ensures lulls { OnOk result ((B.provider session.new.bay).lulls ≡ (B.provider session.old.bay).lulls) }
    ensures asked { OnOk result ((B.provider session.new.bay).asked ≡ told_append (B.provider session.old.bay).asked (peer_orders lines.now)) }
    ensures ends { session.new.ends ≡ session.old.ends }
    ensures lines { session.new.lines ≡ session.old.lines }
{
    desk_at_end();
    for line in lines {
        match line {
            Line::Paint(_) => match session.paint() {
                Painted::Done => {}
                Painted::Finished => unreachable!(),
                Painted::NoMemory => return Err(Stop::NoMemory),
            },
            Line::Peer(order) => {
                if session.order(order).is_err() {
                    return Err(Stop::NoMemory);
                }
            }
        }
    }
    let _ = session.is_painted();
    Ok(())
}
