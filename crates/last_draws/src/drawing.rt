// A window of a client is drawn at once.
ghost use Rattle.std.specs.Prelude.{◌≡◌, ◌≤◌, OnOk};
ghost use Rattle.xp_base.specs.Clocks.{last_moment};
ghost use Rattle.last_draws.specs.DrawnThrough.{DrawsWindow, IsNearer, OthersStay};
ghost use Rattle.last_draws.specs.Filing.{FilesSome, FilesThrough};

use attached_client::{Attached, captures_and_results_are_drawn, drawing_keeps_a_client};
use capture_jobs::{Filed, NewJobs};
use delivery_log::results_in_order_draw_a_window_out;
use delivery_model::{empty_sets_have_no_point, points_are_their_tests};
use encode_pool::encode_job;
use rect_regions::Region;
use std::alloc::Global;
use window_model::Win;
use window_source::{Caught, Mode, WindowSource};
use xp_base::{JobId, NoMemory, Wid, keyed_finds};

/// Gives the window's jobs in hand back, captures it without limits of time, load and weight, and encodes and files each of
/// its jobs at this moment, in milliseconds. A window that the client has not, or does not show, is left as it is.
pub fn draw_window(
    client: &mut Attached,
    alloc: Global,
    window: &Win,
    now: u64,
) -> Result<(), NoMemory>
    requires by_clock { now ≤ last_moment }
    ensures drawn { DrawsWindow window.now now client.old.client client.new.client }
    ensures others { OthersStay window.now.wid client.old.client client.new.client }
    ensures nearer { OnOk result (IsNearer window.now.wid client.old.client client.new.client) }
{
    keyed_finds::<WindowSource<Region>>();
    drawing_keeps_a_client();
    captures_and_results_are_drawn();
    results_in_order_draw_a_window_out();
    points_are_their_tests();
    empty_sets_have_no_point();
    client.recall(window.wid, now)?;
    let Some(caught) = client.capture(window, Mode::Last, now, JobId(1)) else {
        return Ok(());
    };
    match caught {
        Caught::Jobs(jobs) => file_all(client, alloc, window.wid, jobs, now),
        Caught::NoMemory => Err(NoMemory),
        _ => Ok(()),
    }
}

/// Encodes each of the jobs and files it, in their order.
fn file_all(
    client: &mut Attached,
    alloc: Global,
    wid: Wid,
    jobs: NewJobs,
    now: u64,
) -> Result<(), NoMemory>
    requires by_clock { now ≤ last_moment }
    ensures some { FilesSome wid now client.old.client client.new.client }
    ensures all { OnOk result (FilesThrough wid now jobs client.old.client client.new.client) }
{
    let mut left = jobs.into_vec();
    'jobs: while !left.is_empty() {
        let Ok(done) = encode_job(alloc, left.remove(0)) else {
            return Err(NoMemory);
        };
        match client.file(wid, done, now) {
            Filed::Filed => {}
            _ => return Err(NoMemory),
        }
    }
    Ok(())
}
