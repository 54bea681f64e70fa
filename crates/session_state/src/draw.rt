// Windows are drawn at once.
ghost use Rattle.std.specs.Prelude.{◌≤◌, is_ok};
ghost use Rattle.xp_base.specs.Clocks.{last_moment};
ghost use Rattle.session_steps.specs.Drawing.{DrawsAt};

use crate::state::State;
use link_bay::Bay;
use xp_base::{Conn, NoMemory};

impl<B: Bay + Drop> State<B> {
    /// Draws what is left of the window at this place of the desktop, counted from the bottom, at once for the client of the
    /// connection. Where this is not open, or there is no such place, nothing changes.
    pub fn draw(&mut self, c: Conn, place: usize) -> Result<(), NoMemory>
        requires { self.old.clock ≤ last_moment }
        ensures { DrawsAt c place (is_ok result) self.old self.new }
    {
        let Some(window) = self.desk.as_slice().get(place) else {
            return Ok(());
        };
        let Some(mut connection) = self.table.take(c.0 as usize) else {
            return Ok(());
        };
        let drawn = connection.draw(self.alloc, window, self.clock);
        self.table.put_back(c.0 as usize, connection);
        drawn
    }
}
