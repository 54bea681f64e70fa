// The next paint line.
ghost use Rattle.std.specs.Prelude.{◌≡◌, ◌+◌, ◌<◌, length};
ghost use Rattle.whole_session.specs.Painting.{PaintsSo};

use crate::session::Session;
use line_changes::{a_line_changes_the_desktop_so, a_line_opens_its_number};
use link_bay::Bay;
use paint_script::{Paints, desk_at_next, opened_numbers, valid_desks};
use session_steps::{Painted, a_paint_line_keeps_a_session};

impl<B: Bay + Drop> Session<B> {
    /// Paints the next line, for the desktop and for each client.
    pub fn paint(&mut self) -> Painted
        ensures { PaintsSo self.old result self.new }
    {
        a_line_changes_the_desktop_so();
        a_line_opens_its_number();
        a_paint_line_keeps_a_session::<B>();
        opened_numbers();
        desk_at_next();
        valid_desks();
        let Some(line) = self.paints.line(self.place) else {
            return Painted::Finished;
        };
        if self.state.paint(line).is_err() {
            return Painted::NoMemory;
        }
        self.place = next_place(&self.paints, self.place);
        Painted::Done
    }
}

/// The place behind one that a line has.
fn next_place(paints: &Paints, place: usize) -> usize
    requires { place < length paints.now }
    ensures { result ≡ place + 1 }
{
    let _count = paints.len(); // which is a `usize`
    place + 1
}
