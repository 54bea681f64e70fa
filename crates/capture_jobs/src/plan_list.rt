// The rectangles of one capture.
ghost use Rattle.std.specs.Prelude.{◌≡◌};

use crate::planned::Planned;
use std::marker::Model;

/// The rectangles of one capture, in the order in which they become jobs.
#[derive(Drop)]
pub struct Plan(Vec<Planned>);

impl Model for Plan {
    ghost use Rattle.std.specs.Prelude.{List};
    ghost use Rattle.delivery_model.specs.Events.{Planned};

    ghost Value = { List Planned };

    ghost view = { λ p. p.0.items };
}

impl Plan {
    pub fn new(items: Vec<Planned>) -> Plan
        ensures { result ≡ items.items }
    {
        Plan(items)
    }

    pub fn as_slice(&self) -> &[Planned]
        ensures { result.now ≡ self.now }
    {
        self.0.as_slice()
    }

    pub fn into_vec(self) -> Vec<Planned>
        ensures { result.items ≡ self }
    {
        let Plan(items) = self;
        items
    }
}
