// One rectangle of a plan.
ghost use Rattle.std.specs.Prelude.{◌≡◌};

use std::marker::Model;
use xp_base::{Coding, Rect};

/// A rectangle of the window that is to be captured, and how its pixels are to be coded.
#[derive(Clone, Copy)]
pub struct Planned {
    pub rect: Rect,
    pub coding: Coding,
}

impl Model for Planned {
    ghost use Rattle.delivery_model.specs.Events.{Planned};

    ghost Value = { Planned };

    ghost view = { λ p. record { rect = p.rect; coding = p.coding } };

    ghost inverse = { λ p. record { rect = p.rect; coding = p.coding } };
}
