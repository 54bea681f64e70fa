// Captures, compared.
ghost use Rattle.std.specs.Prelude.{◌≡◌, ◌↔◌, IsTrue};

use xp_base::Capture;

/// Whether two captures are equal by value: their rectangles and codings are compared before their pixels.
pub fn same_capture(one: &Capture, other: &Capture) -> bool
    ensures { IsTrue result ↔ (one.now ≡ other.now) }
{
    if one.rect != other.rect {
        return false;
    }
    if one.coding != other.coding {
        return false;
    }
    one.pixels.as_slice() == other.pixels.as_slice()
}
