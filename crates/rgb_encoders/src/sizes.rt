// How many bytes a pixel has.
ghost use Rattle.std.specs.Prelude.{◌≡◌};
ghost use Rattle.rgb_encoders.specs.PixelBytes.{pixel_size};

use xp_base::Coding;

/// How many bytes a pixel has in a coding.
pub fn pixel_size(coding: Coding) -> u32
    ensures { result ≡ pixel_size coding }
{
    match coding {
        Coding::Exact => 4,
        Coding::Lossy => 2,
    }
}
