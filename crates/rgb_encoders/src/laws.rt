// Laws of the codings, each the clause of a function that does nothing.
ghost use Rattle.rgb_encoders.specs.Laws.{CodedLength, DecodedShows, DecodedLength, DecodedPoint, ShownColour, Shows};

use crate::encoding::Encoded;
use xp_base::Capture;

/// How many bytes a coding gives.
pub fn coded_length()
    ensures { CodedLength }
{}

/// Decoding what was coded shows each pixel.
pub fn decoded_shows()
    ensures { DecodedShows }
{}

/// How many pixels decoding gives.
pub fn decoded_length()
    ensures { DecodedLength }
{}

/// Which pixel decoding gives at each point.
pub fn decoded_point()
    ensures { DecodedPoint }
{}

/// What a colour shows is a colour.
pub fn shown_colour()
    ensures { ShownColour }
{}

/// The bytes of a capture are decoded without a fault, and show each of its pixels.
pub fn encoded_shows(encoded: &Encoded)
    ensures { Shows encoded.now }
{
    let capture: &Capture = &encoded.capture;
    let _pixels = &capture.pixels;
}
