// Reading a value.
ghost use Rattle.std.specs.Prelude.{◌≡◌, ◌≢◌};
ghost use Rattle.bencode_values.specs.Reading.{Reads};
ghost use Rattle.bencode_values.specs.declared.reading.Read.{Read};
ghost use Rattle.bencode_values.specs.declared.reading.Read.TheVariants as R;

use crate::reader::value_at;
use crate::reading::Read;
use crate::stop::Stop;
use std::alloc::Global;

/// What the bytes begin with: a value's spelling, a part of one and nothing else, or neither, from the least place
/// on at which that can be known.
pub fn read_value(alloc: Global, bytes: &[u8]) -> Read
    // The answer is so.
    ensures told { Reads bytes.now result }
    // No other answer is, but for want of memory.
    ensures only { (answer : Read) → Reads bytes.now answer → answer ≢ R.NoMemory → result ≢ R.NoMemory → result ≡ answer }
{
    match value_at(alloc, bytes, 0, 0) {
        Ok((value, used)) => Read::Whole(value, used),
        Err(Stop::Short) => Read::Short,
        Err(Stop::Bad(place, why)) => Read::Bad(place, why),
        Err(Stop::NoMemory) => Read::NoMemory,
    }
}
