// What holds of all streams.
ghost use Rattle.std.specs.Prelude.{◌≡◌, ◌≢◌, ◌<◌, ℕ, ℤ, true, false, List, [], ◌∷◌, ◌++◌, Some, None, slice_get, slice_set, if◌then◌else◌};
ghost use Rattle.std.specs.List.{AllByRecursion};
ghost use Rattle.bencode_values.specs.Reading.{Reads};
ghost use Rattle.bencode_values.specs.declared.reading.Read.TheVariants as R;
ghost use Rattle.bencode_values.specs.declared.value.Value.{Value};
ghost use Rattle.bencode_values.specs.declared.value.Value.TheVariants as V;
ghost use Rattle.bencode_values.specs.declared.value.Pair.{Pair};
ghost use Rattle.packet_frames.specs.Framing.{is_empty_string, put_in, read_of};
ghost use Rattle.packet_frames.specs.Stream.{Stream, read_on};
ghost use Rattle.packet_frames.specs.Texts.{PacketsAreOfBytes};
ghost use Rattle.packet_frames.specs.Written.{WrittenFollows, PartAddsNone};

/// What a content reads as is what the bencode reader's contract says of it, and never want of memory.
pub fn a_content_reads_as_its_grammar_says()
    ensures { (content : List ℕ) → AllByRecursion (λ byte. byte < 256) content → Reads content (read_of content) × (read_of content ≢ R.NoMemory) }
{}

/// A chunk's bytes in the place of an item, by the form of the value, and which items are empty byte strings.
pub fn a_chunk_is_put_in_by_form()
    ensures list { (items : List Value) (index : ℕ) (bytes : List ℕ) → put_in (V.List items) index bytes
        ≡ (if is_empty_string (slice_get items index) then Some (V.List (slice_set items index (V.Bytes bytes))) else None) }
    ensures int { (n : ℤ) (index : ℕ) (bytes : List ℕ) → put_in (V.Int n) index bytes ≡ None }
    ensures bytes { (text : List ℕ) (index : ℕ) (bytes : List ℕ) → put_in (V.Bytes text) index bytes ≡ None }
    ensures dict { (ps : List Pair) (index : ℕ) (bytes : List ℕ) → put_in (V.Dict ps) index bytes ≡ None }
    ensures empty { is_empty_string (Some (V.Bytes [])) ≡ true }
    ensures full { (b : ℕ) (text : List ℕ) → is_empty_string (Some (V.Bytes (b ∷ text))) ≡ false }
    ensures no_string { (n : ℤ) (vs : List Value) (ps : List Pair) → (is_empty_string (Some (V.Int n)) ≡ false)
        × (is_empty_string (Some (V.List vs)) ≡ false) × (is_empty_string (Some (V.Dict ps)) ≡ false) }
{}

/// A stream may be read in two parts: what follows is read on from what the first part held.
pub fn appending_reads_on()
    ensures { (limit : ℕ) (s : Stream) (bytes more : List ℕ) → read_on limit s (bytes ++ more) ≡ read_on limit (read_on limit s bytes) more }
{}

/// Behind a fault nothing is read.
pub fn nothing_is_read_behind_a_fault()
    ensures { (limit : ℕ) (s : Stream) (bytes : List ℕ) → s.fault ≢ None → read_on limit s bytes ≡ s }
{}

/// Behind a clean stream the bytes of a written packet are that packet.
pub fn a_written_packet_follows()
    ensures { WrittenFollows }
{}

/// A part of a written packet's bytes, short of them all, adds no packet to a clean stream and no fault.
pub fn a_part_of_a_packet_adds_none()
    ensures { PartAddsNone }
{}

/// Where a stream is of bytes, so are the byte strings in the list of each of its packets.
pub fn packets_are_of_bytes()
    ensures { PacketsAreOfBytes }
{}
