// What is left of a stream, and how it goes on.
ghost use Rattle.std.specs.Prelude.{◌≡◌, ℕ, List, [], ◌∷◌};
ghost use Rattle.bencode_values.specs.declared.value.Value.{Value};
ghost use Rattle.packet_frames.specs.declared.next.Next.TheVariants as N;
ghost use Rattle.packet_frames.specs.Stream.{Packet, Stream, read_on};
ghost use Rattle.packet_frames.specs.Following.{Framing, Gives, left_of, behind};

/// Packets that were read before stay in front of what is read on.
pub fn packets_before_stay()
    ensures { (limit : ℕ) (given : List Packet) (s : Stream) (bytes : List ℕ) → read_on limit (behind given s) bytes ≡ behind given (read_on limit s bytes) }
{}

/// A packet that a framer gives is the next of those that were left.
pub fn a_packet_given_was_the_next()
    ensures { (old new : Framing) (place : ℕ) (value : Value) → Gives old (N.Packet place value) new → left_of old ≡ behind (record { place = place; value = value } ∷ []) (left_of new) }
{}
