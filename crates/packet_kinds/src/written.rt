// What holds of all messages that are written.
ghost use Rattle.std.specs.Prelude.{◌≡◌, ◌<◌, ◌≤◌, ◌^◌, ℕ, Some, None, Ok, length};
ghost use Rattle.bencode_values.specs.declared.value.Value.{Value};
ghost use Rattle.bencode_values.specs.Grammar.{spelled};
ghost use Rattle.packet_frames.specs.Written.{filled, MayBeWritten, IsWithin};
ghost use Rattle.packet_kinds.specs.declared.to_client.ToClient.{ToClient};
ghost use Rattle.packet_kinds.specs.Fields.{HasFields, IsPlain, drawn_size};
ghost use Rattle.packet_kinds.specs.ToClients.{to_value, to_chunk};
ghost use Rattle.packet_kinds.specs.ToShapes.{to_client};
ghost use Rattle.packet_kinds.specs.declared.from_client.FromClient.{FromClient};
ghost use Rattle.packet_kinds.specs.FromClients.{from_value, IsNamed};
ghost use Rattle.packet_kinds.specs.FromFields.{IsSmallPacket};
ghost use Rattle.packet_kinds.specs.FromShapes.{from_client};

/// The value of a message, with the chunk's bytes put in, is read as this message.
pub fn what_is_written_is_read_as_the_same_message()
    ensures { (m : ToClient) → HasFields m → (w : Value) × (filled (to_value m) (to_chunk m) ≡ Some w) × (to_client w ≡ Ok m) }
{}

/// A message without caps or reason may be written, where a draw's bytes are fewer than 2^32.
pub fn a_plain_message_may_be_written()
    ensures { (m : ToClient) → IsPlain m → HasFields m → drawn_size m < 2 ^ 32 → MayBeWritten (to_value m) (to_chunk m) }
{}

/// Its value has at most 1,000 bytes, so it is within each limit of at least so many that its draw's bytes keep.
pub fn a_plain_message_has_a_small_value()
    ensures small { (m : ToClient) → IsPlain m → HasFields m → length (spelled (to_value m)) ≤ 1000 }
    ensures within { (m : ToClient) (limit : ℕ) → IsPlain m → HasFields m → 1000 ≤ limit → drawn_size m ≤ limit → IsWithin limit (to_value m) (to_chunk m) }
{}

/// The value of a client's message is read as this message.
pub fn what_a_client_writes_is_read_as_the_same_message()
    ensures { (m : FromClient) → IsNamed m → from_client (from_value m) ≡ Ok m }
{}

/// A client's message of a few integers and a short byte string may be written, and is within each limit of at least
/// 1,000 bytes.
pub fn a_small_packet_of_a_client_may_be_written()
    ensures written { (m : FromClient) → IsSmallPacket m → MayBeWritten (from_value m) None }
    ensures within { (m : FromClient) (limit : ℕ) → IsSmallPacket m → 1000 ≤ limit → IsWithin limit (from_value m) None }
{}
