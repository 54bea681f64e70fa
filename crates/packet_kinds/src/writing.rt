// Packets as bytes.
ghost use Rattle.std.specs.Prelude.{◌≡◌, ℕ, IfOk, None};
ghost use Rattle.packet_frames.specs.Written.{MayBeWritten, IsWithin};
ghost use Rattle.packet_kinds.specs.ToClients.{to_value, to_chunk};
ghost use Rattle.packet_kinds.specs.Fields.{HasFields};
ghost use Rattle.packet_kinds.specs.Written.{message_bytes, IsMessage};
ghost use Rattle.packet_kinds.specs.FromClients.{from_value, IsNamed};
ghost use Rattle.packet_kinds.specs.FromWritten.{client_bytes, IsClientMessage};

use crate::from_client::FromClient;
use crate::from_values::from_value;
use crate::to_client::ToClient;
use crate::to_values::{to_chunk, to_value};
use packet_frames::write_packet;
use std::alloc::Global;
use xp_base::NoMemory;

/// The bytes of a packet to a client, with a draw's bytes as a chunk ahead.
pub fn to_bytes(alloc: Global, message: &ToClient) -> Result<Vec<u8>, NoMemory>
    requires fields { HasFields message.now }
    requires sized { MayBeWritten (to_value message.now) (to_chunk message.now) }
    ensures bytes { IfOk result (λ bytes. bytes.items ≡ message_bytes message.now) }
    // For each limit that neither size exceeds they are a packet that is read as this message.
    ensures message { IfOk result (λ bytes. (limit : ℕ) → IsWithin limit (to_value message.now) (to_chunk message.now) → IsMessage limit bytes.items message.now) }
{
    let value = to_value(alloc, message)?;
    let chunk = to_chunk(alloc, message)?;
    write_packet(alloc, &value, chunk)
}

/// The bytes of a packet from a client.
pub fn from_bytes_of(alloc: Global, message: &FromClient) -> Result<Vec<u8>, NoMemory>
    requires named { IsNamed message.now }
    requires sized { MayBeWritten (from_value message.now) None }
    ensures bytes { IfOk result (λ bytes. bytes.items ≡ client_bytes message.now) }
    // For each limit that the size does not exceed they are a packet that is read as this message.
    ensures message { IfOk result (λ bytes. (limit : ℕ) → IsWithin limit (from_value message.now) None → IsClientMessage limit bytes.items message.now) }
{
    let value = from_value(alloc, message)?;
    write_packet(alloc, &value, None)
}
