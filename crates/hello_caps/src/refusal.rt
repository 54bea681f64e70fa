// The last packet to a client that is refused.
ghost use Rattle.std.specs.Prelude.{◌≡◌, None};
ghost use Rattle.hello_caps.specs.Replies.{goodbye_value};
ghost use Rattle.packet_frames.specs.Written.{packet_bytes, IsThatPacket};

use crate::caps::HelloFault;

/// The packet that tells a client why it is refused: its header, and the list of `disconnect` and the reason.
pub fn goodbye(fault: &HelloFault) -> &'static [u8]
    ensures bytes { result.now ≡ packet_bytes (goodbye_value fault.now) None }
    // Its packets, for each limit that its size does not exceed, are that one.
    ensures packets { IsThatPacket (goodbye_value fault.now) None result.now }
{
    match fault {
        HelloFault::NotHello => b"\x50\x00\x00\x00\x00\x00\x00\x1al10:disconnect9:not helloe",
        HelloFault::NoEncoding => b"\x50\x00\x00\x00\x00\x00\x00\x1dl10:disconnect11:no encodinge",
        HelloFault::Uuid(_) => b"\x50\x00\x00\x00\x00\x00\x00\x1fl10:disconnect13:uuid too longe",
    }
}
