// What holds of all that clients say.
ghost use Rattle.std.specs.Prelude.{◌≡◌, ◌≢◌, ℕ, None, List, [], ◌++◌};
ghost use Rattle.packet_frames.specs.Stream.{packets_of};
ghost use Rattle.packet_kinds.specs.Talk.{talk, talk_of, Continues, PacketIsHeard, LaterAreHeard, FaultIsHeard, ShapeStays, MessageIsHeard, PartIsUnheard, PacketsAreSaid, GivenAreSaid, GivenFaultStays};

/// No bytes say nothing.
pub fn nothing_is_said_at_first()
    ensures { (limit : ℕ) → talk limit [] ≡ record { first = None; said = []; fault = None } }
{}

/// What was said stays said, whatever bytes follow.
pub fn more_bytes_only_say_more()
    ensures { (limit : ℕ) (bytes more : List ℕ) → Continues (talk limit bytes) (talk limit (bytes ++ more)) }
{}

/// After a fault nothing more is heard.
pub fn nothing_is_heard_behind_a_fault()
    ensures { (limit : ℕ) (bytes more : List ℕ) → (talk limit bytes).fault ≢ None → talk limit (bytes ++ more) ≡ talk limit bytes }
{}

/// How a talk goes on, packet by packet, to the first fault.
pub fn a_talk_goes_packet_by_packet()
    ensures whole { (limit : ℕ) (bytes : List ℕ) → talk limit bytes ≡ talk_of (packets_of limit bytes).fault (packets_of limit bytes).packets }
    ensures packet { PacketIsHeard }
    ensures later { LaterAreHeard }
    ensures fault { FaultIsHeard }
    ensures shape { ShapeStays }
{}

/// A message that a client writes is said as soon as all its bytes are there.
pub fn a_written_message_is_heard()
    ensures whole { MessageIsHeard }
    ensures part { PartIsUnheard }
{}

/// What is said is each packet behind the first as `read_from_client` reads it, and nothing else.
pub fn what_is_said_is_what_is_read()
    ensures { PacketsAreSaid }
{}

/// The packets that a framer has given so far begin the talk of all bytes that it was fed, and a fault of one of them
/// is the talk's.
pub fn a_talk_follows_a_framer()
    ensures begins { GivenAreSaid }
    ensures stops { GivenFaultStays }
{}
