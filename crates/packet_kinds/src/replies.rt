// What holds of all that an exact client answers.
ghost use Rattle.std.specs.Prelude.{◌≡◌, ℕ, List, []};
ghost use Rattle.packet_frames.specs.Stream.{packets_of};
ghost use Rattle.packet_kinds.specs.Replies.{answers, replies};
ghost use Rattle.packet_kinds.specs.ReplyLaws.{EffectIsThere, RepliesGoOn, RepliesStop, PacketsAreAnswered, PacketsStop, MessageIsAnswered, PartIsUnanswered, AnswersAreSmall};

/// No bytes are not answered.
pub fn nothing_is_answered_at_first()
    ensures { (limit : ℕ) → replies limit [] ≡ [] }
{}

/// What was answered stays answered, whatever bytes follow; behind the picture's first fault nothing more is.
pub fn replies_only_go_on()
    ensures more { RepliesGoOn }
    ensures stop { RepliesStop }
{}

/// A message is answered as soon as all its bytes are there.
pub fn a_message_is_answered()
    ensures whole { MessageIsAnswered }
    ensures part { PartIsUnanswered }
{}

/// How the answers go on, packet by packet, to the first fault.
pub fn replies_go_packet_by_packet()
    ensures whole { (limit : ℕ) (bytes : List ℕ) → replies limit bytes ≡ answers (packets_of limit bytes).packets }
    ensures more { PacketsAreAnswered }
    ensures stop { PacketsStop }
{}

/// Whether a packet has an effect depends on its bytes alone, never on the windows.
pub fn a_packet_has_an_effect_by_its_bytes()
    ensures { EffectIsThere }
{}

/// An answer is a small packet, so it may be written.
pub fn an_answer_may_be_written()
    ensures { AnswersAreSmall }
{}
