// One packet of the server, shown and answered.
ghost use Rattle.std.specs.Prelude.{◌≡◌, ◌++◌, true, Some, OnOk, OnErr};
ghost use Rattle.packet_kinds.specs.Effects.{effect};
ghost use Rattle.packet_kinds.specs.Fields.{IsInRange};
ghost use Rattle.packet_kinds.specs.Replies.{answer_to, has_effect, said_bytes};
ghost use Rattle.client_replay.specs.Steps.{StepGives};

use crate::answering::answer;
use crate::fault::ReplayFault;
use crate::painting::{apply, holds_its_pixels};
use bencode_values::Value;
use packet_kinds::{KindFault, ToClient, a_read_packet_has_fields, take_to_client};
use std::alloc::Global;
use window_model::Desk;
use xp_base::NoMemory;

/// How a packet was taken.
#[derive(Clone, Copy, Debug, PartialEq, Eq)]
pub(crate) enum Step {
    Shown,
    Faulty(ReplayFault),
    NoMemory,
}

/// Shows a packet, and adds its answer to the replies. Where it is faulty or memory is wanted nothing changes.
pub(crate) fn take(alloc: Global, value: Value, desk: &mut Desk, replies: &mut Vec<u8>) -> Step
    ensures { StepGives value desk.old desk.new replies.old.items replies.new.items result }
{
    a_read_packet_has_fields();
    let message = match take_to_client(alloc, value) {
        Ok(message) => message,
        Err(KindFault::Shape(i)) => return Step::Faulty(ReplayFault::Shape(i)),
        Err(KindFault::NoMemory) => return Step::NoMemory,
    };
    if !holds_its_pixels(&message) {
        return Step::Faulty(ReplayFault::Data);
    }
    match show(alloc, &message, desk, replies) {
        Ok(()) => Step::Shown,
        Err(NoMemory) => Step::NoMemory,
    }
}

/// Shows a packet that has an effect, and adds its answer.
fn show(
    alloc: Global,
    message: &ToClient,
    desk: &mut Desk,
    replies: &mut Vec<u8>,
) -> Result<(), NoMemory>
    requires range { IsInRange message.now }
    requires effect { has_effect message.now ≡ true }
    ensures ok { OnOk result ((effect desk.old message.now ≡ Some desk.new) × (replies.new.items ≡ replies.old.items ++ said_bytes (answer_to message.now))) }
    ensures err { OnErr result ((desk.new ≡ desk.old) × (replies.new.items ≡ replies.old.items)) }
{
    let said = answer(alloc, message)?;
    let before = replies.len();
    replies.extend_from_slice(said.as_slice())?;
    if apply(alloc, desk, message).is_err() {
        replies.truncate(before);
        return Err(NoMemory);
    }
    Ok(())
}
