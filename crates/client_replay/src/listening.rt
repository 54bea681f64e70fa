// What a peer in memory hears, and what an order makes it say.
ghost use Rattle.std.specs.Prelude.{◌≡◌, ◌++◌, ℕ, List, [], IfOk, IfSome, OnOk, OnErr, if◌then◌else◌, pos, true, false, ◌||◌};
ghost use Rattle.window_model.specs.Desktop.{find_window};
ghost use Rattle.packet_kinds.specs.declared.from_client.FromClient.TheVariants as C;
ghost use Rattle.packet_kinds.specs.FromWritten.{client_bytes};
ghost use Rattle.client_replay.specs.Peers.{new_replies, map_of};
ghost use Rattle.client_replay.specs.PeerKept.{IsReplayed};

use crate::answering::{map_bytes, small_bytes};
use crate::fault::Fed;
use crate::replay::Replay;
use bencode_values::Items;
use packet_kinds::FromClient;
use std::alloc::Global;
use window_model::Desk;
use xp_base::{NoMemory, Wid};

/// Hears these bytes; the replies that come with them, or nothing where memory was wanted.
fn hear(replay: &mut Replay, bytes: &[u8]) -> Option<Vec<u8>>
    ensures { (before : List ℕ) → IsReplayed before replay.old → IfSome result (λ said. IsReplayed (before ++ bytes.now) replay.new × (said.items ≡ new_replies before bytes.now)) }
{
    match replay.feed(bytes) {
        Fed::Ok | Fed::Bad(_, _) => Some(replay.replies()),
        Fed::NoMemory => None,
    }
}

/// Hears these bytes, and says the replies that come with them, unless it is silent.
pub(crate) fn listen(
    replay: &mut Replay,
    said: &mut Vec<u8>,
    bytes: &[u8],
    silent: bool,
) -> Result<(), NoMemory>
    ensures heard { (before : List ℕ) → IsReplayed before replay.old → OnOk result (IsReplayed (before ++ bytes.now) replay.new) }
    ensures said { (before : List ℕ) → IsReplayed before replay.old → OnOk result (said.new.items ≡ said.old.items ++ (if silent then [] else new_replies before bytes.now)) }
    ensures err { OnErr result (said.new.items ≡ said.old.items) }
{
    let Some(replies) = hear(replay, bytes) else {
        return Err(NoMemory);
    };
    if silent {
        return Ok(());
    }
    said.extend_from_slice(replies.as_slice())?;
    Ok(())
}

/// Listens to these bytes unless it has left. Where memory is wanted now or was wanted before it is lost.
pub(crate) fn attend(
    left: bool,
    lost: &mut bool,
    replay: &mut Replay,
    said: &mut Vec<u8>,
    bytes: &[u8],
    silent: bool,
) -> Result<(), NoMemory>
    ensures heard { (before : List ℕ) → (left ≡ false → lost.old ≡ false → IsReplayed before replay.old)
        → OnOk result (left ≡ false → lost.new ≡ false → IsReplayed (before ++ bytes.now) replay.new) }
    ensures said { (before : List ℕ) → (left ≡ false → lost.old ≡ false → IsReplayed before replay.old)
        → OnOk result (said.new.items ≡ said.old.items ++ (if left || silent then [] else new_replies before bytes.now)) }
    ensures err { OnErr result ((said.new.items ≡ said.old.items) × (lost.new ≡ true)) }
{
    if left {
        return Ok(());
    }
    if *lost {
        return Err(NoMemory);
    }
    match listen(replay, said, bytes, silent) {
        Ok(()) => Ok(()),
        Err(NoMemory) => {
            *lost = true;
            Err(NoMemory)
        }
    }
}

/// The map of a window with the numbers of this picture, or with zeros where it is not there.
pub(crate) fn map_from(alloc: Global, picture: &Desk, wid: Wid) -> Result<Vec<u8>, NoMemory>
    ensures { IfOk result (λ said. said.items ≡ map_of (find_window picture.now wid) wid) }
{
    match picture.find(wid) {
        Some(window) => map_bytes(alloc, wid, window.x, window.y, window.w, window.h),
        None => map_bytes(alloc, wid, 0, 0, 0, 0),
    }
}

/// That a window is not shown any more.
pub(crate) fn unmap_bytes(alloc: Global, wid: Wid) -> Result<Vec<u8>, NoMemory>
    ensures { IfOk result (λ said. said.items ≡ client_bytes (C.UnmapWindow (pos wid) [])) }
{
    let unmapped = FromClient::UnmapWindow {
        wid: i64::from(wid.get()),
        further: Items::new(alloc),
    };
    small_bytes(alloc, &unmapped)
}

/// That a window is wanted anew.
pub(crate) fn refresh_bytes(alloc: Global, wid: Wid) -> Result<Vec<u8>, NoMemory>
    ensures { IfOk result (λ said. said.items ≡ client_bytes (C.BufferRefresh (pos wid) [])) }
{
    let refreshed = FromClient::BufferRefresh {
        wid: i64::from(wid.get()),
        further: Items::new(alloc),
    };
    small_bytes(alloc, &refreshed)
}
