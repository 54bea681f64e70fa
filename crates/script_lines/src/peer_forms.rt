// Peer lines by their words.
ghost use Rattle.std.specs.Prelude.{◌≡◌, ◌∷◌, []};
ghost use Rattle.link_bay.specs.declared.order.Kind.{Kind};
ghost use Rattle.link_bay.specs.declared.order.Order.{Order};
ghost use Rattle.script_lines.specs.declared.kinds.PeerKind.TheVariants as peer;
ghost use Rattle.script_lines.specs.Text.{words_of};
ghost use Rattle.script_lines.specs.Arguments.{read, Uuid, nth_word};
ghost use Rattle.script_lines.specs.Forms.{peer_form};
ghost use Rattle.script_lines.specs.Reading.{Gives};

use crate::arguments::{both, client_in, hex_of, name_of, next, only};
use crate::kinds::PeerKind;
use crate::numbers::bytes_of;
use crate::plan_forms::{client_and_window, none, one_number};
use crate::reading::LineError;
use crate::why::Why;
use link_bay::{Kind, Name, Order};
use std::alloc::Global;
use xp_base::Conn;

fn no_name(alloc: Global) -> Name
    ensures { result ≡ [] }
{
    Name::new(Vec::new(alloc))
}

/// The uuid that the words are.
fn uuid(alloc: Global, words: &[u8]) -> Result<Name, LineError>
    ensures { Gives result (read (Uuid ∷ []) (nth_word 0) (words_of words.now)) }
{
    let (name, words) = next(words);
    only(name_of(name), words)?;
    let Some(name) = name else {
        return Err(LineError::Fault(Why::Count));
    };
    Ok(Name::new(name.to_vec(alloc)?))
}

fn scripted(alloc: Global, words: &[u8]) -> Result<Order, LineError>
    ensures { Gives result (peer_form peer.Hex (words_of words.now)) }
{
    let (hex, words) = next(words);
    only(hex_of(hex), words)?;
    let Some(hex) = hex else {
        return Err(LineError::Fault(Why::Count));
    };
    Ok(Order::Join(Kind::Hex, Name::new(bytes_of(alloc, hex)?)))
}

fn say(alloc: Global, words: &[u8]) -> Result<Order, LineError>
    ensures { Gives result (peer_form peer.Say (words_of words.now)) }
{
    let (k, words) = client_in(words);
    let (hex, words) = next(words);
    let (k, ()) = both(k, only(hex_of(hex), words))?;
    let Some(hex) = hex else {
        return Err(LineError::Fault(Why::Count));
    };
    Ok(Order::Say(Conn(k), Name::new(bytes_of(alloc, hex)?)))
}

/// The order of this kind with these words after those that name it.
pub fn peer_line(alloc: Global, kind: PeerKind, words: &[u8]) -> Result<Order, LineError>
    ensures { Gives result (peer_form kind (words_of words.now)) }
{
    match kind {
        PeerKind::Exact => {
            none(words)?;
            Ok(Order::Join(Kind::Exact, no_name(alloc)))
        }
        PeerKind::NamedExact => Ok(Order::Join(Kind::Exact, uuid(alloc, words)?)),
        PeerKind::Lossy => {
            none(words)?;
            Ok(Order::Join(Kind::Lossy, no_name(alloc)))
        }
        PeerKind::NamedLossy => Ok(Order::Join(Kind::Lossy, uuid(alloc, words)?)),
        PeerKind::Dry => {
            let n = one_number(words, 0, 100_000)?;
            Ok(Order::Join(Kind::Dry(n), no_name(alloc)))
        }
        PeerKind::Hex => scripted(alloc, words),
        PeerKind::Map => {
            let (k, wid) = client_and_window(words)?;
            Ok(Order::Map(Conn(k), wid))
        }
        PeerKind::Unmap => {
            let (k, wid) = client_and_window(words)?;
            Ok(Order::Unmap(Conn(k), wid))
        }
        PeerKind::Refresh => {
            let (k, wid) = client_and_window(words)?;
            Ok(Order::Refresh(Conn(k), wid))
        }
        PeerKind::Leave => {
            let k = one_number(words, 0, 99_999)?;
            Ok(Order::Leave(Conn(k)))
        }
        PeerKind::Say => say(alloc, words),
    }
}
