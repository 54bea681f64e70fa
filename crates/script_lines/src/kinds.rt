// The kinds of lines, by their first words.
ghost use Rattle.std.specs.Prelude.{◌≡◌, ◌==◌, IfSome, length};
ghost use Rattle.std.specs.Option.{option_map};
ghost use Rattle.script_lines.specs.Text.{words_of};
ghost use Rattle.script_lines.specs.Kinds.{paint_kind, plan_kind, order_kind, join_kind, one_word, joining, kind_of};

use crate::text::next_word;

#[derive(Clone, Copy, Debug, PartialEq, Eq)]
pub enum PaintKind {
    Open,
    Close,
    Fill,
    Copy,
    Noise,
    Resize,
    Move,
    Raise,
}

#[derive(Clone, Copy, Debug, PartialEq, Eq)]
pub enum PeerKind {
    Exact,
    NamedExact,
    Lossy,
    NamedLossy,
    Dry,
    Hex,
    Map,
    Unmap,
    Refresh,
    Leave,
    Say,
}

#[derive(Clone, Copy, Debug, PartialEq, Eq)]
pub enum PlanKind {
    Accept,
    Read,
    Capture,
    Take,
    Finish,
    Send,
    Owed,
    Wait,
    Turn,
}

/// A kind of line that is not empty.
#[derive(Clone, Copy, Debug, PartialEq, Eq)]
pub enum Kind {
    Paint(PaintKind),
    Peer(PeerKind),
    Plan(PlanKind),
}

fn paint_kind(word: &[u8]) -> Option<PaintKind>
    ensures { result ≡ paint_kind word.now }
{
    if word == b"open".as_slice() {
        Some(PaintKind::Open)
    } else if word == b"close".as_slice() {
        Some(PaintKind::Close)
    } else if word == b"fill".as_slice() {
        Some(PaintKind::Fill)
    } else if word == b"copy".as_slice() {
        Some(PaintKind::Copy)
    } else if word == b"noise".as_slice() {
        Some(PaintKind::Noise)
    } else if word == b"resize".as_slice() {
        Some(PaintKind::Resize)
    } else if word == b"move".as_slice() {
        Some(PaintKind::Move)
    } else if word == b"raise".as_slice() {
        Some(PaintKind::Raise)
    } else {
        None
    }
}

fn plan_kind(word: &[u8]) -> Option<PlanKind>
    ensures { result ≡ plan_kind word.now }
{
    if word == b"accept".as_slice() {
        Some(PlanKind::Accept)
    } else if word == b"read".as_slice() {
        Some(PlanKind::Read)
    } else if word == b"capture".as_slice() {
        Some(PlanKind::Capture)
    } else if word == b"take".as_slice() {
        Some(PlanKind::Take)
    } else if word == b"finish".as_slice() {
        Some(PlanKind::Finish)
    } else if word == b"send".as_slice() {
        Some(PlanKind::Send)
    } else if word == b"owed".as_slice() {
        Some(PlanKind::Owed)
    } else if word == b"wait".as_slice() {
        Some(PlanKind::Wait)
    } else if word == b"turn".as_slice() {
        Some(PlanKind::Turn)
    } else {
        None
    }
}

/// What a peer that has joined is ordered.
fn order_kind(word: &[u8]) -> Option<PeerKind>
    ensures { result ≡ order_kind word.now }
{
    if word == b"map".as_slice() {
        Some(PeerKind::Map)
    } else if word == b"unmap".as_slice() {
        Some(PeerKind::Unmap)
    } else if word == b"refresh".as_slice() {
        Some(PeerKind::Refresh)
    } else if word == b"leave".as_slice() {
        Some(PeerKind::Leave)
    } else if word == b"say".as_slice() {
        Some(PeerKind::Say)
    } else {
        None
    }
}

/// What kind of peer joins, by the word after `peer`; `alone` tells that no words follow.
fn join_kind(word: &[u8], alone: bool) -> Option<PeerKind>
    ensures { result ≡ join_kind word.now alone }
{
    if word == b"exact".as_slice() {
        Some(if alone {
            PeerKind::Exact
        } else {
            PeerKind::NamedExact
        })
    } else if word == b"lossy".as_slice() {
        Some(if alone {
            PeerKind::Lossy
        } else {
            PeerKind::NamedLossy
        })
    } else if word == b"dry".as_slice() {
        Some(PeerKind::Dry)
    } else if word == b"hex".as_slice() {
        Some(PeerKind::Hex)
    } else {
        None
    }
}

fn one_word(word: &[u8]) -> Option<Kind>
    ensures { result ≡ one_word word.now }
{
    if let Some(kind) = paint_kind(word) {
        return Some(Kind::Paint(kind));
    }
    if let Some(kind) = plan_kind(word) {
        return Some(Kind::Plan(kind));
    }
    match order_kind(word) {
        Some(kind) => Some(Kind::Peer(kind)),
        None => None,
    }
}

/// The kind of peer that the words after `peer` name, and what is after them.
fn joining(words: &[u8]) -> Option<(Kind, &[u8])>
    ensures { option_map (λ x. (x.0, words_of x.1.now)) result ≡ joining (words_of words.now) }
{
    let (word, words) = next_word(words)?;
    let kind = join_kind(word, next_word(words).is_none())?;
    Some((Kind::Peer(kind), words))
}

/// A line's kind, by its words, and what is after those that name it; `None` where they name none.
pub fn kind_of(words: &[u8]) -> Option<(Kind, &[u8])>
    ensures { option_map (λ x. (x.0, words_of x.1.now)) result ≡ kind_of (words_of words.now) }
{
    let (word, words) = next_word(words)?;
    if word == b"peer".as_slice() {
        return joining(words);
    }
    let kind = one_word(word)?;
    Some((kind, words))
}
