// The program's words, and its status.
ghost use Rattle.std.specs.Prelude.{◌≡◌, [], drop, IfOk, IfErr, Err, MatchResult};
ghost use Rattle.std.specs.Fn.{FnOnceReturnsAt};
ghost use Rattle.std.specs.Vec.Iter.{into_iter_items};
ghost use Rattle.std.specs.IoError.{error_kind};
ghost use Rattle.xpra_server.specs.Words.{unread_for};

use crate::calls::Outcome;
use link_bay::Bay;
use std::alloc::Global;
use std::env::Args;
use std::io::{self, ErrorKind};

/// Why the words of a call are not known.
#[derive(Clone, Copy, Debug, PartialEq, Eq)]
pub enum Unread {
    /// One of them is not UTF-8.
    NotText,
    NoMemory,
}

/// The words of a call, all but the first, which is the program's own name.
pub fn words_of(alloc: Global, args: io::Result<Args>) -> Result<Vec<String>, Unread>
    ensures { MatchResult args
        (λ all. IfOk result (λ words. words.items ≡ drop 1 (into_iter_items all)) × IfErr result (λ e. e ≡ Unread.NoMemory))
        (λ e. result ≡ Err (unread_for (error_kind e))) }
{
    match args {
        Ok(args) => after_name(alloc, args),
        Err(e) => Err(why_unread(&e)),
    }
}

fn after_name(alloc: Global, mut args: Args) -> Result<Vec<String>, Unread>
    ensures words { IfOk result (λ words. words.items ≡ drop 1 (into_iter_items args)) }
    ensures short { IfErr result (λ e. e ≡ Unread.NoMemory) }
{
    let _name = args.next();
    let mut words = Vec::new(alloc);
    for word in args {
        if words.push(word).is_err() {
            return Err(Unread::NoMemory);
        }
    }
    Ok(words)
}

fn why_unread(error: &io::Error) -> Unread
    ensures { result ≡ unread_for (error_kind error.now) }
{
    if error.kind() == ErrorKind::OutOfMemory {
        Unread::NoMemory
    } else {
        Unread::NotText
    }
}

/// The status that the call leaves on the words, all of them. Words that are no text are no form of the call, as none are.
pub fn status_of<B: Bay + Drop, F: FnOnce(&Vec<String>) -> Outcome<B>>(
    alloc: Global,
    words: Result<Vec<String>, Unread>,
    call: F,
) -> u8
    requires { F.IsAlwaysCallable call }
    ensures called { IfOk words (λ known. (left : _) × FnOnceReturnsAt F.FnOnce call known left × (result ≡ left.status)) }
    ensures not_text { words ≡ Err Unread.NotText → (none : _) × (none.items ≡ []) × (left : _) × FnOnceReturnsAt F.FnOnce call none left × (result ≡ left.status) }
    ensures short { words ≡ Err Unread.NoMemory → result ≡ 5 }
{
    match words {
        Ok(known) => call(&known).status,
        Err(Unread::NotText) => call(&Vec::new(alloc)).status,
        Err(Unread::NoMemory) => 5,
    }
}
