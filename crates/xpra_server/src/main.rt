//! A screen server: it plays a script of windows to its clients, and prints how they ended.
#![tactic(auto)]

mod calls;
#[cfg(test)]
mod dry_bay;
mod input;
mod playing;
mod report;
mod texts;
mod words;

use crate::calls::top;
use crate::words::{status_of, words_of};
use link_bay::OneBay;
use std::env;
use std::io::writer;
use std::process::ExitCode;
use xp_base::{ReaderSource, WriterSink};

#[cfg(test)]
mod tests;

fn main(rt: HostRuntime) -> ExitCode {
    let alloc = rt.alloc();
    let words = words_of(alloc, env::args(&rt));
    let mut input = ReaderSource::new(rt.reader());
    let mut out = WriterSink::new(writer(&rt));
    ExitCode::from(status_of(alloc, words, |words| {
        top(words, &mut input, &mut out, OneBay::new(alloc))
    }))
}
