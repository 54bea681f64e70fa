// Input and output over std's readers and writers, as the standard streams. As a source and a sink
// they do not tell what they carry; their own clauses say that it is what the reader gave and what
// the writer got, where the reader or writer tells that.
ghost use Rattle.std.specs.Prelude.{◌≡◌, ◌≤◌, None};
ghost use Rattle.xp_base.specs.Adapters.{ReadsOnce, WritesOnce, WritesWhole};

use crate::sink::{Put, Sink};
use crate::source::{Get, Source};
use std::io::{ErrorKind, Read, Write};

/// How much one read asks for at most, in bytes.
const CHUNK: usize = 4096;

/// The adapter over standard input, or any other reader. A call fails where the reader fails, but a
/// read that a signal interrupted is made again.
#[derive(Drop)]
pub struct ReaderSource<R: Read + Drop> {
    reader: R,
    faults: u64,
}

impl<R: Read + Drop> ReaderSource<R> {
    pub fn new(reader: R) -> ReaderSource<R>
        ensures { result ≡ record { reader = reader; faults = 0 } }
    {
        ReaderSource { reader, faults: 0 }
    }
}

impl<R: Read + Drop> Source for ReaderSource<R> {
    ghost use Rattle.xp_base.specs.Adapters.{PassesIn, faults_after_get};
    ghost use Rattle.xp_base.specs.Answers.{GetGives};

    ghost source = { λ s. record { left = None; faults = s.faults } };

    fn get(&mut self, into: &mut Vec<u8>, max: u32) -> Get
        requires { 1 ≤ max }
        ensures answer { GetGives (record { left = None; faults = self.old.faults })
            (record { left = None; faults = self.new.faults }) into.old.items into.new.items max result }
        ensures bytes { PassesIn (R.remaining self.old.reader) (R.remaining self.new.reader)
            into.old.items into.new.items result }
        ensures count { self.new.faults ≡ faults_after_get self.old.faults result }

        // Room is made before anything is read.
        ensures short { result ≡ Get.NoMemory → self.new ≡ self.old }
    {
        let most = CHUNK.min(max as usize);
        if into.reserve(most).is_err() {
            return Get::NoMemory;
        }
        let mut piece = [0u8; CHUNK];
        let Some(count) = read_once(&mut self.reader, &mut piece[..most]) else {
            self.faults = self.faults.saturating_add(1);
            return Get::Failed;
        };
        if count == 0 {
            return Get::End;
        }
        match into.extend_from_slice(&piece[..count]) {
            Ok(()) => Get::Got(count as u32),
            Err(_) => unreachable!(),
        }
    }
}

/// How many bytes were read, or `None` where reading failed. A read that a signal interrupted is
/// made again.
fn read_once<R: Read>(reader: &mut R, piece: &mut [u8]) -> Option<usize>
    ensures { ReadsOnce (R.remaining reader.old) (R.remaining reader.new) result piece.new }
{
    for _ in 0..u64::MAX {
        match reader.read(piece) {
            Ok(count) => return Some(count),
            Err(error) => {
                if error.kind() != ErrorKind::Interrupted {
                    return None;
                }
            }
        }
    }
    None
}

/// The adapter over standard output, or any other writer. Each piece is written and then flushed. A
/// call fails where the writer fails or takes no byte, but a write that a signal interrupted is made
/// again.
#[derive(Drop)]
pub struct WriterSink<W: Write + Drop> {
    writer: W,
    faults: u64,
}

impl<W: Write + Drop> WriterSink<W> {
    pub fn new(writer: W) -> WriterSink<W>
        ensures { result ≡ record { writer = writer; faults = 0 } }
    {
        WriterSink { writer, faults: 0 }
    }
}

impl<W: Write + Drop> Sink for WriterSink<W> {
    ghost use Rattle.xp_base.specs.Adapters.{PassesOut, faults_after_put};
    ghost use Rattle.xp_base.specs.Answers.{PutGives};

    ghost sink = { λ s. record { taken = None; faults = s.faults } };

    fn put(&mut self, piece: &[u8]) -> Put
        ensures answer { PutGives (record { taken = None; faults = self.old.faults })
            (record { taken = None; faults = self.new.faults }) piece.now result }
        ensures bytes { PassesOut (W.contents self.old.writer) (W.contents self.new.writer) piece.now result }
        ensures count { self.new.faults ≡ faults_after_put self.old.faults result }
    {
        if write_whole(&mut self.writer, piece) {
            return Put::Done;
        }
        self.faults = self.faults.saturating_add(1);
        Put::Failed
    }
}

/// Whether all of the piece was written and then flushed.
fn write_whole<W: Write>(writer: &mut W, piece: &[u8]) -> bool
    ensures { WritesWhole (W.contents writer.old) (W.contents writer.new) piece.now result }
{
    let mut rest = piece;
    while !rest.is_empty() {
        match write_once(writer, rest) {
            None | Some(0) => return false,
            Some(count) => rest = &rest[count..],
        }
    }
    writer.flush().is_ok()
}

/// How many bytes were written, or `None` where writing failed. A write that a signal interrupted is
/// made again.
fn write_once<W: Write>(writer: &mut W, piece: &[u8]) -> Option<usize>
    ensures { WritesOnce (W.contents writer.old) (W.contents writer.new) result piece.now }
{
    for _ in 0..u64::MAX {
        match writer.write(piece) {
            Ok(count) => return Some(count),
            Err(error) => {
                if error.kind() != ErrorKind::Interrupted {
                    return None;
                }
            }
        }
    }
    None
}
