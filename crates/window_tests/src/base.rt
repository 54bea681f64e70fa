// Numbers, rectangles, input and output, clocks and texts.
ghost use Rattle.std.specs.Prelude.{◌≤◌};

use std::alloc::{AllocError, Global};
use std::cell::Cell;
use std::io::{ErrorKind, Read, Write};
use std::test::Fail;
use std::time::Duration;
use std::{io, time};
use xp_base::{
    Clock, Get, MemClock, MemSink, MemSource, Pixel, Put, ReaderSource, RealClock, Rect, Sink,
    Source, StepClock, Text, Wid, WriterSink,
};

#[test]
fn numbers_are_refused_outside_their_ranges(rt: HostRuntime) {
    for (n, want) in [
        (0, true),
        (0xFF_FFFF, true),
        (0x100_0000, false),
        (u32::MAX, false),
    ] {
        assert_eq!(rt; Pixel::new(n).is_some(), want, "{n}");
    }
    for (n, want) in [
        (i64::MIN, false),
        (-1, false),
        (0, false),
        (1, true),
        (65_535, true),
        (65_536, false),
        (i64::MAX, false),
    ] {
        assert_eq!(rt; Wid::new(n).is_some(), want, "{n}");
    }
    for (x, y, w, h, want) in [
        (0, 0, 1, 1, true),
        (4095, 4095, 1, 1, true),
        (0, 0, 4096, 4096, true),
        (0, 0, 0, 1, false),
        (0, 0, 1, 0, false),
        (1, 0, 4096, 1, false),
        (0, 4096, 1, 1, false),
        (u32::MAX, 0, u32::MAX, 1, false),
    ] {
        assert_eq!(rt; Rect::new(x, y, w, h).is_some(), want, "{x} {y} {w} {h}");
    }
}

#[test]
fn a_source_in_memory_gives_its_bytes_in_order(rt: HostRuntime) -> Result<(), Fail> {
    let alloc = rt.alloc();
    let bytes = [1, 2, 3, 4, 5].to_vec(alloc)?;
    let mut source = MemSource::new(bytes, [2].to_vec(alloc)?);
    let mut into = Vec::new(alloc);
    for want in [
        Get::Got(2),
        Get::Failed,
        Get::Got(2),
        Get::Got(1),
        Get::End,
        Get::End,
    ] {
        let got = source.get(&mut into, 2);
        assert_eq!(rt; got, want);
    }
    assert_eq!(rt; into.as_slice(), [1, 2, 3, 4, 5].as_slice());
    Ok(())
}

#[test]
fn a_sink_in_memory_keeps_what_it_took(rt: HostRuntime) -> Result<(), Fail> {
    let alloc = rt.alloc();
    let mut sink = MemSink::new(alloc, [2].to_vec(alloc)?);
    for (piece, want) in [
        ([1, 2], Put::Done),
        ([3, 4], Put::Failed),
        ([5, 6], Put::Done),
    ] {
        let put = sink.put(&piece);
        assert_eq!(rt; put, want);
    }
    assert_eq!(rt; sink.bytes(), [1, 2, 5, 6].as_slice());
    Ok(())
}

/// Some reads or writes, by their numbers from 1 on, and how they fail.
type Faults<'a> = &'a [(u64, ErrorKind)];

fn fault_at(faults: Faults<'_>, call: u64) -> io::Result<()> {
    match faults.iter().find(|fault| fault.0 == call) {
        Some(fault) => Err(io::Error::from(fault.1)),
        None => Ok(()),
    }
}

/// A reader that gives its text, at most `step` bytes a read.
#[derive(Drop)]
struct FakeReader<'a> {
    text: &'a [u8],
    step: usize,
    faults: Faults<'a>,
    calls: u64,
}

impl Read for FakeReader<'_> {
    fn read(&mut self, buf: &mut [u8]) -> io::Result<usize> {
        self.calls = self.calls.saturating_add(1);
        fault_at(self.faults, self.calls)?;
        let count = self.text.len().min(buf.len()).min(self.step);
        buf[..count].copy_from_slice(&self.text[..count]);
        self.text = &self.text[count..];
        Ok(count)
    }
}

const LOST: ErrorKind = ErrorKind::BrokenPipe;

const LATE: ErrorKind = ErrorKind::WouldBlock;

const SIGNAL: ErrorKind = ErrorKind::Interrupted;

const ONE: Get = Get::Got(1);

const TWO: Get = Get::Got(2);

const END: Get = Get::End;

const FAILED: Get = Get::Failed;

/// The answers to so many calls over a reader of the bytes 1 to 5, and the buffer behind them, which
/// begins with a byte 9.
fn read_five(
    alloc: Global,
    step: usize,
    faults: Faults<'_>,
    max: u32,
    calls: usize,
) -> Result<(Vec<Get>, Vec<u8>), AllocError>
    requires { 1 ≤ max }
{
    let text = [1, 2, 3, 4, 5];
    let mut source = ReaderSource::new(FakeReader {
        text: &text,
        step,
        faults,
        calls: 0,
    });
    let mut answers = Vec::new(alloc);
    let mut into = [9].to_vec(alloc)?;
    for _ in 0..calls {
        answers.push(source.get(&mut into, max))?;
    }
    Ok((answers, into))
}

#[test]
fn what_a_reader_gives_comes_through_whole(rt: HostRuntime) -> Result<(), Fail> {
    let cases: [(usize, u32, &[Get]); 6] = [
        (1, 9, &[ONE, ONE, ONE, ONE, ONE, END, END]),
        (2, 9, &[TWO, TWO, ONE, END, END]),
        (9, 2, &[TWO, TWO, ONE, END, END]),
        (9, 1, &[ONE, ONE, ONE, ONE, ONE, END]),
        (9, 5, &[Get::Got(5), END, END]),
        (9, u32::MAX, &[Get::Got(5), END]),
    ];
    for (step, max, want) in cases {
        let (answers, into) = read_five(rt.alloc(), step, &[], max, want.len())?;
        assert_eq!(rt; answers.as_slice(), want, "{step} {max}");
        assert_eq!(rt;
            into.as_slice(),
            [9, 1, 2, 3, 4, 5].as_slice(),
            "{step} {max}"
        );
    }
    Ok(())
}

#[test]
fn a_read_that_fails_loses_nothing(rt: HostRuntime) -> Result<(), Fail> {
    let cases: [(Faults<'_>, &[Get]); 4] = [
        (
            &[(2, LOST), (3, LATE)],
            &[TWO, FAILED, FAILED, TWO, ONE, END],
        ),
        (&[(4, LOST)], &[TWO, TWO, ONE, FAILED, END]),
        (&[(1, SIGNAL), (2, SIGNAL)], &[TWO, TWO, ONE, END]),
        (
            &[(1, SIGNAL), (2, LATE), (4, SIGNAL)],
            &[FAILED, TWO, TWO, ONE, END],
        ),
    ];
    for (faults, want) in cases {
        let (answers, into) = read_five(rt.alloc(), 2, faults, 9, want.len())?;
        assert_eq!(rt; answers.as_slice(), want);
        assert_eq!(rt; into.as_slice(), [9, 1, 2, 3, 4, 5].as_slice());
    }
    Ok(())
}

#[test]
fn a_long_text_comes_through_whole(rt: HostRuntime) -> Result<(), Fail> {
    let alloc = rt.alloc();
    let mut text = Vec::new(alloc);
    for i in 0..10_000u32 {
        text.push((i % 251) as u8)?;
    }
    for step in [1, 4095, 4096, 10_000] {
        let mut source = ReaderSource::new(FakeReader {
            text: text.as_slice(),
            step,
            faults: &[],
            calls: 0,
        });
        let mut into = Vec::new(alloc);
        for _ in 0..10_000 {
            if source.get(&mut into, u32::MAX) == END {
                break;
            }
        }
        assert_eq!(rt; source.get(&mut into, 1), END, "{step}");
        assert!(rt; into.as_slice() == text.as_slice(), "{step}");
    }
    Ok(())
}

/// A writer that takes at most `step` bytes a write, and sends on what it holds when it is flushed.
/// Where it is `stuck`, each flush fails and sends nothing.
#[derive(Drop)]
struct FakeWriter<'a> {
    held: Vec<u8>,
    sent: Vec<u8>,
    step: usize,
    faults: Faults<'a>,
    stuck: bool,
    calls: u64,
}

impl Write for FakeWriter<'_> {
    fn write(&mut self, buf: &[u8]) -> io::Result<usize> {
        self.calls = self.calls.saturating_add(1);
        fault_at(self.faults, self.calls)?;
        let count = buf.len().min(self.step);
        self.held.extend_from_slice(&buf[..count])?;
        Ok(count)
    }

    fn flush(&mut self) -> io::Result<()> {
        if self.stuck {
            return Err(io::Error::from(LOST));
        }
        self.sent.extend_from_slice(self.held.as_slice())?;
        self.held.clear();
        Ok(())
    }
}

fn fake_writer(alloc: Global, step: usize, faults: Faults<'_>, stuck: bool) -> FakeWriter<'_> {
    FakeWriter {
        held: Vec::new(alloc),
        sent: Vec::new(alloc),
        step,
        faults,
        stuck,
        calls: 0,
    }
}

#[test]
fn a_writer_gets_each_piece_whole(rt: HostRuntime) {
    let cases: [(usize, Faults<'_>); 5] = [
        (1, &[]),
        (2, &[]),
        (9, &[]),
        (1, &[(2, SIGNAL), (3, SIGNAL)]),
        (9, &[(1, SIGNAL)]),
    ];
    let pieces: [(&[u8], &[u8]); 4] = [
        (&[1], &[1]),
        (&[2, 3], &[1, 2, 3]),
        (&[], &[1, 2, 3]),
        (&[4, 5, 6], &[1, 2, 3, 4, 5, 6]),
    ];
    for (step, faults) in cases {
        let mut writer = fake_writer(rt.alloc(), step, faults, false);
        for (piece, sent) in pieces {
            let put = WriterSink::new(&mut writer).put(piece);
            assert_eq!(rt; put, Put::Done, "{step} {piece:?}");
            assert_eq!(rt; writer.sent.as_slice(), sent, "{step} {piece:?}");
        }
    }
}

#[test]
fn a_write_or_a_flush_that_fails_is_told(rt: HostRuntime) {
    // what fails, and then the bytes 1 and 2 in one piece: what of them is held
    let cases: [(usize, Faults<'_>, bool, &[u8]); 5] = [
        (2, &[(1, LOST)], false, &[]),
        (1, &[(2, LATE)], false, &[1]),
        (1, &[(1, SIGNAL), (3, LOST)], false, &[1]),
        (0, &[], false, &[]),
        (2, &[], true, &[1, 2]),
    ];
    for (step, faults, stuck, held) in cases {
        let mut writer = fake_writer(rt.alloc(), step, faults, stuck);
        let put = WriterSink::new(&mut writer).put(&[1, 2]);
        assert_eq!(rt; put, Put::Failed, "{step}");
        assert_eq!(rt; writer.held.as_slice(), held, "{step}");
        assert!(rt; writer.sent.is_empty(), "{step}");
    }
}

#[test]
fn a_clock_in_memory_gives_its_moments_and_then_the_last(rt: HostRuntime) -> Result<(), Fail> {
    let alloc = rt.alloc();
    let cases: [(&[u64], &[u64]); 3] = [
        (&[], &[0, 0]),
        (&[7, 3, 9], &[7, 3, 9, 9, 9]),
        (&[u64::MAX], &[u64::MAX, u64::MAX]),
    ];
    for (moments, wanted) in cases {
        let mut clock = MemClock::new(moments.to_vec(alloc)?);
        for want in wanted {
            assert_eq!(rt; clock.now(), *want);
        }
    }
    Ok(())
}

#[test]
fn a_step_clock_counts_its_readings(rt: HostRuntime) {
    let mut clock = StepClock::new();
    for want in 0..5u64 {
        assert_eq!(rt; clock.now(), want);
    }
}

/// Tells these moments in milliseconds, each reading the next; a reading fails where there is none left.
#[derive(Drop)]
struct FakeSystem<'a> {
    moments: &'a [Cell<Option<u64>>],
}

impl time::Clock for FakeSystem<'_> {
    fn monotonic(&self) -> io::Result<Duration> {
        for moment in self.moments {
            if let Some(now) = moment.take() {
                return Ok(Duration::from_millis(now));
            }
        }
        Err(io::Error::from(LOST))
    }

    fn since_1970(&self) -> io::Result<Duration> {
        Err(io::Error::from(LOST))
    }
}

#[test]
fn the_real_clock_counts_from_its_making_and_never_goes_back(rt: HostRuntime) {
    let moments = [
        Cell::new(Some(500)),
        Cell::new(Some(500)),
        Cell::new(Some(1503)),
        Cell::new(Some(700)),
        Cell::new(Some(2000)),
    ];
    let mut clock = RealClock::new(FakeSystem { moments: &moments });
    for want in [0, 1003, 1003, 1500, 1500] {
        assert_eq!(rt; clock.now(), want);
    }
    let mut stopped = RealClock::new(FakeSystem { moments: &[] });
    assert_eq!(rt; stopped.now(), 0);
    let mut real = RealClock::new(&rt);
    let first = real.now();
    assert!(rt; first <= real.now());
}

#[test]
fn a_text_grows_piece_by_piece(rt: HostRuntime) -> Result<(), Fail> {
    let mut text = Text::new(rt.alloc());
    text.text(b"window ")?;
    text.number(0)?;
    text.text(b" ")?;
    text.number(u64::MAX)?;
    text.text(b" ")?;
    text.signed(-32768)?;
    text.text(b" ")?;
    text.signed(i64::MIN)?;
    text.text(b" ")?;
    text.signed(5)?;
    assert_eq!(rt;
        text.as_slice(),
        b"window 0 18446744073709551615 -32768 -9223372036854775808 5".as_slice()
    );
    assert_eq!(rt; text.into_vec().len(), 59);
    Ok(())
}
