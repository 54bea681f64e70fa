// Scripts made of a number.
ghost use Rattle.std.specs.Prelude.{◌≡◌, ◌+◌, ◌++◌, ◌∷◌, [], ◌<◌, IfOk};
ghost use Rattle.paint_script.specs.Generated.{beginning, generated, pause_after, state_after};
ghost use Rattle.paint_script.specs.Stage.{IsBegun, IsReady, joining, opening_line, round_lines};

use crate::draws::{draw_round, round_line};
use crate::opening::Opening;
use crate::reader::Reader;
use crate::script::Script;
use link_bay::{Kind, Name, Order};
use script_lines::{Line, Paint, PlanLine};
use std::alloc::Global;
use window_model::Generator;
use xp_base::{NoMemory, Wid, keyed_finds};

/// How many rounds a generated script has.
const ROUNDS: u32 = 500;

/// The script that is made of a number: three peers, four windows, and then 500 lines that paint them at
/// random, with `turn` after each tenth.
pub fn generate(alloc: Global, n: u32) -> Result<Script, NoMemory>
    ensures { IfOk result (λ script. script ≡ generated n) }
{
    let mut reader = begin(alloc)?;
    let mut generator = Generator::new(u64::from(n));
    for round in 0..ROUNDS {
        reader = add_round(reader, &mut generator, round)?;
    }
    Ok(reader.into_script())
}

/// The peers and the windows.
fn begin(alloc: Global) -> Result<Reader, NoMemory>
    ensures lines { IfOk result (λ reader. reader ≡ beginning) }
    ensures ready { IfOk result IsReady }
{
    let reader = Reader::new(alloc)?;
    let reader = add_peer(alloc, reader, false)?;
    let reader = add_peer(alloc, reader, true)?;
    let reader = add_peer(alloc, reader, false)?;
    let reader = add_window(reader, 0)?;
    let reader = add_window(reader, 1)?;
    let reader = add_window(reader, 2)?;
    add_window(reader, 3)
}

/// One more peer, before all windows.
fn add_peer(alloc: Global, reader: Reader, lossy: bool) -> Result<Reader, NoMemory>
    requires { IsBegun reader 0 }
    ensures lines { IfOk result (λ more. more ≡ reader ++ joining lossy ∷ []) }
    ensures begun { IfOk result (λ more. IsBegun more 0) }
{
    let kind = if lossy { Kind::Lossy } else { Kind::Exact };
    reader.push(Line::Peer(Order::Join(kind, Name::new(Vec::new(alloc)))))
}

/// One more window, after so many.
fn add_window(reader: Reader, count: u32) -> Result<Reader, NoMemory>
    requires begun { IsBegun reader count }
    requires few { count < 4 }
    ensures lines { IfOk result (λ more. more ≡ reader ++ opening_line count ∷ []) }
    ensures begun { IfOk result (λ more. IsBegun more (count + 1)) }
{
    let Some(wid) = Wid::new(i64::from(count + 1)) else {
        unreachable!()
    };
    reader.push(Line::Paint(Paint::Open {
        wid,
        x: 0,
        y: 0,
        w: 256,
        h: 256,
    }))
}

/// One more round, after so many.
fn add_round(reader: Reader, generator: &mut Generator, round: u32) -> Result<Reader, NoMemory>
    requires ready { IsReady reader }
    requires few { round < 500 }
    ensures state { generator.new ≡ state_after generator.old 7 }
    ensures lines { IfOk result (λ more. more ≡ reader ++ round_lines generator.old round) }
    ensures ready { IfOk result IsReady }
{
    keyed_finds::<Opening>();
    let reader = reader.push(Line::Paint(round_line(draw_round(generator))))?;
    pause(reader, round + 1)
}

/// A turn, after each tenth round.
fn pause(reader: Reader, round: u32) -> Result<Reader, NoMemory>
    requires { IsReady reader }
    ensures lines { IfOk result (λ more. more ≡ reader ++ pause_after round) }
    ensures ready { IfOk result IsReady }
{
    if round % 10 != 0 {
        return Ok(reader);
    }
    reader.push(Line::Plan(PlanLine::Turn))
}
