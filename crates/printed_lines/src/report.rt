// The final report.
ghost use Rattle.std.specs.Prelude.{◌≡◌, ◌≤◌, ◌*◌, ◌++◌, OnOk, IfOk, length, sum};
ghost use Rattle.printed_lines.specs.Report.{report, windows_text, window_line, window_lines, client_line, client_lines};

use crate::ends::write_end;
use connection_ends::End;
use std::alloc::Global;
use window_model::{Desk, Win};
use xp_base::{NoMemory, Pixel, Text};

/// The windows from bottom to top, and how each connection ended.
pub fn write_report(alloc: Global, desk: &Desk, ends: &[End]) -> Result<Text, NoMemory>
    ensures { IfOk result (λ text. text ≡ report desk.now ends.now) }
{
    let mut text = Text::new(alloc);
    write_windows(alloc, &mut text, desk)?;
    write_clients(alloc, &mut text, ends)?;
    Ok(text)
}

/// The windows alone. After want of memory nothing is promised of the text.
pub fn write_windows(alloc: Global, text: &mut Text, desk: &Desk) -> Result<(), NoMemory>
    ensures { OnOk result (text.new ≡ text.old ++ windows_text desk.now) }
{
    text.text(b"windows ")?;
    text.number(desk.len() as u64)?;
    text.text(b"\n")?;
    write_each(alloc, text, desk.as_slice())
}

fn write_each(alloc: Global, text: &mut Text, windows: &[Win]) -> Result<(), NoMemory>
    ensures { OnOk result (text.new ≡ text.old ++ window_lines windows.now) }
{
    for window in windows {
        let line = window_text(alloc, window)?;
        text.text(line.as_slice())?;
    }
    Ok(())
}

fn window_text(alloc: Global, window: &Win) -> Result<Text, NoMemory>
    ensures { IfOk result (λ text. text ≡ window_line window.now) }
{
    let mut text = Text::new(alloc);
    text.text(b"window ")?;
    text.number(u64::from(window.wid.get()))?;
    text.text(b" ")?;
    text.signed(i64::from(window.x))?;
    text.text(b" ")?;
    text.signed(i64::from(window.y))?;
    text.text(b" ")?;
    text.number(u64::from(window.w))?;
    text.text(b" ")?;
    text.number(u64::from(window.h))?;
    text.text(b" ")?;
    text.number(pixel_sum(window))?;
    text.text(b"\n")?;
    Ok(text)
}

fn pixel_sum(window: &Win) -> u64
    ensures { result ≡ sum window.now.pixels }
{
    let _area = window.area();
    sum_of(window.pixels.as_slice())
}

fn sum_of(pixels: &[Pixel]) -> u64
    requires { length pixels.now ≤ 4096 * 4096 }
    ensures { result ≡ sum pixels.now }
{
    let mut total: u64 = 0;
    for pixel in pixels {
        total += u64::from(pixel.get());
    }
    total
}

fn write_clients(alloc: Global, text: &mut Text, ends: &[End]) -> Result<(), NoMemory>
    ensures { OnOk result (text.new ≡ text.old ++ client_lines 0 ends.now) }
{
    for number in 0..ends.len() {
        let line = client_text(alloc, number as u64, ends[number])?;
        text.text(line.as_slice())?;
    }
    Ok(())
}

fn client_text(alloc: Global, number: u64, end: End) -> Result<Text, NoMemory>
    ensures { IfOk result (λ text. text ≡ client_line number end) }
{
    let mut text = Text::new(alloc);
    text.text(b"client ")?;
    text.number(number)?;
    text.text(b" ")?;
    write_end(&mut text, end)?;
    text.text(b"\n")?;
    Ok(text)
}
