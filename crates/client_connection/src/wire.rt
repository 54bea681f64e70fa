//! What the one client says that is built, as bytes.
ghost use Rattle.std.specs.Prelude.{◌≡◌, ◌≤◌, ◌<◌, ◌^◌, ◌++◌, IfOk, OnOk, length};
ghost use Rattle.client_connection.specs.Wire.{header, packet, geometry_text, map_window};

use crate::geometry::Geometry;
use std::alloc::Global;
use xp_base::{NoMemory, Text};

/// The map of a window that an exact client sends, whole.
pub fn map_window_packet(alloc: Global, geometry: &Geometry) -> Result<Vec<u8>, NoMemory>
    ensures { IfOk result (λ bytes. bytes.items ≡ map_window geometry.now) }
{
    let numbers = geometry_items(alloc, geometry)?;
    let mut content = Text::new(alloc);
    content.text(b"l10:map-window")?;
    content.text(numbers.as_slice())?;
    content.text(b"e")?;
    main_packet(alloc, content.as_slice())
}

/// The five numbers, each as a bencode integer.
fn geometry_items(alloc: Global, geometry: &Geometry) -> Result<Text, NoMemory>
    ensures text { IfOk result (λ text. text ≡ geometry_text geometry.now) }
    ensures short { IfOk result (λ text. length text ≤ 200) }
{
    let mut text = Text::new(alloc);
    text.text(b"i")?;
    text.number(u64::from(geometry.wid.get()))?;
    text.text(b"ei")?;
    text.signed(i64::from(geometry.x))?;
    text.text(b"ei")?;
    text.signed(i64::from(geometry.y))?;
    text.text(b"ei")?;
    text.number(u64::from(geometry.w))?;
    text.text(b"ei")?;
    text.number(u64::from(geometry.h))?;
    text.text(b"e")?;
    Ok(text)
}

/// A main packet: its header, and its content.
fn main_packet(alloc: Global, content: &[u8]) -> Result<Vec<u8>, NoMemory>
    requires { length content.now < 2 ^ 32 }
    ensures { IfOk result (λ bytes. bytes.items ≡ packet content.now) }
{
    let mut bytes = Vec::new(alloc);
    push_header(&mut bytes, 0, content.len() as u32)?;
    bytes.extend_from_slice(content)?;
    Ok(bytes)
}

fn push_header(bytes: &mut Vec<u8>, index: u8, size: u32) -> Result<(), NoMemory>
    ensures { OnOk result (bytes.new.items ≡ bytes.old.items ++ header index size) }
{
    bytes.extend_from_slice(&[b'P', 0, 0, index])?;
    bytes.extend_from_slice(&size.to_be_bytes())?;
    Ok(())
}
