//! What the server says to a client, as bytes.
ghost use Rattle.std.specs.Prelude.{◌≡◌, ◌<◌, ◌^◌, IfOk};
ghost use Rattle.xp_base.specs.declared.coding.Coding.TheVariants.{Exact};
ghost use Rattle.rgb_encoders.specs.PixelBytes.{coded_bytes};
ghost use Rattle.window_model.specs.Desktop.{IsSide, IsPlace};
ghost use Rattle.client_connection.specs.Wire.{server_hello, new_window, draw};

use crate::geometry::Geometry;
use hello_caps::Caps;
use packet_frames::write_packet;
use packet_kinds::{ToClient, to_bytes};
use rgb_encoders::encode;
use std::alloc::Global;
use std::sync::Arc;
use window_model::Win;
use xp_base::{Bytes, Capture, Coding, NoMemory, Rect};

/// The server's hello to a client that takes exact draws alone.
pub fn server_hello_packet(alloc: Global) -> Result<Vec<u8>, NoMemory>
    ensures { IfOk result (λ bytes. bytes.items ≡ server_hello) }
{
    let caps = Caps {
        lossy: false,
        uuid: Bytes::new(Vec::new(alloc)),
    };
    let hello = hello_caps::server_hello(alloc, &caps)?;
    write_packet(alloc, &hello, None)
}

/// A window's announcement.
pub fn new_window_packet(alloc: Global, geometry: &Geometry) -> Result<Vec<u8>, NoMemory>
    requires across { IsPlace geometry.now.x }
    requires down { IsPlace geometry.now.y }
    requires wide { IsSide geometry.now.w }
    requires high { IsSide geometry.now.h }
    ensures { IfOk result (λ bytes. bytes.items ≡ new_window geometry.now) }
{
    let _number = geometry.wid.get();
    let message = ToClient::NewWindow {
        wid: geometry.wid,
        x: geometry.x,
        y: geometry.y,
        w: geometry.w,
        h: geometry.h,
    };
    to_bytes(alloc, &message)
}

/// The exact draw of a whole window: a chunk with its pixels, and the main packet.
pub fn draw_packet(alloc: Global, window: &Win, sequence: u64) -> Result<Vec<u8>, NoMemory>
    requires { sequence < 2 ^ 63 }
    ensures { IfOk result (λ bytes. bytes.items ≡ draw window.now sequence) }
{
    let _area = window.area();
    let message = ToClient::Draw {
        wid: window.wid,
        x: 0,
        y: 0,
        w: window.w,
        h: window.h,
        coding: Coding::Exact,
        bytes: whole_bytes(alloc, window)?,
        packet_sequence: sequence as i64,
        rowstride: window.w * 4,
    };
    to_bytes(alloc, &message)
}

/// The window's pixels, coded exactly.
fn whole_bytes(alloc: Global, window: &Win) -> Result<Bytes, NoMemory>
    ensures { IfOk result (λ bytes. bytes ≡ coded_bytes Exact window.now.pixels) }
{
    let _area = window.area();
    let whole = Rect {
        x: 0,
        y: 0,
        w: window.w,
        h: window.h,
    };
    let pixels = window.crop(alloc, whole)?;
    let capture = Capture::new(whole, Coding::Exact, pixels);
    let encoded = encode(alloc, Arc::new(alloc, capture)?)?;
    Ok(Bytes::new(encoded.bytes))
}
