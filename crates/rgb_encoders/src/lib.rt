//! The two codings of pixels: four bytes a pixel, exactly, or two bytes a pixel, with a stated loss.
#![tactic(auto)]

mod blocks;
mod decoding;
mod encoding;
mod fault;
mod lanes;
mod laws;
mod plain;
mod sizes;

pub use decoding::decode;
pub use encoding::{Encoded, encode};
pub use fault::DataFault;
pub use laws::{
    coded_length, decoded_length, decoded_point, decoded_shows, encoded_shows, shown_colour,
};
pub use plain::{plain_decoding, plain_encoding};
pub use sizes::pixel_size;
