//! Frames: which packets a stream of bytes holds, in whatever pieces it comes, and how a packet is
//! written.
#![tactic(auto)]

mod ahead;
mod begun;
mod chunk;
mod fault;
mod framer;
mod head;
mod item;
mod laws;
mod left;
mod main_packet;
mod next;
mod packet;
mod pieces;
mod writer;

pub use chunk::Chunk;
pub use fault::FrameFault;
pub use framer::Framer;
pub use laws::{
    a_chunk_is_put_in_by_form, a_content_reads_as_its_grammar_says, a_part_of_a_packet_adds_none,
    a_written_packet_follows, appending_reads_on, nothing_is_read_behind_a_fault,
    packets_are_of_bytes,
};
pub use left::{a_packet_given_was_the_next, packets_before_stay};
pub use next::Next;
pub use pieces::{Held, read_pieces};
pub use writer::write_packet;
