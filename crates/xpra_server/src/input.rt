// Input that is read to its end, or past its limit.
ghost use Rattle.std.specs.Prelude.{◌≡◌, ◌≤◌};
ghost use Rattle.xp_base.specs.Counts.{Rose};
ghost use Rattle.xpra_server.specs.Read.{ReadsAll, IsFailed};

use std::alloc::Global;
use xp_base::{Get, Source};

/// How the reading of an input went.
#[derive(Debug, Drop)]
pub enum Input {
    /// All of it.
    Whole(Vec<u8>),
    /// It is longer than its limit.
    Long,
    Failed,
    NoMemory,
}

/// How many bytes one read asks for at most.
const CHUNK: u32 = 4096;

/// Reads to the end, or until more than `limit` bytes were read.
pub fn read_all<S: Source>(alloc: Global, input: &mut S, limit: usize) -> Input
    requires { limit ≤ 1_000_000_000 }
    ensures answer { ReadsAll (S.source input.old).left (S.source input.new).left limit result }
    ensures cause { IsFailed result → Rose (S.source input.old).faults (S.source input.new).faults }
    ensures well { ¬ IsFailed result → (S.source input.new).faults ≡ (S.source input.old).faults }
{
    let mut text = Vec::new(alloc);
    'reads: while text.len() <= limit {
        match input.get(&mut text, CHUNK) {
            Get::Got(_) => {}
            Get::End => return Input::Whole(text),
            Get::Failed => return Input::Failed,
            Get::NoMemory => return Input::NoMemory,
        }
    }
    Input::Long
}
