// Output.
ghost use Rattle.xp_base.specs.Streams.{SinkRecord};

/// How a write to the output went.
#[derive(Clone, Copy, Debug, PartialEq, Eq)]
pub enum Put {
    /// All of the piece was taken.
    Done,
    /// Writing failed, and a part of the piece from its front was taken: the sink's count of faults rose.
    Failed,
    /// A part of the piece from its front was taken.
    NoMemory,
}

/// Where printed text or packets go.
pub trait Sink {
    ghost use Rattle.xp_base.specs.Answers.{PutGives};

    /// The bytes that were taken, where they are told, and the count of faults.
    ghost sink: { Self → SinkRecord };

    fn put(&mut self, piece: &[u8]) -> Put
        ensures answer { PutGives (sink self.old) (sink self.new) piece.now result };
}
