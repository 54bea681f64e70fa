// Text made piece by piece.
ghost use Rattle.std.specs.Prelude.{◌≡◌, ◌≤◌, ◌+◌, ◌++◌, [], OnOk, length};
ghost use Rattle.std.specs.Fmt.{decimal, signed_decimal};

use crate::memory::NoMemory;
use std::alloc::Global;
use std::marker::Model;

/// Bytes to which texts and numbers in decimal are appended.
#[derive(Debug, Drop)]
pub struct Text(Vec<u8>);

impl Model for Text {
    ghost use Rattle.std.specs.Prelude.{List, ℕ};

    ghost Value = { List ℕ };

    ghost view = { λ t. t.0.items };
}

impl Text {
    /// No bytes.
    pub fn new(alloc: Global) -> Text
        ensures { result ≡ [] }
    {
        Text(Vec::new(alloc))
    }

    /// Appends these bytes. After want of memory nothing is promised of the text.
    pub fn text(&mut self, bytes: &[u8]) -> Result<(), NoMemory>
        ensures ok { OnOk result (self.new ≡ self.old ++ bytes.now) }
        ensures size { OnOk result (length self.new ≡ length self.old + length bytes.now) }
    {
        self.0.extend_from_slice(bytes)?;
        Ok(())
    }

    /// Appends the number in decimal, without leading zeros. After want of memory nothing is promised of the text.
    #[tactic(auto, using(crate::proofs::Texts::number_short))]
    pub fn number(&mut self, n: u64) -> Result<(), NoMemory>
        ensures ok { OnOk result (self.new ≡ self.old ++ decimal n) }
        ensures size { OnOk result (length self.new ≤ length self.old + 20) }
    {
        let alloc = *self.0.allocator();
        let digits = format!(in alloc; "{n}")?;
        self.0.extend_from_slice(digits.as_bytes())?;
        Ok(())
    }

    /// The same, with a `-` in front of a number below 0.
    #[tactic(auto, using(crate::proofs::Texts::signed_short))]
    pub fn signed(&mut self, n: i64) -> Result<(), NoMemory>
        ensures ok { OnOk result (self.new ≡ self.old ++ signed_decimal n) }
        ensures size { OnOk result (length self.new ≤ length self.old + 21) }
    {
        let alloc = *self.0.allocator();
        let digits = format!(in alloc; "{n}")?;
        self.0.extend_from_slice(digits.as_bytes())?;
        Ok(())
    }

    /// The bytes so far.
    pub fn as_slice(&self) -> &[u8]
        ensures { result.now ≡ self.now }
    {
        self.0.as_slice()
    }

    /// The bytes, given away.
    pub fn into_vec(self) -> Vec<u8>
        ensures { result.items ≡ self }
    {
        let Text(bytes) = self;
        bytes
    }
}
