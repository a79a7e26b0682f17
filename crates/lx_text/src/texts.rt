//! Texts that are made of words and numbers.

ghost use Rattle.std.specs.Prelude.{◌≡◌, ◌++◌, ◌∷◌, [], ◌<◌, ◌≤◌, ◌-◌, length, take, IfOk, OnOk, OnErr};
ghost use Rattle.std.specs.Fmt.{signed_decimal, decimal};
ghost use Rattle.lx_text.specs.Hex.{hex_text, zeros_text};

use crate::lists::{List, NoMemory};
use itoa::Buffer;
use std::alloc::Global;
use std::marker::Model;

/// A text that grows at its end.
#[derive(Drop)]
pub struct Text {
    bytes: Vec<u8>,
}

impl Model for Text {
    ghost use Rattle.std.specs.Prelude.{List, ℕ};

    ghost Value = { List ℕ };

    ghost view = { λ text. text.bytes.items };
}

impl Text {
    /// The empty text.
    pub fn new(alloc: Global) -> Text
        ensures { result ≡ [] }
    {
        Text {
            bytes: Vec::new(alloc),
        }
    }

    /// The bytes so far.
    pub fn as_bytes(&self) -> &[u8]
        ensures { result.now ≡ self.now }
    {
        self.bytes.as_slice()
    }

    /// The bytes as a list. It takes no memory.
    pub fn into_list(self) -> List<u8>
        ensures { result ≡ self }
    {
        List::from_vec(self.bytes)
    }

    /// Appends these bytes.
    pub fn word(&mut self, bytes: &[u8]) -> Result<(), NoMemory>
        ensures ok { OnOk result (self.new ≡ self.old ++ bytes.now) }
        ensures err { OnErr result (self.new ≡ self.old) }
    {
        self.bytes.extend_from_slice(bytes)?;
        Ok(())
    }

    /// Appends a number in decimal, with `-` before it where it is negative.
    pub fn dec(&mut self, number: i128) -> Result<(), NoMemory>
        ensures ok { OnOk result (self.new ≡ self.old ++ signed_decimal number) }
        ensures err { OnErr result (self.new ≡ self.old) }
    {
        let mut buffer = Buffer::new();
        self.word(buffer.format(number).as_bytes())?;
        Ok(())
    }

    /// Appends an unsigned number in decimal.
    pub fn count(&mut self, number: u128) -> Result<(), NoMemory>
        ensures ok { OnOk result (self.new ≡ self.old ++ decimal number) }
        ensures err { OnErr result (self.new ≡ self.old) }
    {
        let mut buffer = Buffer::new();
        self.word(buffer.format(number).as_bytes())?;
        Ok(())
    }

    /// Appends `0x` and the lower-case hexadecimal digits of a number, at least so many of them.
    #[tactic(auto, unfolding(crate::specs::Hex::hex_text))]
    pub fn hex(&mut self, number: u64, digits: u8) -> Result<(), NoMemory>
        ensures ok { OnOk result (self.new ≡ self.old ++ hex_text digits number) }
        ensures err { OnErr result (self.new ≡ self.old) }
    {
        let alloc = *self.bytes.allocator();
        let mut shown = Text::new(alloc);
        shown.word(b"0x")?;
        let written = format!(in alloc; "{number:x}")?;
        shown.zeros((digits as usize).saturating_sub(written.len()))?;
        shown.word(written.as_bytes())?;
        self.word(shown.as_bytes())?;
        Ok(())
    }

    // Appends so many zeros.
    fn zeros(&mut self, count: usize) -> Result<(), NoMemory>
        ensures { OnOk result (self.new ≡ self.old ++ zeros_text count) }
    {
        for _ in 0..count {
            self.word(b"0")?;
        }
        Ok(())
    }
}
