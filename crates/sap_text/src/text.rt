//! Texts that grow at their end.
ghost use Rattle.std.specs.Prelude.{◌≡◌, ◌≤◌, ◌∷◌, ◌++◌, [], decimal, drop, OnOk, OnErr};

use sap_terms::{Copied, Mem};
use std::alloc::Global;
use std::marker::Model;

/// The bytes pushed so far.
#[derive(Drop)]
pub struct Text {
    bytes: Vec<u8>,
}

impl Model for Text {
    ghost use Rattle.std.specs.Prelude.{List, ℕ};

    ghost Value = { List ℕ };

    ghost view = { λ t. t.bytes.items };
}

impl Text {
    /// The empty text. It takes no memory.
    pub fn new(alloc: Global) -> Text
        ensures { result ≡ [] }
    {
        Text {
            bytes: Vec::new(alloc),
        }
    }

    /// Puts the bytes last.
    pub fn push_bytes(&mut self, bytes: &[u8]) -> Result<(), Mem>
        ensures ok { OnOk result (self.new ≡ self.old ++ bytes.now) }
        ensures err { OnErr result (self.new ≡ self.old) }
    {
        self.bytes.extend_from_slice(bytes)?;
        Ok(())
    }

    /// Puts the byte last.
    pub fn push_byte(&mut self, byte: u8) -> Result<(), Mem>
        ensures ok { OnOk result (self.new ≡ self.old ++ byte ∷ []) }
        ensures err { OnErr result (self.new ≡ self.old) }
    {
        self.bytes.push(byte)?;
        Ok(())
    }

    /// Puts the number last, in decimal and without leading zeros.
    pub fn push_number(&mut self, n: u64) -> Result<(), Mem>
        ensures ok { OnOk result (self.new ≡ self.old ++ decimal n) }
        ensures err { OnErr result (self.new ≡ self.old) }
    {
        if n < 10 {
            return self.push_byte(b'0' + n as u8);
        }
        let mut digits = [b'0'; 20];
        let first = write_digits(n, &mut digits);
        self.push_bytes(&digits[first..])
    }

    /// The bytes pushed, in order.
    pub fn as_bytes(&self) -> &[u8]
        ensures { result.now ≡ self.now }
    {
        self.bytes.as_slice()
    }
}

impl Copied for Text {
    fn copy(&self, alloc: Global) -> Result<Text, Mem> {
        let mut text = Text::new(alloc);
        text.push_bytes(self.as_bytes())?;
        Ok(text)
    }
}

/// Writes the number's digits to the end of the array. The result is where they begin.
fn write_digits(number: u64, digits: &mut [u8; 20]) -> usize
    ensures within { result ≤ 20 }
    ensures decimal { drop result digits.new ≡ decimal number }
{
    let mut rest = number;
    let mut at: usize = 20;
    while rest >= 10 {
        at -= 1;
        digits[at] = b'0' + (rest % 10) as u8;
        rest /= 10;
    }
    at -= 1;
    digits[at] = b'0' + rest as u8;
    at
}
