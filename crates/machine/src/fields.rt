//! Words of 64 bits and their fields.

ghost use Rattle.std.specs.Prelude.{◌≡◌};
ghost use Rattle.machine.specs.Packing.{fields, fields_in, word_of};

/// A word by its fields: the operation in bits 0 to 7, three operands in bits 8 to 15, 16 to 23 and
/// 24 to 31, and a number, mask or place in bits 32 to 63.
#[derive(Clone, Copy)]
pub struct Fields {
    pub operation: u8,
    pub first: u8,
    pub second: u8,
    pub third: u8,
    pub number: u32,
}

impl Fields {
    /// The fields, by their places in the word.
    pub fn new(operation: u8, first: u8, second: u8, third: u8, number: u32) -> Fields
        ensures { result ≡ fields operation first second third number }
    {
        Fields {
            operation,
            first,
            second,
            third,
            number,
        }
    }

    /// The fields in a word.
    #[inline(always)]
    pub fn in_word(word: u64) -> Fields
        ensures { result ≡ fields_in word }
    {
        Fields {
            operation: (word % 0x100) as u8,
            first: (word / 0x100 % 0x100) as u8,
            second: (word / 0x1_0000 % 0x100) as u8,
            third: (word / 0x100_0000 % 0x100) as u8,
            number: (word / 0x1_0000_0000) as u32,
        }
    }

    /// The word with these fields, which has no others.
    pub fn word(&self) -> u64
        ensures value { result ≡ word_of self.now }
        ensures back { fields_in result ≡ self.now }
    {
        self.operation as u64
            + self.first as u64 * 0x100
            + self.second as u64 * 0x1_0000
            + self.third as u64 * 0x100_0000
            + self.number as u64 * 0x1_0000_0000
    }
}
