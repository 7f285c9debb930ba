// Word fields: read and set bit, crumb, nibble, septet, octet, word of a 32-bit word. Field 0 is the most significant.
// Each call refuses (Field, place 0) exactly when the field index, or the value for the field, is too big.
#![tactic(auto)]

ghost use Rattle.std.specs.Prelude.{◌≡◌, ◌+◌, ◌*◌, ◌^◌, ◌≤◌, ◌<◌, MatchResult};
ghost use Rattle.ump.specs.Word as ump;
ghost use Rattle.ump.specs.Word.{bit_field, crumb_field, nibble_field, septet_field, octet_field, word_field, shift, get_field, set_field};
ghost use Rattle.bit_ops.specs.Meaning.{bit_number, bit_meaning};
ghost use Rattle.refusal.specs.Meaning.{answer_of};
ghost use Rattle.refusal.specs.declared.Refusal.TheVariants as refusals;

use refusal::{Fault, Refusal};
use std::marker::Model;

// A kind of field: how many a word has, how many bits apart they begin, how many bits wide each is.
#[derive(Clone, Copy, Debug, PartialEq, Eq)]
struct Field {
    count: u32,
    step: u32,
    width: u32,
}

impl Model for Field {
    ghost Value = { ump.Field };

    ghost view = { λ f. record { count = f.count; step = f.step; width = f.width } };

    ghost inverse = { λ f. record { count = f.count; step = f.step; width = f.width } };

    // The fields stand within a word, and each has room for its bits.
    ghost invariant = { λ f. (f.count * f.step ≤ 32) × (f.width ≤ f.step) × (f.width < 32) × (0 < f.step) };
}

const BIT: Field = Field {
    count: 32,
    step: 1,
    width: 1,
};

const CRUMB: Field = Field {
    count: 16,
    step: 2,
    width: 2,
};

const NIBBLE: Field = Field {
    count: 8,
    step: 4,
    width: 4,
};

const SEPTET: Field = Field {
    count: 4,
    step: 8,
    width: 7,
};

const OCTET: Field = Field {
    count: 4,
    step: 8,
    width: 8,
};

const WORD: Field = Field {
    count: 2,
    step: 16,
    width: 16,
};

impl Field {
    // The most that a field holds: its bits, all set.
    fn most(self) -> u32
        ensures { result + 1 ≡ 2 ^ self.width }
    {
        (1 << self.width) - 1
    }

    // How far field `index` stands above the lowest bit of the word; Field where a word has no such field.
    fn low(self, index: usize) -> Result<u32, Refusal>
        ensures { MatchResult result (λ low. (index < self.count) × (low ≡ shift self index) × (low + self.width ≤ 32))
            (λ refusal. (self.count ≤ index) × (refusal ≡ refusals.Field)) }
    {
        if index < self.count as usize {
            Ok((self.count - 1 - index as u32) * self.step)
        } else {
            Err(Refusal::Field)
        }
    }

    // Field `index` of a word.
    fn get(self, word: u32, index: usize) -> Result<u32, Fault>
        ensures { answer_of result ≡ get_field self word index }
    {
        let low = self.low(index)?;
        Ok((word >> low) & self.most())
    }

    // Field `index` of a word, where it is no wider than a byte.
    fn get_byte(self, word: u32, index: usize) -> Result<u8, Fault>
        requires { self.width ≤ 8 }
        ensures { answer_of result ≡ get_field self word index }
    {
        Ok(self.get(word, index)? as u8)
    }

    // A word with a value in field `index`.
    fn set(self, word: u32, index: usize, value: u32) -> Result<u32, Fault>
        ensures { answer_of result ≡ set_field self word index value }
    {
        let low = self.low(index)?;
        if value > self.most() {
            return Err(Refusal::Field.into());
        }
        Ok((word & !(self.most() << low)) | (value << low))
    }
}

// Reads a bit.
pub fn bit(word: u32, index: usize) -> Result<bool, Fault>
    ensures { bit_meaning result ≡ get_field bit_field word index }
{
    Ok(BIT.get(word, index)? != 0)
}

// Sets a bit.
pub fn set_bit(word: u32, index: usize, value: bool) -> Result<u32, Fault>
    ensures { answer_of result ≡ set_field bit_field word index (bit_number value) }
{
    BIT.set(word, index, value as u32)
}

// Reads a crumb, of two bits.
pub fn crumb(word: u32, index: usize) -> Result<u8, Fault>
    ensures { answer_of result ≡ get_field crumb_field word index }
{
    CRUMB.get_byte(word, index)
}

// Sets a crumb.
pub fn set_crumb(word: u32, index: usize, value: u8) -> Result<u32, Fault>
    ensures { answer_of result ≡ set_field crumb_field word index value }
{
    CRUMB.set(word, index, value as u32)
}

// Reads a nibble, of four bits.
pub fn nibble(word: u32, index: usize) -> Result<u8, Fault>
    ensures { answer_of result ≡ get_field nibble_field word index }
{
    NIBBLE.get_byte(word, index)
}

// Sets a nibble.
pub fn set_nibble(word: u32, index: usize, value: u8) -> Result<u32, Fault>
    ensures { answer_of result ≡ set_field nibble_field word index value }
{
    NIBBLE.set(word, index, value as u32)
}

// Reads a septet: the low seven bits of an octet.
pub fn septet(word: u32, index: usize) -> Result<u8, Fault>
    ensures { answer_of result ≡ get_field septet_field word index }
{
    SEPTET.get_byte(word, index)
}

// Sets a septet. Its octet's top bit is kept.
pub fn set_septet(word: u32, index: usize, value: u8) -> Result<u32, Fault>
    ensures { answer_of result ≡ set_field septet_field word index value }
{
    SEPTET.set(word, index, value as u32)
}

// Reads an octet, of eight bits.
pub fn octet(word: u32, index: usize) -> Result<u8, Fault>
    ensures { answer_of result ≡ get_field octet_field word index }
{
    OCTET.get_byte(word, index)
}

// Sets an octet.
pub fn set_octet(word: u32, index: usize, value: u8) -> Result<u32, Fault>
    ensures { answer_of result ≡ set_field octet_field word index value }
{
    OCTET.set(word, index, value as u32)
}

// Reads a word, of 16 bits.
pub fn word(word: u32, index: usize) -> Result<u16, Fault>
    ensures { answer_of result ≡ get_field word_field word index }
{
    Ok(WORD.get(word, index)? as u16)
}

// Sets a word of 16 bits.
pub fn set_word(word: u32, index: usize, value: u16) -> Result<u32, Fault>
    ensures { answer_of result ≡ set_field word_field word index value }
{
    WORD.set(word, index, value as u32)
}
