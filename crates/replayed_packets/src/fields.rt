// Word fields, read and set.
use crate::Kind;
use crate::answer::{Answer, Stop};

// Reads a field of a word.
fn read(kind: Kind, word: u32, index: usize) -> Result<usize, Stop> {
    match kind {
        Kind::Bit => Ok(usize::from(bit_ops::bit(word, index)?)),
        Kind::Crumb => Ok(usize::from(bit_ops::crumb(word, index)?)),
        Kind::Nibble => Ok(usize::from(bit_ops::nibble(word, index)?)),
        Kind::Septet => Ok(usize::from(bit_ops::septet(word, index)?)),
        Kind::Octet => Ok(usize::from(bit_ops::octet(word, index)?)),
        Kind::Word => Ok(usize::from(bit_ops::word(word, index)?)),
        _ => Err(Stop::NoRecord),
    }
}

// A word with a field set.
fn set(kind: Kind, word: u32, index: usize, value: usize) -> Result<u32, Stop> {
    match kind {
        Kind::SetBit => Ok(bit_ops::set_bit(word, index, as_bit(value)?)?),
        Kind::SetCrumb => Ok(bit_ops::set_crumb(word, index, u8::try_from(value)?)?),
        Kind::SetNibble => Ok(bit_ops::set_nibble(word, index, u8::try_from(value)?)?),
        Kind::SetSeptet => Ok(bit_ops::set_septet(word, index, u8::try_from(value)?)?),
        Kind::SetOctet => Ok(bit_ops::set_octet(word, index, u8::try_from(value)?)?),
        Kind::SetWord => Ok(bit_ops::set_word(word, index, u16::try_from(value)?)?),
        _ => Err(Stop::NoRecord),
    }
}

// The bit that a number is.
fn as_bit(value: usize) -> Result<bool, Stop> {
    match value {
        0 => Ok(false),
        1 => Ok(true),
        _ => Err(Stop::NoRecord),
    }
}

// The answer of a field of the one word.
pub(crate) fn reply(
    kind: Kind,
    words: &[u32],
    numbers: &[usize],
    answer: &mut Answer<'_>,
) -> Result<(), Stop> {
    let number = match (words, numbers) {
        ([word], [index]) => read(kind, *word, *index)?,
        ([word], [index, value]) => set(kind, *word, *index, *value)? as usize,
        (_, _) => return Err(Stop::NoRecord),
    };
    answer.say(&[0, number]);
    Ok(())
}
