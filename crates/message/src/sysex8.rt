// SysEx8 messages: the check, payload bytes, and the setters.
ghost use Rattle.std.specs.Prelude.{◌≡◌, ◌<◌, get_or};
ghost use Rattle.ump.specs.Packet.{sysex8};
ghost use Rattle.ump.specs.Check.{checked, payload_of};
ghost use Rattle.ump.specs.Setters.{get_byte, copy_payload, set_group, set_id, set_byte};
ghost use Rattle.message.specs.Meaning.{check_meaning8};
ghost use Rattle.message.specs.Accepted.{Accepted};
ghost use Rattle.refusal.specs.Meaning.{answer_of};

use crate::scan::size_found;
use layout::Sysex8;
use refusal::{Fault, Refusal};

// What a message says: group, stream id, payload size and words.
#[derive(Clone, Copy, Debug, PartialEq, Eq)]
pub struct Summary {
    pub group: u8,
    pub id: u8,
    pub size: usize,
    pub words: usize,
}

// Checks the message in the first `length` of the words lent: refusals 1 to 12, each over all packets before the next.
pub fn check(words: &[u32], length: usize) -> Result<Summary, Fault>
    ensures { check_meaning8 result ≡ checked sysex8 words.now length }
{
    let size = size_found::<Sysex8>(words, length)?;
    let first = words[0];
    Ok(Summary {
        group: layout::group_of(first),
        id: layout::id_of(first),
        size,
        words: length,
    })
}

// Payload byte `index` of a message that passed the check, of `size` bytes.
pub fn byte_of(words: &[u32], length: usize, size: usize, index: usize) -> u8
    requires { Accepted words.now length size × (index < size) }
    ensures { result ≡ get_or (payload_of sysex8 words.now length) index 0 }
{
    let place = crate::bytes::place_of(words, length / 4, size, index);
    crate::bytes::byte_at(words, place.packet, place.byte)
}

// Payload byte `index` of the message: the check's refusals, then Range.
pub fn byte(words: &[u32], length: usize, index: usize) -> Result<u8, Fault>
    ensures { answer_of result ≡ get_byte sysex8 words.now length index }
{
    let size = size_found::<Sysex8>(words, length)?;
    if size <= index {
        return Err(Refusal::Range.into());
    }
    Ok(byte_of(words, length, size, index))
}

// Copies the payload to the bytes lent: the check's refusals, then Room where they are too few; bytes past it stay.
pub fn payload(words: &[u32], length: usize, bytes: &mut [u8]) -> Result<usize, Fault>
    ensures { (answer_of result, bytes.new) ≡ copy_payload sysex8 words.now length bytes.old }
{
    let size = size_found::<Sysex8>(words, length)?;
    if bytes.len() < size {
        return Err(Refusal::Room.into());
    }
    crate::bytes::copy_packets(words, length / 4, bytes);
    Ok(size)
}

// Sets the group of the message: the check's refusals, then Field.
pub fn set_group(words: &mut [u32], length: usize, group: u8) -> Result<(), Fault>
    ensures { (answer_of result, words.new) ≡ set_group sysex8 words.old length group }
{
    size_found::<Sysex8>(words, length)?;
    if group > 15 {
        return Err(Refusal::Field.into());
    }
    crate::heads::set_heads(words, length / 4, |word| layout::with_group(word, group));
    Ok(())
}

// Sets the stream id of the message, octet 2 of each packet: the check's refusals.
pub fn set_stream_id(words: &mut [u32], length: usize, id: u8) -> Result<(), Fault>
    ensures { (answer_of result, words.new) ≡ set_id words.old length id }
{
    size_found::<Sysex8>(words, length)?;
    crate::heads::set_heads(words, length / 4, |word| layout::with_id(word, id));
    Ok(())
}

// Sets payload byte `index` of the message: the check's refusals, then Range.
pub fn set_byte(words: &mut [u32], length: usize, index: usize, value: u8) -> Result<(), Fault>
    ensures { (answer_of result, words.new) ≡ set_byte sysex8 words.old length index value }
{
    let size = size_found::<Sysex8>(words, length)?;
    if size <= index {
        return Err(Refusal::Range.into());
    }
    let place = crate::bytes::place_of(words, length / 4, size, index);
    crate::bytes::store_byte(words, place.packet, place.byte, value);
    Ok(())
}
