// What our calls on word fields and single packets answer to the input of a record, as numbers: kinds 1 to 1F hex of program replay.
#![tactic(auto)]

pub mod answer;
mod fields;
mod packets;

use answer::{Answer, Stop, store};

// A recorded call on a word field or a single packet.
#[derive(Clone, Copy, Debug, PartialEq, Eq)]
pub enum Kind {
    Bit,
    Crumb,
    Nibble,
    Septet,
    Octet,
    Word,
    SetBit,
    SetCrumb,
    SetNibble,
    SetSeptet,
    SetOctet,
    SetWord,
    Sysex8Packet,
    Sysex7Packet,
    SetSysex8Group,
    SetSysex7Group,
}

impl TryFrom<usize> for Kind {
    type Error = Stop;

    // The kind that a record writes as this number.
    fn try_from(number: usize) -> Result<Kind, Stop> {
        match number {
            0x1 => Ok(Kind::Bit),
            0x2 => Ok(Kind::Crumb),
            0x3 => Ok(Kind::Nibble),
            0x4 => Ok(Kind::Septet),
            0x5 => Ok(Kind::Octet),
            0x6 => Ok(Kind::Word),
            0x9 => Ok(Kind::SetBit),
            0xA => Ok(Kind::SetCrumb),
            0xB => Ok(Kind::SetNibble),
            0xC => Ok(Kind::SetSeptet),
            0xD => Ok(Kind::SetOctet),
            0xE => Ok(Kind::SetWord),
            0x10 => Ok(Kind::Sysex8Packet),
            0x11 => Ok(Kind::Sysex7Packet),
            0x12 => Ok(Kind::SetSysex8Group),
            0x13 => Ok(Kind::SetSysex7Group),
            _ => Err(Stop::NoRecord),
        }
    }
}

// Puts what ours answers to a record of a word field or of a single packet. The kind is any number: NoRecord where none of these calls has
// it, or takes such words and numbers. Where the answer is a refusal and no more, the caller puts it.
pub fn reply(
    kind: usize,
    words: &mut [u32],
    numbers: &[usize],
    answer: &mut Answer<'_>,
) -> Result<(), Stop> {
    let kind = Kind::try_from(kind)?;
    match (kind, numbers) {
        (Kind::Sysex8Packet, []) => packets::read_sysex8(words, answer),
        (Kind::Sysex7Packet, []) => packets::read_sysex7(words, answer),
        (Kind::SetSysex8Group, [group]) => {
            store(words, *group, answer, packet::sysex8::set_group)
        }
        (Kind::SetSysex7Group, [group]) => {
            store(words, *group, answer, packet::sysex7::set_group)
        }
        (_, _) => fields::reply(kind, words, numbers, answer),
    }
}
