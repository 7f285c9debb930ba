// What our calls answer to the input of a record, as numbers. A refusal is its number and place. The kinds, in hex:
//
//   1 to 6    read bit, crumb, nibble, septet, octet, word: index; 0, value
//   9 to E    set them: index, value; 0, word
//   10, 11    a SysEx8, a SysEx7 packet: 0, kind, group, id, size, payload
//   12, 13    set its group: group; 0, words lent
//   20        check: length; 0, group, id, size, words, payload
//   21        reader: length, skips; 0, and for each skip the byte, or 100 at the end, and the bytes that remain
//   22 to 24  set group, stream id, byte: length, value, of a byte length, index, value; 0, words lent
//   25        packing: length
//   26        splice by the bytes: length, from, to
//   27        set the payload to the bytes: length; 25 to 27: 0, new length, three octets of each packet, payload
//   28        the bytes to SysEx7: group, words lent; 0, words written
//   29        words needed: size; words
//   2A        check where more words are lent, zeros behind those given: length, words lent
//   2B        check of so many packets, the words being the first, one of the inner ones and the last: packets;
//             2A and 2B: 0, group, id, size, words
//   35 to 37  as 25 to 27: 0, new length, words lent
//
// A refusal of 12, 13, 22 to 27 and 35 to 37 is followed by the words lent.

use replayed_packets::answer::{Answer, Stop};

// A recorded call: on a word field or a single packet, or on a message or a byte stream.
#[derive(Clone, Copy, Debug, PartialEq, Eq)]
pub(crate) enum Call {
    Packet(replayed_packets::Kind),
    Message(replayed_messages::Kind),
}

impl TryFrom<usize> for Call {
    type Error = Stop;

    // The call of a kind.
    fn try_from(kind: usize) -> Result<Call, Stop> {
        match replayed_packets::Kind::try_from(kind) {
            Ok(packet) => Ok(Call::Packet(packet)),
            Err(_) => Ok(Call::Message(replayed_messages::Kind::try_from(kind)?)),
        }
    }
}

// Puts what ours answers to a record of a kind, and says which call it is of; none where it is no record, whatever was put then.
pub(crate) fn reply(
    kind: usize,
    words: &mut [u32],
    bytes: &[u8],
    numbers: &[usize],
    answer: &mut Answer<'_>,
) -> Option<Call> {
    let call = Call::try_from(kind).ok()?;
    let replied = match call {
        Call::Packet(_) => replayed_packets::reply(kind, words, numbers, answer),
        Call::Message(_) => replayed_messages::reply(kind, words, bytes, numbers, answer),
    };
    match replied {
        Ok(()) => Some(call),
        Err(Stop::Refused(fault)) => {
            answer.refuse(fault);
            Some(call)
        }
        Err(Stop::NoRecord) => None,
    }
}
