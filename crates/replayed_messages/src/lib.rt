// What our calls on messages and byte streams answer to the input of a record, as numbers: kinds from 20 hex on of program replay.
#![tactic(auto)]

mod changes;
mod reads;

use replayed_packets::answer::{Answer, Stop, store};

// A recorded call on a message or a byte stream. What ends in Lent is recorded with all words lent.
#[derive(Clone, Copy, Debug, PartialEq, Eq)]
pub enum Kind {
    Check,
    Read,
    SetGroup,
    SetStreamId,
    SetByte,
    Repack,
    Splice,
    SetPayload,
    ToSysex7,
    WordsNeeded,
    CheckLent,
    CheckMany,
    RepackLent,
    SpliceLent,
    SetPayloadLent,
}

impl TryFrom<usize> for Kind {
    type Error = Stop;

    // The kind that a record writes as this number.
    fn try_from(number: usize) -> Result<Kind, Stop> {
        match number {
            0x20 => Ok(Kind::Check),
            0x21 => Ok(Kind::Read),
            0x22 => Ok(Kind::SetGroup),
            0x23 => Ok(Kind::SetStreamId),
            0x24 => Ok(Kind::SetByte),
            0x25 => Ok(Kind::Repack),
            0x26 => Ok(Kind::Splice),
            0x27 => Ok(Kind::SetPayload),
            0x28 => Ok(Kind::ToSysex7),
            0x29 => Ok(Kind::WordsNeeded),
            0x2A => Ok(Kind::CheckLent),
            0x2B => Ok(Kind::CheckMany),
            0x35 => Ok(Kind::RepackLent),
            0x36 => Ok(Kind::SpliceLent),
            0x37 => Ok(Kind::SetPayloadLent),
            _ => Err(Stop::NoRecord),
        }
    }
}

// Puts what ours answers to a record of a message in the first `length` words, or of a byte stream. The kind is any number: NoRecord where
// none of these calls has it, or takes such words and numbers. Where the answer is a refusal and no more, the caller puts it.
pub fn reply(
    kind: usize,
    words: &mut [u32],
    bytes: &[u8],
    numbers: &[usize],
    answer: &mut Answer<'_>,
) -> Result<(), Stop> {
    let kind = Kind::try_from(kind)?;
    match (kind, numbers) {
        (Kind::Check, [length]) => reads::check(words, *length, answer),
        (Kind::CheckLent, [length, lent]) => reads::check_lent(words, *length, *lent, answer),
        (Kind::CheckMany, [packets]) => reads::check_many(words, *packets, answer),
        (Kind::Read, [length, skips @ ..]) => reads::read(words, *length, skips, answer),
        (Kind::SetGroup, [length, value]) => store(words, *value, answer, |words, value| {
            message::sysex8::set_group(words, *length, value)
        }),
        (Kind::SetStreamId, [length, value]) => store(words, *value, answer, |words, value| {
            message::sysex8::set_stream_id(words, *length, value)
        }),
        (Kind::SetByte, [length, index, value]) => store(words, *value, answer, |words, value| {
            message::sysex8::set_byte(words, *length, *index, value)
        }),
        (Kind::ToSysex7, [group, lent]) => changes::to_sysex7(bytes, *group, *lent, answer),
        (Kind::WordsNeeded, [size]) => {
            answer.say(&[splice::sysex8::words_needed(*size)]);
            Ok(())
        }
        (Kind::Repack | Kind::RepackLent, [length]) => {
            changes::change(kind, words, answer, |words| {
                splice::sysex8::repack(words, *length)
            });
            Ok(())
        }
        (Kind::Splice | Kind::SpliceLent, [length, from, to]) => {
            changes::change(kind, words, answer, |words| {
                Ok(splice::sysex8::splice(words, *length, *from, *to, bytes)?.length)
            });
            Ok(())
        }
        (Kind::SetPayload | Kind::SetPayloadLent, [length]) => {
            changes::change(kind, words, answer, |words| {
                Ok(splice::sysex8::set_payload(words, *length, bytes)?.length)
            });
            Ok(())
        }
        (_, _) => Err(Stop::NoRecord),
    }
}
