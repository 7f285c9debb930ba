// Messages packed, spliced and set a payload, and byte streams written as SysEx7.
use crate::Kind;
use crate::reads::put_payload;
use refusal::Fault;
use replayed_packets::answer::{Answer, Stop};

// One word more than may be lent.
const ROOM: usize = 16385;

// Puts a changed message: all words lent, or the first three octets of each packet, and the payload.
fn put_changed(answer: &mut Answer<'_>, kind: Kind, words: &[u32], length: usize) {
    match kind {
        Kind::RepackLent | Kind::SpliceLent | Kind::SetPayloadLent => answer.put_words(words),
        _ => {
            let heads = words.iter().step_by(4).take(length / 4);
            answer.put_all(heads.map(|word| *word as usize / 256));
            put_payload(answer, words, length);
        }
    }
}

// Changes a message by a call, which is lent the words and answers its new length: the length and the message, or the refusal and the
// words.
pub(crate) fn change<F: FnOnce(&mut [u32]) -> Result<usize, Fault>>(
    kind: Kind,
    words: &mut [u32],
    answer: &mut Answer<'_>,
    call: F,
)
    requires { F.IsAlwaysCallable call }
{
    match call(words) {
        Ok(length) => {
            answer.say(&[0, length]);
            put_changed(answer, kind, words, length);
        }
        Err(fault) => {
            answer.refuse(fault);
            answer.put_words(words);
        }
    }
}

// Writes a stream as SysEx7 packets, in as many words as are lent.
pub(crate) fn to_sysex7(
    bytes: &[u8],
    group: usize,
    lent: usize,
    answer: &mut Answer<'_>,
) -> Result<(), Stop> {
    let group = u8::try_from(group)?;
    let mut room = [0; ROOM];
    let words = room.get_mut(..lent).ok_or(Stop::NoRecord)?;
    let count = stream::to_sysex7(bytes, group, words)?;
    answer.say(&[0]);
    answer.put_all(words.iter().take(count).map(|word| *word as usize));
    Ok(())
}
