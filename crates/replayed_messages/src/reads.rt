// Messages checked, and their payload, copied, and read by a reader.
use message::sysex8::Summary;
use replayed_packets::answer::{Answer, Stop};

// The most payload bytes of 512 words.
const PAYLOAD: usize = 1664;

// The words of one packet more than a message may have.
const MANY: usize = 16388;

// Puts the payload of a message; nothing where it is refused or of more than 512 words.
pub(crate) fn put_payload(answer: &mut Answer<'_>, words: &[u32], length: usize) {
    let mut bytes = [0; PAYLOAD];
    if let Ok(size) = message::sysex8::payload(words, length, &mut bytes) {
        answer.put_all(bytes.iter().take(size).map(|byte| usize::from(*byte)));
    }
}

// Answers a message's group, stream id, payload size and words.
fn say_head(answer: &mut Answer<'_>, found: Summary) {
    answer.say(&[
        0,
        usize::from(found.group),
        usize::from(found.id),
        found.size,
        found.words,
    ]);
}

// Checks a message: its head and its payload.
pub(crate) fn check(words: &[u32], length: usize, answer: &mut Answer<'_>) -> Result<(), Stop> {
    say_head(answer, message::sysex8::check(words, length)?);
    put_payload(answer, words, length);
    Ok(())
}

// Writes as many of the words as there are, or as there is room for.
fn write_front(words: &[u32], room: &mut [u32]) {
    for (place, word) in room.iter_mut().zip(words) {
        *place = *word;
    }
}

// Checks a message where so many words are lent, zeros behind those of the record: its head.
pub(crate) fn check_lent(
    words: &[u32],
    length: usize,
    lent: usize,
    answer: &mut Answer<'_>,
) -> Result<(), Stop> {
    let mut room = [0; MANY];
    write_front(words, &mut room);
    let lent = room.get(..lent).ok_or(Stop::NoRecord)?;
    say_head(answer, message::sysex8::check(lent, length)?);
    Ok(())
}

// Checks a message of so many packets: the first of the words, the second for each inner one, and the third; zeros for words that there
// are not. Its head.
pub(crate) fn check_many(
    words: &[u32],
    packets: usize,
    answer: &mut Answer<'_>,
) -> Result<(), Stop> {
    if packets > MANY / 4 {
        return Err(Stop::NoRecord);
    }
    let length = 4 * packets;
    let mut room = [0; MANY];
    let mut three = [0; 12];
    write_front(words, &mut three);
    for (packet, place) in room.chunks_exact_mut(4).enumerate() {
        let from = match packet {
            0 => 0,
            _ if packet + 1 == packets => 8,
            _ => 4,
        };
        place.copy_from_slice(&three[from..from + 4]);
    }
    say_head(answer, message::sysex8::check(&room[..length], length)?);
    Ok(())
}

// Opens a reader over a message, and reads on by each skip: the byte, or 100 hex where the payload has ended, and the bytes that remain.
pub(crate) fn read(
    words: &[u32],
    length: usize,
    skips: &[usize],
    answer: &mut Answer<'_>,
) -> Result<(), Stop> {
    let mut cursor = reader::open(words, length)?;
    let message = words.get(..length).ok_or(Stop::NoRecord)?;
    answer.say(&[0]);
    for skip in skips {
        let read = reader::nth(message, cursor, *skip);
        cursor = read.cursor;
        answer.put(read.step.map_or(0x100, usize::from));
        answer.put(reader::remaining(message, cursor));
    }
    Ok(())
}
