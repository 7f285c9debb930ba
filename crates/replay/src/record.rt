// A record: what ours answers, compared with what is recorded.
use crate::reply::{Call, reply};
use equality::numbers::begin_with;
use replayed_packets::answer::Answer;

// Room for our answer: one number over the longest that is recorded, so that one that fills it differs.
const ROOM: usize = recorded_lines::ANSWER + 1;

// A record's call, whether it is of a listed difference, and whether ours answers as recorded.
#[derive(Clone, Copy, Debug, PartialEq, Eq)]
pub(crate) struct Compared {
    pub(crate) call: Call,
    pub(crate) listed: bool,
    pub(crate) same: bool,
}

// Compares the record in a line.
pub(crate) fn replay(line: &[u8]) -> Option<Compared> {
    let mut words = [0; recorded_lines::WORDS];
    let mut bytes = [0; recorded_lines::BYTES];
    let mut numbers = [0; recorded_lines::NUMBERS];
    let mut expected = [0; recorded_lines::ANSWER];
    let mut room = [0; ROOM];
    let record = recorded_lines::parse(line, &mut words, &mut bytes, &mut numbers, &mut expected)?;
    let mut answer = Answer::new(&mut room);
    let call = reply(
        record.kind,
        &mut words[..record.words],
        &bytes[..record.bytes],
        &numbers[..record.numbers],
        &mut answer,
    )?;
    let count = answer.numbers().len();
    Some(Compared {
        call,
        listed: record.listed,
        same: begin_with(&room, count, &expected[..record.answer]),
    })
}
