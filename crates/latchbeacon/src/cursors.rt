// The exported calls of the payload reader: a cursor goes in as its three numbers and comes out in the answer.
ghost use Rattle.std.specs.Prelude.{◌≡◌};
ghost use Rattle.ump.specs.Packet.{sysex8};
ghost use Rattle.ump.specs.Reader.{reader, nth, bytes_remaining};
ghost use Rattle.answers.specs.Answers.{cursor_answer, read_answer};

use answers::{CursorAnswer, ReadAnswer};
use reader::Cursor;

// The cursor at the start of the message in the first `length` words; the check's refusals.
#[unsafe(no_mangle)]
pub extern "C" fn latchbeacon_sysex8_open(words: &[u32], length: usize) -> CursorAnswer
    ensures { result ≡ cursor_answer (reader sysex8 words.now length) }
{
    answers::answer(reader::open(words, length))
}

// The next byte, or the end.
#[unsafe(no_mangle)]
pub extern "C" fn latchbeacon_sysex8_next(
    words: &[u32],
    packet: usize,
    byte: usize,
    remaining: usize,
) -> ReadAnswer
    ensures { result ≡ read_answer (nth sysex8 words.now (record { packet = packet; byte = byte; remaining = remaining }) 0) }
{
    let cursor = Cursor {
        packet,
        byte,
        remaining,
    };
    reader::next(words, cursor).into()
}

// Skip-then-read.
#[unsafe(no_mangle)]
pub extern "C" fn latchbeacon_sysex8_nth(
    words: &[u32],
    packet: usize,
    byte: usize,
    remaining: usize,
    skip: usize,
) -> ReadAnswer
    ensures { result
        ≡ read_answer (nth sysex8 words.now (record { packet = packet; byte = byte; remaining = remaining }) skip) }
{
    let cursor = Cursor {
        packet,
        byte,
        remaining,
    };
    reader::nth(words, cursor, skip).into()
}

// Bytes remaining: the smaller of the cursor's count and the bytes that stand there.
#[unsafe(no_mangle)]
pub extern "C" fn latchbeacon_sysex8_remaining(
    words: &[u32],
    packet: usize,
    byte: usize,
    remaining: usize,
) -> usize
    ensures { result ≡ bytes_remaining sysex8 words.now (record { packet = packet; byte = byte; remaining = remaining }) }
{
    let cursor = Cursor {
        packet,
        byte,
        remaining,
    };
    reader::remaining(words, cursor)
}
