// The payload reader of SysEx8: a cursor by value over lent words, and a reader that holds them.
#![tactic(auto)]

ghost use Rattle.std.specs.Prelude.{◌≡◌, ◌-◌, ◌/◌, ◌<◌, length};
ghost use Rattle.ump.specs.Packet.{sysex8, size_at};
ghost use Rattle.ump.specs.Reader.{nth as nth_of, bytes_remaining, reader as reader_of};
ghost use Rattle.reader.specs.Meaning.{cursor_meaning, step_meaning, read_meaning, open_meaning};
ghost use Rattle.reader.specs.Held.{reader_at, cursor_of, read_on};

use refusal::Fault;

// Packet and byte where the next byte stands, and how many bytes are to be read.
#[derive(Clone, Copy, Debug, PartialEq, Eq)]
pub struct Cursor {
    pub packet: usize,
    pub byte: usize,
    pub remaining: usize,
}

// What a call answers: the byte or the end, and the cursor after it.
#[derive(Clone, Copy, Debug, PartialEq, Eq)]
pub struct Read {
    pub step: Option<u8>,
    pub cursor: Cursor,
}

// How many bytes of a packet stand from a byte on: none where the byte is at or past the packet's size, and a count of 0 or 15 is an
// empty packet.
fn standing(words: &[u32], packet: usize, byte: usize) -> usize
    requires { packet < length words.now / 4 }
    ensures { result ≡ size_at sysex8 words.now packet - byte }
{
    let count = layout::count_of(words[4 * packet]) as usize;
    layout::payload_size::<layout::Sysex8>(count).saturating_sub(byte)
}

// Skip-then-read. Empty packets are passed, words short of a packet are ignored, and after the end it answers ended for ever.
pub fn nth(words: &[u32], cursor: Cursor, skip: usize) -> Read
    ensures { read_meaning result ≡ nth_of sysex8 words.now (cursor_meaning cursor) skip }
{
    let packets = words.len() / 4;
    let remaining = cursor.remaining;
    let mut byte = cursor.byte;
    let mut ahead = skip;
    if skip < remaining {
        for packet in cursor.packet..packets {
            let here = standing(words, packet, byte);
            if ahead < here {
                let at = byte + ahead;
                return Read {
                    step: Some(layout::octet_of(words[4 * packet + (at + 3) / 4], at + 3)),
                    cursor: Cursor {
                        packet,
                        byte: at + 1,
                        remaining: remaining - skip - 1,
                    },
                };
            }
            ahead -= here;
            byte = 0;
        }
    }
    Read {
        step: None,
        cursor: Cursor {
            packet: packets,
            byte: 0,
            remaining: 0,
        },
    }
}

// The next byte, or the end.
pub fn next(words: &[u32], cursor: Cursor) -> Read
    ensures { read_meaning result ≡ nth_of sysex8 words.now (cursor_meaning cursor) 0 }
{
    nth(words, cursor, 0)
}

// Bytes remaining: the smaller of the cursor's count and the bytes that stand there.
pub fn remaining(words: &[u32], cursor: Cursor) -> usize
    ensures { result ≡ bytes_remaining sysex8 words.now (cursor_meaning cursor) }
{
    let packets = words.len() / 4;
    let count = cursor.remaining;
    let mut byte = cursor.byte;
    let mut ahead = count;
    for packet in cursor.packet..packets {
        let here = standing(words, packet, byte);
        if ahead <= here {
            return count;
        }
        ahead -= here;
        byte = 0;
    }
    count - ahead
}

// The cursor at the start of the message in the first `length` words, which are those that it is then read with; the check's refusals.
pub fn open(words: &[u32], length: usize) -> Result<Cursor, Fault>
    ensures { open_meaning result ≡ reader_of sysex8 words.now length }
{
    let message = message::sysex8::check(words, length)?;
    Ok(Cursor {
        packet: 0,
        byte: 0,
        remaining: message.size,
    })
}

// The reader keeps the words it was made over, with packet, byte and remaining counts, which are its fields as document 01 has them.
#[derive(Drop)]
pub struct PayloadReader<'a> {
    pub words: &'a [u32],
    pub packet: usize,
    pub byte: usize,
    pub remaining: usize,
}

impl<'a> PayloadReader<'a> {
    // The reader over words at a cursor.
    pub fn new(words: &'a [u32], cursor: Cursor) -> PayloadReader<'a>
        ensures { result ≡ reader_at words.entry (cursor_meaning cursor) }
    {
        PayloadReader {
            words,
            packet: cursor.packet,
            byte: cursor.byte,
            remaining: cursor.remaining,
        }
    }

    // Skip-then-read; the reader is moved on.
    pub fn nth(&mut self, skip: usize) -> Option<u8>
        ensures { (step_meaning result, self.new) ≡ read_on self.old skip }
    {
        let cursor = Cursor {
            packet: self.packet,
            byte: self.byte,
            remaining: self.remaining,
        };
        let read = nth(self.words, cursor, skip);
        self.packet = read.cursor.packet;
        self.byte = read.cursor.byte;
        self.remaining = read.cursor.remaining;
        read.step
    }

    // The next byte, or the end; the reader is moved on.
    pub fn next(&mut self) -> Option<u8>
        ensures { (step_meaning result, self.new) ≡ read_on self.old 0 }
    {
        self.nth(0)
    }

    // Bytes remaining: the smaller of the reader's count and the bytes that stand there.
    pub fn remaining(self) -> usize
        ensures { result ≡ bytes_remaining sysex8 self.entry.words.now (cursor_of self.entry) }
    {
        remaining(
            self.words,
            Cursor {
                packet: self.packet,
                byte: self.byte,
                remaining: self.remaining,
            },
        )
    }
}

// Skip-then-read by a reader made over the words at the cursor: who calls this needs no reader.
pub fn payload_byte(words: &[u32], cursor: Cursor, skip: usize) -> Option<u8>
    ensures { step_meaning result ≡ (nth_of sysex8 words.now (cursor_meaning cursor) skip).step }
{
    let mut reader = PayloadReader::new(words, cursor);
    reader.nth(skip)
}
