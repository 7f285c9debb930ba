// The layout of packets in words, each thing once: the fields of a first word, words and octets, the status by place, the bytes that a
// count carries, the packets that a payload takes, and the limits. Each public call is total.
#![tactic(auto)]

ghost use Rattle.std.specs.Prelude.{◌≡◌, ◌+◌, ◌*◌, ◌%◌, ◌^◌, ◌<◌, ◌≤◌, ℕ};
ghost use Rattle.ump.specs.Word.{nibble, octet, word as word_of, octet_field, shift, with_part};
ghost use Rattle.ump.specs.Packet.{Shape, sysex8, sysex7, size_of};
ghost use Rattle.ump.specs.Packing.{status_for, packets_for};
ghost use Rattle.ump.specs.Single.{with_group};
ghost use Rattle.ump.specs.Setters.{with_id};
ghost use Rattle.layout.specs.Format.{Numbers, numbers8, numbers7};

// The most words that a message may have, and the most payload bytes that they carry.
pub const MOST_WORDS: usize = 16384;

pub const MOST_BYTES: usize = 53248;

// The packets of one message type, by the numbers of their shape.
pub trait Format {
    ghost shape: { Shape };

    ghost TYPE: { ℕ };

    ghost WORDS: { ℕ };

    ghost IDS: { ℕ };

    ghost ROOM: { ℕ };

    ghost BIAS: { ℕ };

    ghost numbers: { Numbers shape TYPE WORDS IDS ROOM BIAS };

    // The message type.
    const TYPE: u8;

    // Words in a packet.
    const WORDS: usize;

    // Octets of stream id, one at most.
    const IDS: usize;

    // Payload bytes that a packet has room for.
    const ROOM: usize;

    // The count is the payload size plus this.
    const BIAS: usize;
}

// SysEx8: packets of four words, with a stream id.
#[derive(Clone, Copy, Debug, PartialEq, Eq)]
pub struct Sysex8;

// SysEx7: packets of two words.
#[derive(Clone, Copy, Debug, PartialEq, Eq)]
pub struct Sysex7;

impl Format for Sysex8 {
    ghost shape = { sysex8 };

    ghost TYPE = { 5 };

    ghost WORDS = { 4 };

    ghost IDS = { 1 };

    ghost ROOM = { 13 };

    ghost BIAS = { 1 };

    ghost numbers = { numbers8 };

    const TYPE: u8 = 5;

    const WORDS: usize = 4;

    const IDS: usize = 1;

    const ROOM: usize = 13;

    const BIAS: usize = 1;
}

impl Format for Sysex7 {
    ghost shape = { sysex7 };

    ghost TYPE = { 3 };

    ghost WORDS = { 2 };

    ghost IDS = { 0 };

    ghost ROOM = { 6 };

    ghost BIAS = { 0 };

    ghost numbers = { numbers7 };

    const TYPE: u8 = 3;

    const WORDS: usize = 2;

    const IDS: usize = 0;

    const ROOM: usize = 6;

    const BIAS: usize = 0;
}

// Nibble `place` of a word.
fn nibble_of(word: u32, place: u32) -> u8
    requires { place < 8 }
    ensures { result ≡ nibble word place }
{
    ((word >> ((7 - place) * 4)) % 16) as u8
}

// The message type of a first word.
pub fn type_of(word: u32) -> u8
    ensures { result ≡ nibble word 0 }
{
    nibble_of(word, 0)
}

// The group of a first word.
pub fn group_of(word: u32) -> u8
    ensures { result ≡ nibble word 1 }
{
    nibble_of(word, 1)
}

// The status of a first word.
pub fn status_of(word: u32) -> u8
    ensures { result ≡ nibble word 2 }
{
    nibble_of(word, 2)
}

// The count of a first word.
pub fn count_of(word: u32) -> u8
    ensures { result ≡ nibble word 3 }
{
    nibble_of(word, 3)
}

// The stream id of a SysEx8 first word.
pub fn id_of(word: u32) -> u8
    ensures { result ≡ octet word 2 }
{
    octet_of(word, 2)
}

// The word of four octets, the first the most significant.
pub fn word_of(first: u8, second: u8, third: u8, fourth: u8) -> u32
    ensures { result ≡ word_of first second third fourth }
{
    u32::from_be_bytes([first, second, third, fourth])
}

// The first word with these fields, of each of which the low four bits are taken, with this stream id and no payload byte.
pub fn first_word(kind: u8, group: u8, status: u8, count: u8, id: u8) -> u32
    ensures { result ≡ word_of (kind % 16 * 16 + group % 16) (status % 16 * 16 + count % 16) id 0 }
{
    word_of(
        kind % 16 * 16 + group % 16,
        status % 16 * 16 + count % 16,
        id,
        0,
    )
}

// Octet `place`, counted on past 3, of a word.
pub fn octet_of(word: u32, place: usize) -> u8
    ensures { result ≡ octet word (place % 4) }
{
    // By a shift: `to_be_bytes()[place % 4]` was tried, and took 3.03 ns for 2.26 where the place hangs on the call before.
    ((word >> ((3 - place % 4) * 8)) % 256) as u8
}

// A word with a value in the `width` bits that stand `low` above the lowest.
fn with_bits(word: u32, low: u32, width: u32, value: u32) -> u32
    requires { (low + width ≤ 32) × (low < 32) × (width < 32) × (value < 2 ^ width) }
    ensures { result ≡ with_part word low width value }
{
    let most = (1 << width) - 1;
    (word & !(most << low)) | (value << low)
}

// A word with another octet `place`, counted on past 3.
pub fn with_octet(word: u32, place: usize, value: u8) -> u32
    ensures { result ≡ with_part word (shift octet_field (place % 4)) 8 value }
{
    with_bits(word, (3 - (place % 4) as u32) * 8, 8, value as u32)
}

// A first word with another group, of which the low four bits are taken.
pub fn with_group(word: u32, group: u8) -> u32
    ensures { result ≡ with_group word (group % 16) }
{
    with_bits(word, 24, 4, (group % 16) as u32)
}

// A SysEx8 first word with another stream id.
pub fn with_id(word: u32, id: u8) -> u32
    ensures { result ≡ with_id word id }
{
    with_octet(word, 2, id)
}

// The status of packet `packet` of `packets`: 0 complete; 1 start, 2 continue, 3 end.
// A number: callers compare it with a word's or put it into one, and an enum would be turned into its number each time.
pub fn status_for(packets: usize, packet: usize) -> u8
    ensures { result ≡ status_for packets packet }
{
    if packets == 1 {
        0
    } else if packet == 0 {
        1
    } else if packets.saturating_sub(packet) == 1 {
        3
    } else {
        2
    }
}

// The payload bytes that a count carries: the count less the bias, and none for a count out of range. Below the bias the difference wraps
// around, past the room too, so that one test finds both ends: a walk over packets does little else.
pub fn payload_size<F: Format>(count: usize) -> usize
    ensures { result ≡ size_of F.shape count }
{
    let size = count.wrapping_sub(F::BIAS);
    if size <= F::ROOM { size } else { 0 }
}

// The packets that the fewest-packet form of a payload of `size` bytes takes: one if there are none, else the bytes over the room,
// rounded up.
pub fn packets_for<F: Format>(size: usize) -> usize
    ensures { result ≡ packets_for F.shape size }
{
    if size == 0 {
        1
    } else {
        (size - 1) / F::ROOM + 1
    }
}
