// A byte stream to SysEx7 packets: F0, data, F7 and a group. Real-time bytes between F0 and F7 are passed over.
#![tactic(auto)]

ghost use Rattle.std.specs.Prelude.{◌≡◌, ◌+◌, ◌-◌, ◌*◌, ◌≤◌, ◌<◌, min, length, set};
ghost use Rattle.std.specs.List.{position};
ghost use Rattle.ump.specs.Word.{pair_at};
ghost use Rattle.ump.specs.Stream.{bad_frame, bad_byte, without_real_time, to_sysex7};
ghost use Rattle.stream.specs.Steps.{onward, count_below, four_at, head_word, Took, TookSix, Filled, Sized, sized, with_packets};
ghost use Rattle.refusal.specs.Meaning.{answer_of};

use refusal::{Fault, Refusal};

// Data bytes as octets of a number, and the position behind them.
#[derive(Clone, Copy, Debug, PartialEq, Eq)]
struct Taken {
    octets: u64,
    next: usize,
}

// Data bytes as octets of a packet's two words, and the position behind them.
#[derive(Clone, Copy, Debug, PartialEq, Eq)]
struct Six {
    high: u32,
    low: u32,
    next: usize,
}

// Whether the stream is under 2 bytes, its first not F0 or its last not F7.
fn bad_frame(bytes: &[u8]) -> bool
    ensures { result ≡ bad_frame bytes.now }
{
    bytes.len() < 2 || bytes[0] != 0xF0 || bytes[bytes.len() - 1] != 0xF7
}

// How many of at most 255 bytes are below a limit.
fn count_few(bytes: &[u8], limit: u8) -> u8
    requires { length bytes.now ≤ 255 }
    ensures { result ≡ count_below limit bytes.now }
{
    let mut number = 0;
    for byte in bytes {
        if *byte < limit {
            number += 1;
        }
    }
    number
}

// How many bytes are below a limit, counted 192 at a time, whose number fits a byte.
fn count_below(bytes: &[u8], limit: u8) -> usize
    ensures { result ≡ count_below limit bytes.now }
{
    let mut number = 0;
    for part in bytes.chunks(192) {
        number += count_few(part, limit) as usize;
    }
    number
}

// The index of the first byte of 80 to F7 hex.
fn first_bad(inner: &[u8]) -> Option<usize>
    ensures { result ≡ position bad_byte inner.now }
{
    inner.iter().position(|byte| *byte > 0x7F && *byte <= 0xF7)
}

// The data size, how many bytes are no real-time bytes; Byte at the first of 80 to F7 hex, by its place behind F0. It is looked for only
// where fewer bytes are below 80 hex than are data.
fn data_size(inner: &[u8]) -> Result<usize, Fault>
    ensures { answer_of result ≡ sized inner.now }
{
    let septets = count_below(inner, 0x80);
    if septets == inner.len() {
        return Ok(septets);
    }
    let size = count_below(inner, 0xF8);
    if septets == size {
        return Ok(size);
    }
    match first_bad(inner) {
        Some(index) => Err(Fault {
            refusal: Refusal::Byte,
            place: index + 1,
        }),
        None => Ok(size),
    }
}

// The first word of a packet without its bytes: type 3 and group, status and count.
fn head_word(group: u8, status: u8, count: usize) -> u32
    requires { (group ≤ 15) × (status ≤ 3) × (count ≤ 6) }
    ensures { (result ≡ head_word group status count) × (result < 0x40000000) }
{
    layout::first_word(3, group, status, count as u8, 0)
}

// The next `count` data bytes from a position on, real-time bytes passed over.
fn take_bytes(inner: &[u8], at: usize, count: usize) -> Taken
    requires { (count ≤ 6) × (count ≤ length (onward inner.now at)) }
    ensures { Took count (onward inner.now at) result.octets (onward inner.now result.next) }
{
    let mut octets: u64 = 0;
    let mut taken = 0;
    let mut next = at;
    // By hand: the answer is the position behind the last byte taken, which an iterator that takes data bytes alone does not tell.
    while taken < count {
        let byte = inner[next];
        if byte < 0xF8 {
            octets = octets * 0x100 + byte as u64;
            taken += 1;
        }
        next += 1;
    }
    Taken { octets, next }
}

// So many data bytes as octets of a packet, with unused octets, zero, behind them.
fn filled(taken: Taken, count: usize) -> Six
    requires { count ≤ 6 }
    ensures { Filled count taken.octets result.high result.low × (result.next ≡ taken.next) }
{
    let octets = taken.octets << (8 * (6 - count));
    Six {
        high: (octets >> 32) as u32,
        low: (octets % 0x1_0000_0000) as u32,
        next: taken.next,
    }
}

// Two bytes that stand at a position, as octets.
fn two_at(inner: &[u8], at: usize) -> u32
    requires { at + 2 ≤ length inner.now }
    ensures { (result ≡ pair_at inner.now at) × (result < 65536) }
{
    layout::word_of(0, 0, inner[at], inner[at + 1])
}

// Four bytes that stand at a position, as octets.
fn four_at(inner: &[u8], at: usize) -> u32
    requires { at + 4 ≤ length inner.now }
    ensures { result ≡ four_at inner.now at }
{
    layout::word_of(inner[at], inner[at + 1], inner[at + 2], inner[at + 3])
}

// The data bytes of a packet, so many from a position on, and unused octets, zero: six at once if their top bits are clear.
fn take_six(inner: &[u8], at: usize, count: usize) -> Six
    requires { count ≡ min 6 (length (onward inner.now at)) }
    ensures { TookSix (onward inner.now at) result.high result.low (onward inner.now result.next) }
{
    if count == 6 {
        let high = two_at(inner, at);
        let low = four_at(inner, at + 2);
        if (high & 0x8080) + (low & 0x8080_8080) == 0 {
            return Six {
                high,
                low,
                next: at + 6,
            };
        }
    }
    filled(take_bytes(inner, at, count), count)
}

// Writes the two words of a packet.
fn put(words: &mut [u32], packet: usize, first: u32, second: u32)
    requires { 2 * packet + 2 ≤ length words.old }
    ensures { words.new ≡ set (set words.old (2 * packet) first) (2 * packet + 1) second }
{
    words[2 * packet] = first;
    words[2 * packet + 1] = second;
}

// Writes the packets of so many data bytes: six each, only the last fewer; words past them stay.
fn write_packets(inner: &[u8], size: usize, group: u8, packets: usize, words: &mut [u32])
    requires { (group ≤ 15) × Sized inner.now size packets × (2 * packets ≤ length words.old) }
    ensures { words.new ≡ with_packets group packets inner.now words.old }
{
    let last = packets - 1;
    let mut head = head_word(group, 1, 6);
    let mut at = 0;
    for packet in 0..last {
        let six = take_six(inner, at, 6);
        put(words, packet, head + six.high, six.low);
        head = head_word(group, 2, 6);
        at = six.next;
    }
    let count = size - 6 * last;
    let six = take_six(inner, at, count);
    let head = head_word(group, layout::status_for(packets, last), count);
    put(words, last, head + six.high, six.low);
}

// F0, data, F7 and a group become SysEx7 packets in the words lent; answers the words written. Real-time bytes F8 to FF between F0 and F7
// are passed over. Refuses in the order Long, Field, Frame, Byte, Room.
pub fn to_sysex7(bytes: &[u8], group: u8, words: &mut [u32]) -> Result<usize, Fault>
    ensures { (answer_of result, words.new) ≡ to_sysex7 bytes.now group words.old }
{
    if words.len() > layout::MOST_WORDS {
        return Err(Refusal::Long.into());
    }
    if group > 15 {
        return Err(Refusal::Field.into());
    }
    if bad_frame(bytes) {
        return Err(Refusal::Frame.into());
    }
    let inner = &bytes[1..bytes.len() - 1];
    let size = data_size(inner)?;
    let packets = layout::packets_for::<layout::Sysex7>(size);
    if words.len() / 2 < packets {
        return Err(Refusal::Room.into());
    }
    write_packets(inner, size, group, packets, words);
    Ok(2 * packets)
}
