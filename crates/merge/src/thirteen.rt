// The payload bytes of a packet, 13 at once, as two numbers: the first five and the other eight.
ghost use Rattle.std.specs.Prelude.{◌≡◌, ◌+◌, ◌-◌, ◌*◌, ◌/◌, ◌%◌, ◌^◌, ◌≤◌, ◌<◌, length, get_or, take};
ghost use Rattle.ump.specs.Packet.{sysex8};
ghost use Rattle.ump.specs.Word.{word};
ghost use Rattle.flow.specs.Digits.{val};
ghost use Rattle.flow.specs.Flowing.{Put};
ghost use Rattle.merge.specs.Thirteens.{number, body, front_of, middle_of};

use super::held::Thirteen;

// The payload octets of packet `packet`.
pub(crate) fn load(words: &[u32], packet: usize) -> Thirteen
    requires { (packet < 65536) × (4 * packet + 4 ≤ length words.now) }
    ensures { number result ≡ val 13 (body words.now packet) }
{
    let at = 4 * packet;
    Thirteen {
        high: u64::from(layout::octet_of(words[at], 3)) * 0x1_0000_0000 + u64::from(words[at + 1]),
        low: u64::from(words[at + 2]) * 0x1_0000_0000 + u64::from(words[at + 3]),
    }
}

// Writes packet `packet`.
pub(crate) fn store(words: &mut [u32], packet: usize, head: u32, high: u64, low: u64)
    requires { (packet < 65536) × ((4 * packet + 4 ≤ length words.old) × ((high < 2 ^ 40) × (head ≤ 4294967040))) }
    ensures { Put sysex8 words.old packet head (high * 2 ^ 64 + low) words.new }
{
    let at = 4 * packet;
    words[at] = head + (high / 0x1_0000_0000) as u32;
    words[at + 1] = (high % 0x1_0000_0000) as u32;
    words[at + 2] = (low / 0x1_0000_0000) as u32;
    words[at + 3] = (low % 0x1_0000_0000) as u32;
}

// The bytes some places on, below 13; the last are lost.
pub(crate) fn later(t: Thirteen, some: usize) -> Thirteen
    requires { some < 13 }
    ensures { number result ≡ number t / 2 ^ (8 * some) }
{
    if some == 0 {
        return t;
    }
    if some < 8 {
        return Thirteen {
            high: t.high >> (8 * some),
            low: (t.high << (64 - 8 * some)) + (t.low >> (8 * some)),
        };
    }
    Thirteen {
        high: 0,
        low: t.high >> (8 * some - 64),
    }
}

// The bytes some places earlier, 1 to 12; the first are lost.
pub(crate) fn earlier(t: Thirteen, some: usize) -> Thirteen
    requires { (0 < some) × (some < 13) }
    ensures { number result ≡ number t * 2 ^ (8 * some) % 2 ^ 104 }
{
    if some < 8 {
        return Thirteen {
            high: ((t.high << (8 * some)) + (t.low >> (64 - 8 * some))) % 0x100_0000_0000,
            low: t.low << (8 * some),
        };
    }
    Thirteen {
        high: (t.low << (8 * some - 64)) % 0x100_0000_0000,
        low: 0,
    }
}

// The first bytes, 0 to 12, and zeros.
pub(crate) fn front(t: Thirteen, some: usize) -> Thirteen
    requires { some < 13 }
    ensures { number result ≡ front_of (number t) some }
{
    if some <= 5 {
        let rest = 8 * (5 - some);
        return Thirteen {
            high: t.high >> rest << rest,
            low: 0,
        };
    }
    let rest = 8 * (13 - some);
    Thirteen {
        high: t.high,
        low: t.low >> rest << rest,
    }
}

// The first bytes of a packet, fewer than 13, and zeros.
pub(crate) fn front_of(words: &[u32], packet: usize, some: usize) -> Thirteen
    requires { (some < 13) × ((packet < 65536) × (0 < some → 4 * packet + 4 ≤ length words.now)) }
    ensures { number result ≡ front_of (val 13 (body words.now packet)) some }
{
    if some == 0 {
        return Thirteen { high: 0, low: 0 };
    }
    front(load(words, packet), some)
}

// Some bytes of a packet from byte `byte` on, which is not its first, and zeros; none if it is.
pub(crate) fn middle(t: Thirteen, byte: usize, some: usize) -> Thirteen
    requires { (byte < 13) × ((some < 13) × (byte ≡ 0 → some ≡ 0)) }
    ensures { number result ≡ middle_of (number t) byte some }
{
    if byte == 0 {
        return Thirteen { high: 0, low: 0 };
    }
    front(earlier(t, byte), some)
}

// The bytes before byte `index`, and it.
fn with_byte(t: Thirteen, index: usize, byte: u8) -> Thirteen
    requires { (index < 13) × (number t % 2 ^ (8 * (13 - index)) ≡ 0) }
    ensures { number result ≡ number t + byte * 2 ^ (8 * (12 - index)) }
{
    let moved = later(
        Thirteen {
            high: byte as u64 * 0x1_0000_0000,
            low: 0,
        },
        index,
    );
    Thirteen {
        high: t.high + moved.high,
        low: t.low + moved.low,
    }
}

// Lent bytes, fewer than 13, and zeros, the first `done` of which are there.
fn few_of(bytes: &[u8], first: Thirteen, done: usize) -> Thirteen
    requires { (done ≤ length bytes.now) × ((length bytes.now < 13)
        × (number first ≡ val 13 (take done bytes.now))) }
    ensures { number result ≡ val 13 bytes.now }
{
    let mut t = first;
    for index in done..bytes.len() {
        t = with_byte(t, index, bytes[index]);
    }
    t
}

// Bytes `index` to `index + 3` of lent ones, as a word.
fn four_of(bytes: &[u8], index: usize) -> u32
    requires { index + 3 < length bytes.now }
    ensures { result ≡ word (get_or bytes.now index 0) (get_or bytes.now (index + 1) 0)
        (get_or bytes.now (index + 2) 0) (get_or bytes.now (index + 3) 0) }
{
    layout::word_of(
        bytes[index],
        bytes[index + 1],
        bytes[index + 2],
        bytes[index + 3],
    )
}

// The first five lent bytes.
fn five_of(bytes: &[u8]) -> u64
    requires { 5 ≤ length bytes.now }
    ensures { (result ≡ val 5 bytes.now) × (result < 2 ^ 40) }
{
    u64::from(bytes[0]) * 0x1_0000_0000 + u64::from(four_of(bytes, 1))
}

// Lent bytes, up to 13, and zeros.
pub(crate) fn piece_of(bytes: &[u8]) -> Thirteen
    requires { length bytes.now ≤ 13 }
    ensures { number result ≡ val 13 bytes.now }
{
    if bytes.len() < 5 {
        return few_of(bytes, Thirteen { high: 0, low: 0 }, 0);
    }
    let high = five_of(bytes);
    if bytes.len() == 13 {
        return Thirteen {
            high,
            low: u64::from(four_of(bytes, 5)) * 0x1_0000_0000 + u64::from(four_of(bytes, 9)),
        };
    }
    few_of(bytes, Thirteen { high, low: 0 }, 5)
}
