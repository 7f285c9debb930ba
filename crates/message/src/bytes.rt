// Payload bytes: where one stands, reading and storing it, and the whole payload copied out.
ghost use Rattle.std.specs.Prelude.{◌≡◌, ◌+◌, ◌*◌, ◌≤◌, ◌<◌, length};
ghost use Rattle.ump.specs.Packet.{sysex8, size_at, byte_at};
ghost use Rattle.ump.specs.Setters.{store_byte};
ghost use Rattle.message.specs.Scan.{Sized, Found};
ghost use Rattle.message.specs.Copying.{Fitting, copied, CopiedTo, AllFitting, all_copied, put_four};

// The packet that holds a payload byte, and the byte's number in it.
#[derive(Clone, Copy, Debug, PartialEq, Eq)]
pub(crate) struct Place {
    pub(crate) packet: usize,
    pub(crate) byte: usize,
}

// Finds packet and byte of an index into the payload of the packets of a SysEx8 message, of `size` bytes.
// Parameters, no struct: `Sized` stands in the contracts of two functions, this and the one that calls it.
fn locate(words: &[u32], packets: usize, size: usize, index: usize) -> Place
    requires { Sized words.now packets size × (index < size) }
    ensures { Found 4 1 words.now packets index result.packet result.byte }
{
    // By hand: packet and byte go on together, and the precondition ends the walk inside.
    let mut packet = 0;
    let mut byte = index;
    loop {
        let size = layout::count_of(words[4 * packet]) as usize - 1;
        if byte < size {
            return Place { packet, byte };
        }
        byte -= size;
        packet += 1;
    }
}

// The same at once where every packet but the last is full.
pub(crate) fn place_of(words: &[u32], packets: usize, size: usize, index: usize) -> Place
    requires { Sized words.now packets size × (index < size) }
    ensures { Found 4 1 words.now packets index result.packet result.byte }
{
    let last = packets - 1;
    let count = layout::count_of(words[4 * last]) as usize;
    if size + 1 == 13 * last + count {
        return Place {
            packet: index / 13,
            byte: index % 13,
        };
    }
    locate(words, packets, size, index)
}

// Payload byte `byte` of packet `packet` of a SysEx8 message.
pub fn byte_at(words: &[u32], packet: usize, byte: usize) -> u8
    requires { (4 * packet + 4 ≤ length words.now) × (packet < 4096) × (byte < 13) }
    ensures { result ≡ byte_at sysex8 words.now packet byte }
{
    let place = byte + 3;
    layout::octet_of(words[4 * packet + place / 4], place)
}

// Sets payload byte `byte` of packet `packet` of a SysEx8 message.
pub(crate) fn store_byte(words: &mut [u32], packet: usize, byte: usize, value: u8)
    requires { (4 * packet + 4 ≤ length words.old) × (packet < 4096) × (byte < 13) }
    ensures { words.new ≡ store_byte sysex8 words.old packet byte value }
{
    let place = byte + 3;
    let at = 4 * packet + place / 4;
    words[at] = layout::with_octet(words[at], place, value);
}

// Puts the four octets of a word at bytes `at` to `at + 3`.
fn put_four(bytes: &mut [u8], at: usize, word: u32)
    requires { at + 4 ≤ length bytes.old }
    ensures { bytes.new ≡ put_four bytes.old at word }
{
    bytes[at] = layout::octet_of(word, 0);
    bytes[at + 1] = layout::octet_of(word, 1);
    bytes[at + 2] = layout::octet_of(word, 2);
    bytes[at + 3] = layout::octet_of(word, 3);
}

// Copies the 13 bytes of a full packet. A word is read once the one before it is put, so that its four stores can be one.
fn copy_full(words: &[u32], packet: usize, bytes: &mut [u8], at: usize)
    requires { Fitting words.now bytes.old packet at × (size_at sysex8 words.now packet ≡ 13) }
    ensures { bytes.new ≡ copied words.now bytes.old packet at }
{
    let word = 4 * packet;
    bytes[at] = layout::octet_of(words[word], 3);
    put_four(bytes, at + 1, words[word + 1]);
    put_four(bytes, at + 5, words[word + 2]);
    put_four(bytes, at + 9, words[word + 3]);
}

// Copies the payload of packet `packet` of a SysEx8 message to the bytes from `at` on; answers how far.
fn copy_packet(words: &[u32], packet: usize, bytes: &mut [u8], at: usize) -> usize
    requires { Fitting words.now bytes.old packet at }
    ensures { CopiedTo words.now bytes.old bytes.new packet at result }
{
    let count = layout::count_of(words[4 * packet]) as usize;
    if count == 14 {
        copy_full(words, packet, bytes, at);
        return at + 13;
    }
    let size = layout::payload_size::<layout::Sysex8>(count);
    for byte in 0..size {
        bytes[at + byte] = byte_at(words, packet, byte);
    }
    at + size
}

// Copies the payload of the packets of a SysEx8 message to the front of the bytes.
pub(crate) fn copy_packets(words: &[u32], packets: usize, bytes: &mut [u8])
    requires { AllFitting words.now bytes.old packets }
    ensures { bytes.new ≡ all_copied words.now bytes.old packets }
{
    let mut at = 0;
    for packet in 0..packets {
        at = copy_packet(words, packet, bytes, at);
    }
}
