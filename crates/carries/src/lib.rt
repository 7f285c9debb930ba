// Whether lent words are one valid SysEx8 message, in any packing, that carries a payload with a group and a stream id.
#![tactic(auto)]

ghost use Rattle.std.specs.Prelude.{◌≡◌, [], ◌∷◌, ◌+◌, ◌≤◌, length, drop};
ghost use Rattle.ump.specs.Word.{octets};
ghost use Rattle.ump.specs.Packet.{sysex8, payload_at};
ghost use Rattle.carries.specs.Carries.{unlike, other_bytes, carries};
ghost use Rattle.carries.specs.Steps.{Before, AllCounted, first_found};
ghost use Rattle.refusal.specs.Meaning.{answer_of};

use refusal::{Fault, Refusal};

// Whether the four octets of a word are not the payload's bytes from `at` on.
fn word_differs(word: u32, payload: &[u8], at: usize) -> bool
    requires { at + 4 ≤ length payload.now }
    ensures { result ≡ unlike (octets (word ∷ [])) (drop at payload.now) }
{
    // By hand: the packet's bytes are octets of a word, no slice that `==` or `starts_with` could take.
    let four = layout::word_of(
        payload[at],
        payload[at + 1],
        payload[at + 2],
        payload[at + 3],
    );
    word != four
}

// Whether a byte of a packet, from byte `from` on, is not the payload's at its place, as far as the payload goes: byte by byte.
fn bytes_differ(
    words: &[u32],
    packet: usize,
    from: usize,
    size: usize,
    payload: &[u8],
    at: usize,
) -> bool
    requires { Before words.now packet size at }
    ensures { result ≡ unlike (drop from (payload_at sysex8 words.now packet)) (drop (at + from) payload.now) }
{
    for byte in from..size {
        if at + byte >= payload.len() {
            return false;
        }
        if message::bytes::byte_at(words, packet, byte) != payload[at + byte] {
            return true;
        }
    }
    false
}

// The same of all bytes of a packet, where the payload has as many: the first byte, then word by word, and what is left.
fn packet_differs(words: &[u32], packet: usize, size: usize, payload: &[u8], at: usize) -> bool
    requires { Before words.now packet size at × (at + size ≤ length payload.now) }
    ensures { result ≡ unlike (payload_at sysex8 words.now packet) (drop at payload.now) }
{
    // By hand, word by word: byte by byte, packets that are not full took two and a half times as long (docs/DECISIONS.md, 210).
    if size == 0 {
        return false;
    }
    let word = 4 * packet;
    if layout::octet_of(words[word], 3) != payload[at] {
        return true;
    }
    if size < 5 {
        return bytes_differ(words, packet, 1, size, payload, at);
    }
    if word_differs(words[word + 1], payload, at + 1) {
        return true;
    }
    if size < 9 {
        return bytes_differ(words, packet, 5, size, payload, at);
    }
    if word_differs(words[word + 2], payload, at + 5) {
        return true;
    }
    if size < 13 {
        return bytes_differ(words, packet, 9, size, payload, at);
    }
    word_differs(words[word + 3], payload, at + 9)
}

// The same, however many bytes the payload has.
fn differs(words: &[u32], packet: usize, size: usize, payload: &[u8], at: usize) -> bool
    requires { Before words.now packet size at }
    ensures { result ≡ unlike (payload_at sysex8 words.now packet) (drop at payload.now) }
{
    if at + size <= payload.len() {
        return packet_differs(words, packet, size, payload, at);
    }
    bytes_differ(words, packet, 0, size, payload, at)
}

// The first packet with a byte that is not the payload's at its place.
fn first_differing(words: &[u32], packets: usize, payload: &[u8]) -> Option<usize>
    requires { AllCounted words.now packets }
    ensures { result ≡ first_found (other_bytes sysex8 words.now payload.now) packets }
{
    let mut at = 0;
    for packet in 0..packets {
        let size = layout::count_of(words[4 * packet]) as usize - 1;
        if differs(words, packet, size, payload, at) {
            return Some(packet);
        }
        at += size;
    }
    None
}

// Yes exactly if the first `length` of the words lent are one valid message, in any packing, that carries the payload with this group
// and stream id. The check's refusals, Field for a group above 15, then Other: at 0 if group or id differ, else at the packet that holds
// the first byte that differs within the common length, else at 0 if only the sizes differ.
pub fn carries(words: &[u32], length: usize, payload: &[u8], group: u8, id: u8) -> Result<(), Fault>
    ensures { answer_of result ≡ carries sysex8 words.now length payload.now group (id ∷ []) }
{
    let message = message::sysex8::check(words, length)?;
    if group > 15 {
        return Err(Refusal::Field.into());
    }
    if message.group != group {
        return Err(Refusal::Other.into());
    }
    if message.id != id {
        return Err(Refusal::Other.into());
    }
    if let Some(packet) = first_differing(words, length / 4, payload) {
        return Err(Fault {
            refusal: Refusal::Other,
            place: 4 * packet,
        });
    }
    if message.size != payload.len() {
        return Err(Refusal::Other.into());
    }
    Ok(())
}
