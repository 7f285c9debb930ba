// Answers compared with what document 01 says, and the line of a sample.
#![tactic(auto)]

ghost use Rattle.std.specs.Prelude.{◌≡◌, ℕ, [], ◌∷◌, length, replicate};
ghost use Rattle.refusal.specs.Answer.{gives, refused};
ghost use Rattle.refusal.specs.Number.{number_of};
ghost use Rattle.ump.specs.Packet.{sysex8};
ghost use Rattle.ump.specs.Check.{checked};
ghost use Rattle.ump.specs.Setters.{copy_payload};
ghost use Rattle.ump.specs.Single.{read_packet8, read_packet7};
ghost use Rattle.packet.specs.Meaning.{kind_meaning};
ghost use Rattle.listing.specs.Listing.{listing};
ghost use Rattle.listing.specs.Steps.{handed};
ghost use Rattle.equality.specs.Tells.{Tells, Begins};
ghost use Rattle.compare.specs.Facts.{code_of, Says, Reads, Hands};
ghost use Rattle.refusal.specs.Meaning.{answer_of};

use packet::{Earlier, Kind};
use refusal::{Fault, Refusal};
use std::io;

// P5's message.
pub const MESSAGE: [u32; 12] = [
    0x5113_05A0u32,
    0xA100_0000,
    0,
    0,
    0x5121_0500,
    0,
    0,
    0,
    0x5132_05A2,
    0,
    0,
    0,
];

// Writes the line of a sample.
pub fn report(rt: &impl Print, name: &[u8], right: bool) -> io::Result<()> {
    rt.write_all(name)?;
    if right {
        rt.write_all(b" ok\n")
    } else {
        rt.write_all(b" WRONG\n")
    }
}

// A refusal with this number and place.
pub fn is_fault(fault: Fault, number: u8, place: usize) -> bool
    ensures { Tells result ((number_of fault.refusal ≡ number) × (fault.place ≡ place)) }
{
    refusal::number(fault.refusal) == number && fault.place == place
}

// What has a refusal's number: the refusal, or the number itself, which may be one that no refusal has.
pub trait Numbered: Copy {
    ghost number_is: { Self → ℕ };

    // The number.
    fn number(self) -> u8
        ensures { result ≡ number_is self };
}

impl Numbered for Refusal {
    ghost number_is = { number_of };

    fn number(self) -> u8 {
        refusal::number(self)
    }
}

impl Numbered for u8 {
    ghost number_is = { λ number. number };

    fn number(self) -> u8 {
        self
    }
}

// The answer refuses with this number and place.
pub fn refuses<T>(answer: &Result<T, Fault>, number: u8, place: usize) -> bool
    ensures { Tells result (answer_of answer.now ≡ refused number place) }
{
    match answer {
        Ok(_) => false,
        Err(fault) => is_fault(*fault, number, place),
    }
}

// The first `size` of these bytes are the ones expected.
fn begins(bytes: &[u8], size: usize, expected: &[u8]) -> bool
    ensures { Tells result (Begins bytes.now size expected.now) }
{
    size <= bytes.len() && &bytes[..size] == expected
}

// The call answers a size, and as many of these bytes are the ones expected.
fn hands(answer: Result<usize, Fault>, bytes: &[u8], expected: &[u8]) -> bool
    ensures { Tells result (Hands (answer_of answer, bytes.now) expected.now) }
{
    match answer {
        Ok(size) => begins(bytes, size, expected),
        Err(_) => false,
    }
}

// The message in these words has this group, stream id and payload size.
pub fn is_message(words: &[u32], group: u8, id: u8, size: usize) -> bool
    ensures { Tells result (Says (checked sysex8 words.now (length words.now)) group (id ∷ []) size
        (length words.now)) }
{
    match message::sysex8::check(words, words.len()) {
        Ok(found) => {
            (found.group, found.id, found.size, found.words) == (group, id, size, words.len())
        }
        Err(_) => false,
    }
}

// The message in these words is refused so.
pub fn is_refused(words: &[u32], number: u8, place: usize) -> bool
    ensures { Tells result (checked sysex8 words.now (length words.now) ≡ refused number place) }
{
    refuses(&message::sysex8::check(words, words.len()), number, place)
}

// The payload of the message, copied to these bytes, is the one expected.
fn copies(words: &[u32], expected: &[u8], bytes: &mut [u8]) -> bool
    ensures { Tells result (Hands (copy_payload sysex8 words.now (length words.now) bytes.old)
        expected.now) }
{
    let copied = message::sysex8::payload(words, words.len(), bytes);
    hands(copied, bytes, expected)
}

// The message in these words has this payload.
pub fn has_payload(words: &[u32], expected: &[u8]) -> bool
    ensures { Tells result (Hands (copy_payload sysex8 words.now (length words.now) (replicate 64 0))
        expected.now) }
{
    let mut bytes = [0u8; 64];
    copies(words, expected, &mut bytes)
}

// What a packet is: its status, or 4 and 5 for an unexpected end whose earlier data is valid or invalid.
fn kind_code(kind: Kind) -> u8
    ensures { result ≡ code_of (kind_meaning kind) }
{
    match kind {
        Kind::Complete => 0,
        Kind::Start => 1,
        Kind::Continue => 2,
        Kind::End => 3,
        Kind::UnexpectedEnd(Earlier::Valid) => 4,
        Kind::UnexpectedEnd(Earlier::Invalid) => 5,
    }
}

// The SysEx8 packet in these words has this kind, group, stream id and payload size.
// The kind is a number: a caller may ask for one that no packet has.
pub fn is_packet8(words: &[u32], kind: u8, group: u8, id: u8, size: usize) -> bool
    ensures { Tells result (Reads (read_packet8 words.now) kind group (id ∷ []) size) }
{
    match packet::sysex8::read_packet(words) {
        Ok(found) => {
            (kind_code(found.kind), found.group, found.id, found.size) == (kind, group, id, size)
        }
        Err(_) => false,
    }
}

// The SysEx8 packet in these words is refused so.
pub fn is_refused8(words: &[u32], number: u8) -> bool
    ensures { Tells result (read_packet8 words.now ≡ refused number 0) }
{
    refuses(&packet::sysex8::read_packet(words), number, 0)
}

// The SysEx7 packet in these words has this kind, group and payload size.
pub fn is_packet7(words: &[u32], kind: u8, group: u8, size: usize) -> bool
    ensures { Tells result (Reads (read_packet7 words.now) kind group [] size) }
{
    match packet::sysex7::read_packet(words) {
        Ok(found) => (kind_code(found.kind), found.group, found.size) == (kind, group, size),
        Err(_) => false,
    }
}

// The SysEx7 packet in these words is refused so.
pub fn is_refused7(words: &[u32], number: u8) -> bool
    ensures { Tells result (read_packet7 words.now ≡ refused number 0) }
{
    refuses(&packet::sysex7::read_packet(words), number, 0)
}

// A byte was read, and it is this one.
pub fn is_byte(read: Result<u8, Fault>, value: u8) -> bool
    ensures { Tells result (answer_of read ≡ gives value) }
{
    read == Ok(value)
}

// The listing of these bytes, written to this text, is the one expected.
fn writes(bytes: &[u8], expected: &[u8], text: &mut [u8]) -> bool
    ensures { Tells result (Hands (handed (listing bytes.now) text.old) expected.now) }
{
    let listed = listing::list(bytes, text);
    hands(listed, text, expected)
}

// The listing of these bytes is the one expected.
pub fn lists(bytes: &[u8], expected: &[u8]) -> bool
    ensures { Tells result (Hands (handed (listing bytes.now) (replicate 98560 0)) expected.now) }
{
    let mut text = [0u8; listing::TEXT];
    writes(bytes, expected, &mut text)
}
