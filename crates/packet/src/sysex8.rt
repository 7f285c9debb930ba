// Single SysEx8 packets of four words.
ghost use Rattle.std.specs.Prelude.{◌≡◌, true, ◌≤◌, length, IfOk};
ghost use Rattle.ump.specs.Packet.{sysex8};
ghost use Rattle.ump.specs.Single.{blank, read_packet8, packet_byte, set_packet_group};
ghost use Rattle.packet.specs.Meaning.{packet_meaning8, decision_of, said};
ghost use Rattle.packet.specs.Steps.{decide8, decision8};
ghost use Rattle.packet.specs.Reads.{reads8};
ghost use Rattle.refusal.specs.Meaning.{answer_of};
ghost use mathlib.Core.Path.{refl};

use crate::{Earlier, Kind, Single};
use layout::Sysex8;
use refusal::{Fault, Refusal};

// What a packet says: kind, group, stream id and payload size.
#[derive(Clone, Copy, Debug, PartialEq, Eq)]
pub struct Packet {
    pub kind: Kind,
    pub group: u8,
    pub id: u8,
    pub size: usize,
}

// Whether octet 3 and words 1 to 3 are zero.
fn is_blank(words: &[u32]) -> bool
    requires { 4 ≤ length words.now }
    ensures { result ≡ blank words.now }
{
    matches!(words, [first, 0, 0, 0, ..] if layout::octet_of(*first, 3) == 0)
}

// An end packet of zeros: unexpected at count 1, earlier data valid, and at count 15, invalid; Count for the rest.
fn blank_end(count: usize) -> Result<(Kind, usize), Refusal>
    ensures decision { said decision_of result ≡ decide8 3 count true }
    ensures small { IfOk result (λ d. d.1 ≤ 13) }
{
    match count {
        1 => Ok((Kind::UnexpectedEnd(Earlier::Valid), 0)),
        15 => Ok((Kind::UnexpectedEnd(Earlier::Invalid), 0)),
        _ => crate::counted::<Sysex8>(3, count),
    }
}

impl Single for Sysex8 {
    ghost LIMIT = { 256 };

    ghost reads = { read_packet8 };

    ghost decided = { decision8 };

    const LIMIT: u32 = 256;

    // The status nibble and the zero octets decide the kind; Status, then Count.
    fn decide(words: &[u32]) -> Result<(Kind, usize), Refusal> {
        let status = layout::status_of(words[0]);
        let count = layout::count_of(words[0]) as usize;
        match status {
            0..=2 => crate::counted::<Sysex8>(status, count),
            3 if is_blank(words) => blank_end(count),
            3 => crate::counted::<Sysex8>(status, count),
            _ => Err(Refusal::Status),
        }
    }

    ghost limit_is = { refl };

    ghost reads_framed = { reads8 };
}

// Reads the packet in the first four words; refuses in the order Short, Type, Status, Count.
pub fn read_packet(words: &[u32]) -> Result<Packet, Fault>
    ensures { packet_meaning8 result ≡ read_packet8 words.now }
{
    let (kind, size) = crate::read::<Sysex8>(words)?;
    Ok(Packet {
        kind,
        group: layout::group_of(words[0]),
        id: layout::id_of(words[0]),
        size,
    })
}

// Payload byte `index` of the packet: the reader's refusals, then Range.
pub fn byte(words: &[u32], index: usize) -> Result<u8, Fault>
    ensures { answer_of result ≡ packet_byte sysex8 (read_packet8 words.now) words.now index }
{
    crate::byte::<Sysex8>(words, index)
}

// Sets the group of the packet: the reader's refusals, then Field.
pub fn set_group(words: &mut [u32], group: u8) -> Result<(), Fault>
    ensures { (answer_of result, words.new) ≡ set_packet_group (read_packet8 words.old) words.old group }
{
    crate::set_group::<Sysex8>(words, group)
}
