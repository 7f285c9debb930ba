// Single SysEx7 packets of two words.
ghost use Rattle.std.specs.Prelude.{◌≡◌};
ghost use Rattle.ump.specs.Packet.{sysex7};
ghost use Rattle.ump.specs.Single.{read_packet7, packet_byte, set_packet_group};
ghost use Rattle.packet.specs.Meaning.{packet_meaning7};
ghost use Rattle.packet.specs.Steps.{decision7};
ghost use Rattle.packet.specs.Reads.{reads7};
ghost use Rattle.refusal.specs.Meaning.{answer_of};
ghost use mathlib.Core.Path.{refl};

use crate::{Kind, Single};
use layout::Sysex7;
use refusal::{Fault, Refusal};

// What a packet says: kind, group and payload size.
// A struct of its own: a generic one would have `()` for the stream id, which SysEx7 lacks.
#[derive(Clone, Copy, Debug, PartialEq, Eq)]
pub struct Packet {
    pub kind: Kind,
    pub group: u8,
    pub size: usize,
}

impl Single for Sysex7 {
    ghost LIMIT = { 128 };

    ghost reads = { read_packet7 };

    ghost decided = { decision7 };

    const LIMIT: u32 = 128;

    // Count, then Status.
    fn decide(words: &[u32]) -> Result<(Kind, usize), Refusal> {
        crate::counted::<Sysex7>(
            layout::status_of(words[0]),
            layout::count_of(words[0]) as usize,
        )
    }

    ghost limit_is = { refl };

    ghost reads_framed = { reads7 };
}

// Reads the packet in the first two words; refuses in the order Short, Type, Count, Status.
pub fn read_packet(words: &[u32]) -> Result<Packet, Fault>
    ensures { packet_meaning7 result ≡ read_packet7 words.now }
{
    let (kind, size) = crate::read::<Sysex7>(words)?;
    Ok(Packet {
        kind,
        group: layout::group_of(words[0]),
        size,
    })
}

// Payload byte `index` of the packet, its low seven bits: the reader's refusals, then Range.
pub fn byte(words: &[u32], index: usize) -> Result<u8, Fault>
    ensures { answer_of result ≡ packet_byte sysex7 (read_packet7 words.now) words.now index }
{
    crate::byte::<Sysex7>(words, index)
}

// Sets the group of the packet: the reader's refusals, then Field.
pub fn set_group(words: &mut [u32], group: u8) -> Result<(), Fault>
    ensures { (answer_of result, words.new) ≡ set_packet_group (read_packet7 words.old) words.old group }
{
    crate::set_group::<Sysex7>(words, group)
}
