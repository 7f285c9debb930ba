// Where an octet of the words lent comes from, if all edits of a list are done at once.
ghost use Rattle.std.specs.Prelude.{◌≡◌, ◌<◌};
ghost use Rattle.ump.specs.Packet.{sysex8};
ghost use Rattle.ump.specs.Edits.{edits_of};
ghost use Rattle.ump.specs.Runs.{run_at};
ghost use Rattle.ump.specs.Origin.{beginning, origin_of, origin as origin_for};
ghost use Rattle.message.specs.Accepted.{Accepted};
ghost use Rattle.edit.specs.Meaning.{octet_meaning, origin_meaning};

use crate::listed::Edits;
use crate::placing::Standing;
use layout::{Format, Sysex8};
use refusal::{Fault, Refusal};

// Of this packet, this octet of its header.
#[derive(Clone, Copy, Debug, PartialEq, Eq)]
pub struct HeaderOctet {
    pub packet: usize,
    pub octet: usize,
}

// Of this edit, this byte of its replacement.
#[derive(Clone, Copy, Debug, PartialEq, Eq)]
pub struct EditByte {
    pub edit: usize,
    pub byte: usize,
}

// Where an octet comes from: a header of the message, a byte of the dump, one of an edit, an unused octet of the last packet;
// behind the message it is zeroed where the old one stood, and untouched behind both.
#[derive(Clone, Copy, Debug, PartialEq, Eq)]
pub enum OctetOrigin {
    Header(HeaderOctet),
    Dump(usize),
    Edit(EditByte),
    Filler,
    Zeroed,
    Untouched,
}

// Octets of a word.
const WORD: usize = 4;

// Octets of a packet.
const PACKET: usize = WORD * Sysex8::WORDS;

// Octets of a packet's header, which come first.
const HEADER: usize = PACKET - Sysex8::ROOM;

impl Edits<'_> {
    // Byte `position` of the result.
    fn byte_origin(&self, position: usize) -> OctetOrigin
        ensures { octet_meaning result ≡ beginning (run_at self.now.size (edits_of self.now.numbers.now) position) }
    {
        match self.find_byte(position) {
            Some(Standing::Dump(byte)) => OctetOrigin::Dump(byte),
            Some(Standing::Edit(byte, _)) => OctetOrigin::Edit(byte),
            None => OctetOrigin::Filler,
        }
    }

    // Octet `octet` of the message with all edits.
    fn octet_origin(&self, octet: usize) -> OctetOrigin
        requires { octet < 65536 }
        ensures { octet_meaning result ≡ origin_of sysex8 self.now.size (edits_of self.now.numbers.now) octet }
    {
        let packet = octet / PACKET;
        let within = octet % PACKET;
        if within < HEADER {
            return OctetOrigin::Header(HeaderOctet {
                packet,
                octet: within,
            });
        }
        self.byte_origin(Sysex8::ROOM * packet + (within - HEADER))
    }
}

// An octet of the words lent, of a message that passed the check: Range, Overlap, Room, Range for an octet behind the words.
fn origin_checked(
    words: &[u32],
    length: usize,
    size: usize,
    numbers: &[usize],
    bytes: &[u8],
    octet: usize,
) -> Result<OctetOrigin, Fault>
    requires { Accepted words.now length size }
    ensures { origin_meaning result ≡ origin_for sysex8 words.now length numbers.now bytes.now octet }
{
    let edits = Edits::checked(numbers, size, bytes.len())?;
    let needed = splice::sysex8::words_needed(edits.total());
    let word = octet / WORD;
    if words.len() < needed {
        return Err(Refusal::Room.into());
    }
    if word >= words.len() {
        return Err(Refusal::Range.into());
    }
    if word < needed {
        return Ok(edits.octet_origin(octet));
    }
    if word < length {
        return Ok(OctetOrigin::Zeroed);
    }
    Ok(OctetOrigin::Untouched)
}

// Where octet `octet` of the words lent comes from, if all edits of the list are done by `splice_all`: refused as that is, then
// Range for an octet that is not lent. Nothing is written.
pub fn origin(
    words: &[u32],
    length: usize,
    numbers: &[usize],
    bytes: &[u8],
    octet: usize,
) -> Result<OctetOrigin, Fault>
    ensures { origin_meaning result ≡ origin_for sysex8 words.now length numbers.now bytes.now octet }
{
    let message = message::sysex8::check(words, length)?;
    origin_checked(words, length, message.size, numbers, bytes, octet)
}
