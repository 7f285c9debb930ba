// What the exported calls answer, and how the answers of the libraries become that.
#![tactic(auto)]

ghost use Rattle.std.specs.Prelude.{◌≡◌, [], ◌∷◌, MatchResult};
ghost use Rattle.refusal.specs.Answer.{gives, pass};
ghost use Rattle.refusal.specs.Meaning.{fault_of};
ghost use Rattle.bit_ops.specs.Meaning.{bit_number};
ghost use Rattle.ump.specs.Single.{single_packet};
ghost use Rattle.ump.specs.Check.{summary};
ghost use Rattle.packet.specs.Meaning.{kind_meaning};
ghost use Rattle.edit.specs.Meaning.{range_meaning, octet_meaning};
ghost use Rattle.look.specs.Meaning.{found_run};
ghost use Rattle.ports.specs.Meaning.{reply_meaning};
ghost use Rattle.reader.specs.Meaning.{cursor_meaning, read_meaning};
ghost use Rattle.chain.specs.Meaning.{description_meaning};
ghost use Rattle.answers.specs.Answers.{number_answer, done_answer, kind_code, packet_answer, message_answer, change_answer};
ghost use Rattle.answers.specs.Answers.{growth_answer, range_answer, origin_answer, run_answer};
ghost use Rattle.answers.specs.Answers.{cursor_answer, read_answer, dump_answer, received_answer};

use chain::{Basis, Description};
use edit::{OctetOrigin, Range};
use look::Found;
use packet::{Earlier, Kind, sysex7, sysex8};
use ports::Received;
use reader::{Cursor, Read};
use refusal::Fault;
use splice::sysex8::Change;

// A number: a byte, a field or a word with a field set, a size in bytes, a length in words or bytes, a count of dumps; 0 where a call only
// stores or only says yes.
#[repr(C)]
#[derive(Clone, Copy, Debug, Default, PartialEq, Eq)]
pub struct NumberAnswer {
    pub refusal: u8,
    pub place: usize,
    pub value: usize,
}

// A packet: its kind (0 complete, 1 start, 2 continue, 3 end, 4 and 5 an unexpected end with valid and invalid earlier data), its
// group, its stream id, 0 for SysEx7, and its payload size.
#[repr(C)]
#[derive(Clone, Copy, Debug, Default, PartialEq, Eq)]
pub struct PacketAnswer {
    pub refusal: u8,
    pub place: usize,
    pub kind: u8,
    pub group: u8,
    pub id: u8,
    pub size: usize,
}

// A message: its group, its stream id, 0 for SysEx7, its payload size and its words.
#[repr(C)]
#[derive(Clone, Copy, Debug, Default, PartialEq, Eq)]
pub struct MessageAnswer {
    pub refusal: u8,
    pub place: usize,
    pub group: u8,
    pub id: u8,
    pub size: usize,
    pub words: usize,
}

// What a splice did: the new length in words, and the growth.
#[repr(C)]
#[derive(Clone, Copy, Debug, Default, PartialEq, Eq)]
pub struct ChangeAnswer {
    pub refusal: u8,
    pub place: usize,
    pub length: usize,
    pub growth: i64,
}

// The growth of an edit.
#[repr(C)]
#[derive(Clone, Copy, Debug, Default, PartialEq, Eq)]
pub struct GrowthAnswer {
    pub refusal: u8,
    pub place: usize,
    pub growth: i64,
}

// The new range of an edit.
#[repr(C)]
#[derive(Clone, Copy, Debug, Default, PartialEq, Eq)]
pub struct RangeAnswer {
    pub refusal: u8,
    pub place: usize,
    pub from: usize,
    pub to: usize,
}

// Where an octet comes from: kind 0 a header, of packet `number` octet `index`; 1 byte `index` of the dump; 2 of edit `number` byte
// `index`; 3 filler; 4 zeroed; 5 untouched; `number` and `index` are 0 where they say nothing.
#[repr(C)]
#[derive(Clone, Copy, Debug, Default, PartialEq, Eq)]
pub struct OriginAnswer {
    pub refusal: u8,
    pub place: usize,
    pub kind: u8,
    pub number: usize,
    pub index: usize,
}

// A run of bytes of a payload with one edit: where it stands, source 0 the payload before the edit, 1 the replacement, 2 the payload
// behind the edit, and its bytes there, from `start` up to `end`.
#[repr(C)]
#[derive(Clone, Copy, Debug, Default, PartialEq, Eq)]
pub struct RunAnswer {
    pub refusal: u8,
    pub place: usize,
    pub source: u8,
    pub start: usize,
    pub end: usize,
}

// Where a reader of a payload stands: packet, byte, and how many bytes are to be read.
#[repr(C)]
#[derive(Clone, Copy, Debug, Default, PartialEq, Eq)]
pub struct CursorAnswer {
    pub refusal: u8,
    pub place: usize,
    pub packet: usize,
    pub byte: usize,
    pub remaining: usize,
}

// What a reader read: whether the payload has ended, the byte, 0 at the end, and where the reader stands then.
#[repr(C)]
#[derive(Clone, Copy, Debug, Default, PartialEq, Eq)]
pub struct ReadAnswer {
    pub ended: bool,
    pub value: u8,
    pub packet: usize,
    pub byte: usize,
    pub remaining: usize,
}

// A dump of a store: whether it is a delta, the group and stream id of its whole dump, its base, 0 for a whole dump, its payload size,
// the words that restoring it needs, and how many bases are followed to its whole dump.
#[repr(C)]
#[derive(Clone, Copy, Debug, Default, PartialEq, Eq)]
pub struct DumpAnswer {
    pub refusal: u8,
    pub place: usize,
    pub delta: bool,
    pub group: u8,
    pub id: u8,
    pub base: usize,
    pub size: usize,
    pub words: usize,
    pub steps: usize,
}

// What a received packet did: kind 0 it is kept in its stream, 1 its stream is dropped, 2 a message of so many words is handed out.
#[repr(C)]
#[derive(Clone, Copy, Debug, Default, PartialEq, Eq)]
pub struct ReceivedAnswer {
    pub refusal: u8,
    pub place: usize,
    pub kind: u8,
    pub words: usize,
}

// What a call answers, as a struct that C reads: that of its value, or that of its refusal.
pub fn answer<T, A: From<T> + From<Fault>>(said: Result<T, Fault>) -> A
    ensures { MatchResult said (λ value. ⟦<A as From<T>>⟧.from_gives value result) (λ fault. ⟦<A as From<Fault>>⟧.from_gives fault result) }
{
    match said {
        Ok(value) => value.into(),
        Err(fault) => fault.into(),
    }
}

// A number is made of each type by an impl of its own: no bound of the library's holds of all six, and C takes one struct.
impl From<usize> for NumberAnswer {
    ghost from_gives = { λ value struct. struct ≡ number_answer (gives value) };

    // A number.
    fn from(value: usize) -> NumberAnswer {
        NumberAnswer {
            value: value,
            ..NumberAnswer::default()
        }
    }
}

impl From<u8> for NumberAnswer {
    ghost from_gives = { λ value struct. struct ≡ number_answer (gives value) };

    // A byte that is read.
    fn from(value: u8) -> NumberAnswer {
        NumberAnswer {
            value: value as usize,
            ..NumberAnswer::default()
        }
    }
}

impl From<u16> for NumberAnswer {
    ghost from_gives = { λ value struct. struct ≡ number_answer (gives value) };

    // A word of 16 bits that is read.
    fn from(value: u16) -> NumberAnswer {
        NumberAnswer {
            value: value as usize,
            ..NumberAnswer::default()
        }
    }
}

impl From<u32> for NumberAnswer {
    ghost from_gives = { λ value struct. struct ≡ number_answer (gives value) };

    // A word with a field set.
    fn from(value: u32) -> NumberAnswer {
        NumberAnswer {
            value: value as usize,
            ..NumberAnswer::default()
        }
    }
}

impl From<bool> for NumberAnswer {
    ghost from_gives = { λ value struct. struct ≡ number_answer (gives (bit_number value)) };

    // A bit that is read.
    fn from(value: bool) -> NumberAnswer {
        NumberAnswer {
            value: value as usize,
            ..NumberAnswer::default()
        }
    }
}

impl From<()> for NumberAnswer {
    ghost from_gives = { λ _ struct. struct ≡ done_answer pass };

    // What a call that only stores, or only says yes, gives: no value.
    fn from(_value: ()) -> NumberAnswer {
        NumberAnswer::default()
    }
}

impl From<Fault> for NumberAnswer {
    ghost from_gives = { λ fault struct. struct ≡ number_answer (fault_of fault) };

    // A refused number.
    fn from(fault: Fault) -> NumberAnswer {
        NumberAnswer {
            refusal: refusal::number(fault.refusal),
            place: fault.place,
            ..NumberAnswer::default()
        }
    }
}

// The number of a packet's kind.
fn kind_code(kind: Kind) -> u8
    ensures { result ≡ kind_code (kind_meaning kind) }
{
    match kind {
        Kind::Complete => 0,
        Kind::Start => 1,
        Kind::Continue => 2,
        Kind::End => 3,
        Kind::UnexpectedEnd(Earlier::Valid) => 4,
        Kind::UnexpectedEnd(Earlier::Invalid) => 5,
    }
}

impl From<sysex8::Packet> for PacketAnswer {
    ghost from_gives = { λ packet struct. struct ≡ packet_answer (gives (single_packet (kind_meaning packet.kind) packet.group (packet.id ∷ []) packet.size)) };

    // A SysEx8 packet.
    fn from(packet: sysex8::Packet) -> PacketAnswer {
        PacketAnswer {
            kind: kind_code(packet.kind),
            group: packet.group,
            id: packet.id,
            size: packet.size,
            ..PacketAnswer::default()
        }
    }
}

impl From<sysex7::Packet> for PacketAnswer {
    ghost from_gives = { λ packet struct. struct ≡ packet_answer (gives (single_packet (kind_meaning packet.kind) packet.group [] packet.size)) };

    // A SysEx7 packet, which has no stream id.
    fn from(packet: sysex7::Packet) -> PacketAnswer {
        PacketAnswer {
            kind: kind_code(packet.kind),
            group: packet.group,
            size: packet.size,
            ..PacketAnswer::default()
        }
    }
}

impl From<Fault> for PacketAnswer {
    ghost from_gives = { λ fault struct. struct ≡ packet_answer (fault_of fault) };

    // A refused packet.
    fn from(fault: Fault) -> PacketAnswer {
        PacketAnswer {
            refusal: refusal::number(fault.refusal),
            place: fault.place,
            ..PacketAnswer::default()
        }
    }
}

impl From<message::sysex8::Summary> for MessageAnswer {
    ghost from_gives = { λ message struct. struct ≡ message_answer (gives (summary message.group (message.id ∷ []) message.size message.words)) };

    // A SysEx8 message.
    fn from(message: message::sysex8::Summary) -> MessageAnswer {
        MessageAnswer {
            group: message.group,
            id: message.id,
            size: message.size,
            words: message.words,
            ..MessageAnswer::default()
        }
    }
}

impl From<message::sysex7::Summary> for MessageAnswer {
    ghost from_gives = { λ message struct. struct ≡ message_answer (gives (summary message.group [] message.size message.words)) };

    // A SysEx7 message, which has no stream id.
    fn from(message: message::sysex7::Summary) -> MessageAnswer {
        MessageAnswer {
            group: message.group,
            size: message.size,
            words: message.words,
            ..MessageAnswer::default()
        }
    }
}

impl From<Fault> for MessageAnswer {
    ghost from_gives = { λ fault struct. struct ≡ message_answer (fault_of fault) };

    // A refused message.
    fn from(fault: Fault) -> MessageAnswer {
        MessageAnswer {
            refusal: refusal::number(fault.refusal),
            place: fault.place,
            ..MessageAnswer::default()
        }
    }
}

impl From<Change> for ChangeAnswer {
    ghost from_gives = { λ change struct. struct ≡ change_answer (gives (record { length = change.length; growth = change.growth })) };

    // A splice.
    fn from(change: Change) -> ChangeAnswer {
        ChangeAnswer {
            length: change.length,
            growth: change.growth,
            ..ChangeAnswer::default()
        }
    }
}

impl From<Fault> for ChangeAnswer {
    ghost from_gives = { λ fault struct. struct ≡ change_answer (fault_of fault) };

    // A refused splice.
    fn from(fault: Fault) -> ChangeAnswer {
        ChangeAnswer {
            refusal: refusal::number(fault.refusal),
            place: fault.place,
            ..ChangeAnswer::default()
        }
    }
}

impl From<i64> for GrowthAnswer {
    ghost from_gives = { λ growth struct. struct ≡ growth_answer (gives growth) };

    // The growth of an edit.
    fn from(growth: i64) -> GrowthAnswer {
        GrowthAnswer {
            growth,
            ..GrowthAnswer::default()
        }
    }
}

impl From<Fault> for GrowthAnswer {
    ghost from_gives = { λ fault struct. struct ≡ growth_answer (fault_of fault) };

    // A refused edit.
    fn from(fault: Fault) -> GrowthAnswer {
        GrowthAnswer {
            refusal: refusal::number(fault.refusal),
            place: fault.place,
            ..GrowthAnswer::default()
        }
    }
}

impl From<Range> for RangeAnswer {
    ghost from_gives = { λ range struct. struct ≡ range_answer (gives (range_meaning range)) };

    // A moved edit.
    fn from(range: Range) -> RangeAnswer {
        RangeAnswer {
            from: range.from,
            to: range.to,
            ..RangeAnswer::default()
        }
    }
}

impl From<Fault> for RangeAnswer {
    ghost from_gives = { λ fault struct. struct ≡ range_answer (fault_of fault) };

    // A refused move.
    fn from(fault: Fault) -> RangeAnswer {
        RangeAnswer {
            refusal: refusal::number(fault.refusal),
            place: fault.place,
            ..RangeAnswer::default()
        }
    }
}

impl From<OctetOrigin> for OriginAnswer {
    ghost from_gives = { λ origin struct. struct ≡ origin_answer (gives (octet_meaning origin)) };

    // Where an octet comes from.
    fn from(origin: OctetOrigin) -> OriginAnswer {
        let (kind, number, index) = match origin {
            OctetOrigin::Header(header) => (0, header.packet, header.octet),
            OctetOrigin::Dump(byte) => (1, 0, byte),
            OctetOrigin::Edit(edit) => (2, edit.edit, edit.byte),
            OctetOrigin::Filler => (3, 0, 0),
            OctetOrigin::Zeroed => (4, 0, 0),
            OctetOrigin::Untouched => (5, 0, 0),
        };
        OriginAnswer {
            kind,
            number,
            index,
            ..OriginAnswer::default()
        }
    }
}

impl From<Fault> for OriginAnswer {
    ghost from_gives = { λ fault struct. struct ≡ origin_answer (fault_of fault) };

    // A refused octet.
    fn from(fault: Fault) -> OriginAnswer {
        OriginAnswer {
            refusal: refusal::number(fault.refusal),
            place: fault.place,
            ..OriginAnswer::default()
        }
    }
}

impl From<Found> for RunAnswer {
    ghost from_gives = { λ found struct. struct ≡ run_answer (gives (found_run found)) };

    // Where a run stands.
    fn from(found: Found) -> RunAnswer {
        let (source, part) = match found {
            Found::Before(part) => (0, part),
            Found::Within(part) => (1, part),
            Found::Behind(part) => (2, part),
        };
        RunAnswer {
            source,
            start: part.start,
            end: part.end,
            ..RunAnswer::default()
        }
    }
}

impl From<Fault> for RunAnswer {
    ghost from_gives = { λ fault struct. struct ≡ run_answer (fault_of fault) };

    // A refused run.
    fn from(fault: Fault) -> RunAnswer {
        RunAnswer {
            refusal: refusal::number(fault.refusal),
            place: fault.place,
            ..RunAnswer::default()
        }
    }
}

impl From<Cursor> for CursorAnswer {
    ghost from_gives = { λ cursor struct. struct ≡ cursor_answer (gives (cursor_meaning cursor)) };

    // Where a reader stands.
    fn from(cursor: Cursor) -> CursorAnswer {
        CursorAnswer {
            packet: cursor.packet,
            byte: cursor.byte,
            remaining: cursor.remaining,
            ..CursorAnswer::default()
        }
    }
}

impl From<Fault> for CursorAnswer {
    ghost from_gives = { λ fault struct. struct ≡ cursor_answer (fault_of fault) };

    // A refused message.
    fn from(fault: Fault) -> CursorAnswer {
        CursorAnswer {
            refusal: refusal::number(fault.refusal),
            place: fault.place,
            ..CursorAnswer::default()
        }
    }
}

impl From<Read> for ReadAnswer {
    ghost from_gives = { λ read struct. struct ≡ read_answer (read_meaning read) };

    // What a reader read.
    fn from(read: Read) -> ReadAnswer {
        let (ended, value) = match read.step {
            Some(value) => (false, value),
            None => (true, 0),
        };
        ReadAnswer {
            ended,
            value,
            packet: read.cursor.packet,
            byte: read.cursor.byte,
            remaining: read.cursor.remaining,
        }
    }
}

impl From<Description> for DumpAnswer {
    ghost from_gives = { λ dump struct. struct ≡ dump_answer (gives (description_meaning dump)) };

    // A dump that is described.
    fn from(dump: Description) -> DumpAnswer {
        let (delta, base) = match dump.basis {
            Basis::Whole => (false, 0),
            Basis::Delta(base) => (true, base),
        };
        DumpAnswer {
            delta,
            group: dump.group,
            id: dump.id,
            base,
            size: dump.size,
            words: dump.words,
            steps: dump.steps,
            ..DumpAnswer::default()
        }
    }
}

impl From<Fault> for DumpAnswer {
    ghost from_gives = { λ fault struct. struct ≡ dump_answer (fault_of fault) };

    // A refused dump.
    fn from(fault: Fault) -> DumpAnswer {
        DumpAnswer {
            refusal: refusal::number(fault.refusal),
            place: fault.place,
            ..DumpAnswer::default()
        }
    }
}

impl From<Received> for ReceivedAnswer {
    ghost from_gives = { λ received struct. struct ≡ received_answer (gives (reply_meaning received)) };

    // What a received packet did.
    fn from(received: Received) -> ReceivedAnswer {
        let (kind, words) = match received {
            Received::Kept => (0, 0),
            Received::Dropped => (1, 0),
            Received::HandedOut(words) => (2, words),
        };
        ReceivedAnswer {
            kind,
            words,
            ..ReceivedAnswer::default()
        }
    }
}

impl From<Fault> for ReceivedAnswer {
    ghost from_gives = { λ fault struct. struct ≡ received_answer (fault_of fault) };

    // A refused packet.
    fn from(fault: Fault) -> ReceivedAnswer {
        ReceivedAnswer {
            refusal: refusal::number(fault.refusal),
            place: fault.place,
            ..ReceivedAnswer::default()
        }
    }
}
