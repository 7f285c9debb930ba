// Single packets: reading one, a payload byte of it, setting its group; SysEx8 and SysEx7.
#![tactic(auto)]

ghost use Rattle.std.specs.Prelude.{◌≡◌, ℕ, ◌+◌, ◌≤◌, List, length, IfOk};
ghost use Rattle.refusal.specs.Answer.{Answer, map_answer};
ghost use Rattle.refusal.specs.Meaning.{answer_of};
ghost use Rattle.ump.specs.Single as ump;
ghost use Rattle.ump.specs.Single.{packet_byte, set_packet_group};
ghost use Rattle.packet.specs.Meaning.{kind_meaning, decision_of, said};
ghost use Rattle.packet.specs.Steps.{status_kind, counted, packet_from, framed};

use layout::Format;
use refusal::{Fault, Refusal};

pub mod sysex7;
pub mod sysex8;

// Whether the data before an unexpected end is valid. By name: `UnexpectedEnd(true)` would not say what is true.
#[derive(Clone, Copy, Debug, PartialEq, Eq)]
pub enum Earlier {
    Valid,
    Invalid,
}

// What a packet is; an unexpected end is SysEx8's alone.
#[derive(Clone, Copy, Debug, PartialEq, Eq)]
pub enum Kind {
    Complete,
    Start,
    Continue,
    End,
    UnexpectedEnd(Earlier),
}

impl TryFrom<u8> for Kind {
    type Error = Refusal;

    ghost try_from_gives = { λ status result. said kind_meaning result ≡ status_kind status };

    // The kind that a status says; Status above 3.
    fn try_from(status: u8) -> Result<Kind, Refusal> {
        match status {
            0 => Ok(Kind::Complete),
            1 => Ok(Kind::Start),
            2 => Ok(Kind::Continue),
            3 => Ok(Kind::End),
            _ => Err(Refusal::Status),
        }
    }
}

// The single packets of one message type.
pub(crate) trait Single: Format {
    ghost LIMIT: { ℕ };

    // What is read of such words, and the kind and the payload size that are decided of them.
    ghost reads: { List ℕ → Answer ump.Packet };

    ghost decided: { List ℕ → Answer (ump.Kind × ℕ) };

    // What a payload byte is below.
    const LIMIT: u32;

    // The kind and the payload size of the packet in the first words.
    fn decide(words: &[u32]) -> Result<(Kind, usize), Refusal>
        requires { Self.shape.words ≤ length words.now }
        ensures decision { said decision_of result ≡ decided words.now }
        ensures small { IfOk result (λ d. d.1 ≤ Self.shape.room) };

    ghost limit_is: { LIMIT ≡ Self.shape.limit };

    ghost reads_framed: { (words : List ℕ) → framed Self.shape words (decided words) ≡ reads words };
}

// What the count and then the status say: the size is the count less the bias; Count for a count out of range.
pub(crate) fn counted<F: Format>(status: u8, count: usize) -> Result<(Kind, usize), Refusal>
    ensures decision { said decision_of result ≡ counted F.shape status count }
    ensures small { IfOk result (λ d. d.1 ≤ F.shape.room) }
{
    match count.checked_sub(F::BIAS) {
        Some(size) if size <= F::ROOM => Ok((Kind::try_from(status)?, size)),
        _ => Err(Refusal::Count),
    }
}

// The kind and the payload size of the packet in the first words: Short, Type, and then what is decided.
pub(crate) fn read<F: Single>(words: &[u32]) -> Result<(Kind, usize), Fault>
    ensures packet { packet_from F.shape words.now (map_answer decision_of (answer_of result)) ≡ F.reads words.now }
    ensures has { IfOk result (λ d. (F.shape.words ≤ length words.now) × (d.1 ≤ F.shape.room)) }
{
    if words.len() < F::WORDS {
        return Err(Refusal::Short.into());
    }
    if layout::type_of(words[0]) != F::TYPE {
        return Err(Refusal::Type.into());
    }
    Ok(F::decide(words)?)
}

// Payload byte `index` of the packet: the reader's refusals, then Range.
pub(crate) fn byte<F: Single>(words: &[u32], index: usize) -> Result<u8, Fault>
    ensures { answer_of result ≡ packet_byte F.shape (F.reads words.now) words.now index }
{
    let (_, size) = read::<F>(words)?;
    if index >= size {
        return Err(Refusal::Range.into());
    }
    let place = index + 2 + F::IDS;
    Ok((layout::octet_of(words[place / 4], place) as u32 % F::LIMIT) as u8)
}

// Sets the group of the packet: the reader's refusals, then Field.
pub(crate) fn set_group<F: Single>(words: &mut [u32], group: u8) -> Result<(), Fault>
    ensures { (answer_of result, words.new) ≡ set_packet_group (F.reads words.old) words.old group }
{
    read::<F>(words)?;
    if group > 15 {
        return Err(Refusal::Field.into());
    }
    words[0] = layout::with_group(words[0], group);
    Ok(())
}
