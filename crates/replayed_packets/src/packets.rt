// Single packets, read with their payload.
use crate::answer::{Answer, Stop};
use packet::{Earlier, Kind};
use refusal::Fault;

// What a packet is: its status, or 4 and 5 for an unexpected end whose earlier data is valid or invalid.
fn kind_number(kind: Kind) -> usize {
    match kind {
        Kind::Complete => 0,
        Kind::Start => 1,
        Kind::Continue => 2,
        Kind::End => 3,
        Kind::UnexpectedEnd(Earlier::Valid) => 4,
        Kind::UnexpectedEnd(Earlier::Invalid) => 5,
    }
}

// A packet's kind, group, stream id, payload size, and the payload.
fn numbers<F: Fn(usize) -> Result<u8, Fault>>(
    head: (Kind, u8, u8),
    size: usize,
    answer: &mut Answer<'_>,
    byte: F,
) -> Result<(), Stop>
    requires { F.IsAlwaysCallable byte }
{
    let (kind, group, id) = head;
    answer.say(&[
        0,
        kind_number(kind),
        usize::from(group),
        usize::from(id),
        size,
    ]);
    for index in 0..size {
        answer.put(usize::from(byte(index)?));
    }
    Ok(())
}

// Reads a SysEx8 packet.
pub(crate) fn read_sysex8(words: &[u32], answer: &mut Answer<'_>) -> Result<(), Stop> {
    let packet = packet::sysex8::read_packet(words)?;
    let head = (packet.kind, packet.group, packet.id);
    numbers(
        head,
        packet.size,
        answer,
        |index| packet::sysex8::byte(words, index),
    )
}

// Reads a SysEx7 packet, which has no stream id: 0.
pub(crate) fn read_sysex7(words: &[u32], answer: &mut Answer<'_>) -> Result<(), Stop> {
    let packet = packet::sysex7::read_packet(words)?;
    let head = (packet.kind, packet.group, 0);
    numbers(
        head,
        packet.size,
        answer,
        |index| packet::sysex7::byte(words, index),
    )
}
