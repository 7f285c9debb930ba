// The lines of a listing, written into a text.
ghost use Rattle.std.specs.Prelude.{◌≡◌, ◌+◌, ◌*◌, ◌/◌, ◌≤◌, ◌<◌, [], ◌++◌, length};
ghost use Rattle.refusal.specs.Number.{number_of};
ghost use Rattle.packet.specs.Meaning.{kind_meaning};
ghost use Rattle.listing.specs.Listing.{status_name, packet_line, packet_lines, two_numbers, refusal_line, message_text};
ghost use Rattle.listing.specs.Steps.{Passed, status_of, line_of};

use crate::text::Text;
use packet::Kind;
use packet::sysex8::Packet;
use refusal::Fault;

// The name of a status, and a space; status 3 is always `end`.
#[tactic(auto, unfolding(crate::specs::Listing::status_name))]
fn status_name(kind: Kind) -> &'static [u8]
    ensures { result.now ≡ status_name (status_of (kind_meaning kind)) }
{
    match kind {
        Kind::Complete => b"complete ",
        Kind::Start => b"start ",
        Kind::Continue => b"continue ",
        Kind::End => b"end ",
        Kind::UnexpectedEnd(_) => b"end ",
    }
}

// Writes the line of a packet: word index, group, status, payload bytes, stream id.
#[tactic(auto, using(std::proofs::Common::append_assoc), unfolding(crate::specs::Listing::line))]
fn put_line<const ROOM: usize>(text: &mut Text<ROOM>, index: usize, packet: Packet)
    requires { length text.old + length (line_of index packet) ≤ ROOM }
    ensures { text.new ≡ text.old ++ line_of index packet }
{
    text.put_number(index, b' ');
    text.put_number(packet.group as usize, b' ');
    text.put(status_name(packet.kind));
    text.put_number(packet.size, b' ');
    text.put_id(packet.id);
}

// Writes a line of two words, each with its number.
#[tactic(auto, using(std::proofs::Common::append_assoc), unfolding(crate::specs::Listing::two_numbers))]
fn put_numbers<const ROOM: usize>(
    text: &mut Text<ROOM>,
    first: &[u8],
    left: usize,
    second: &[u8],
    right: usize,
)
    requires { length text.old + length (two_numbers first.now left second.now right) ≤ ROOM }
    ensures { text.new ≡ text.old ++ two_numbers first.now left second.now right }
{
    text.put(first);
    text.put_number(left, b' ');
    text.put(second);
    text.put_number(right, b'\n');
}

// Writes the line of a refusal.
pub(crate) fn put_fault<const ROOM: usize>(text: &mut Text<ROOM>, fault: Fault)
    requires { length text.old + 64 ≤ ROOM }
    ensures { text.new ≡ text.old ++ refusal_line (number_of fault.refusal) fault.place }
{
    let number = refusal::number(fault.refusal) as usize;
    put_numbers(text, b"refused ", number, b"at ", fault.place);
}

// Writes the line of packet `number` of a message that passed the check, and so has no packet that is refused alone; such a packet would
// have the line of its refusal.
fn put_packet<const ROOM: usize>(text: &mut Text<ROOM>, words: &[u32], number: usize)
    requires { (Passed words.now) × (number < length words.now / 4) × (length text.old + 24 ≤ ROOM) }
    ensures { text.new ≡ text.old ++ packet_line words.now number }
{
    let index = 4 * number;
    let read = packet::sysex8::read_packet(&words[index..]);
    let Ok(packet) = read else {
        return put_fault(text, read.unwrap_err());
    };
    put_line(text, index, packet);
}

// Writes a line for each packet of a message that passed the check.
fn put_packets<const ROOM: usize>(text: &mut Text<ROOM>, words: &[u32])
    requires { (Passed words.now) × (length text.old + 24 * (length words.now / 4) ≤ ROOM) }
    ensures { text.new ≡ text.old ++ packet_lines words.now }
{
    for number in 0..words.len() / 4 {
        put_packet(text, words, number);
    }
}

// Writes the heading, a line for each packet, and the totals, of a message that passed the check.
pub(crate) fn put_message<const ROOM: usize>(text: &mut Text<ROOM>, words: &[u32], size: usize)
    requires { (Passed words.now) × (length text.old + 98560 ≤ ROOM) }
    ensures { text.new ≡ text.old ++ message_text words.now size }
{
    text.put(b"at group status count id\n");
    put_packets(text, words);
    put_numbers(text, b"payload ", size, b"words ", words.len());
}
