// Streams of two ports that interleave, on one table of 16 slots with an equal part of the lent words for each.
#![tactic(auto)]

ghost use Rattle.std.specs.Prelude.{◌≡◌, IfOk, false, ◌≤◌, ◌<◌, ◌++◌, length, take, drop};
ghost use Rattle.ump.specs.Limits.{most_words};
ghost use Rattle.ump.specs.Single.{start, continue, end, complete, unexpected_end};
ghost use Rattle.packet.specs.Meaning.{kind_meaning};
ghost use Rattle.ports.specs.Streams.{key_of};
ghost use Rattle.ports.specs.Table.{used_at, stored_at, empty_table, accept, receive};
ghost use Rattle.ports.specs.Meaning.{received_meaning};
ghost use Rattle.ports.specs.Steps.{found_slot, slot_meaning, slot_for, AcceptedAs, Accepts};

use packet::sysex8::Packet;
use packet::{Earlier, Kind};
use refusal::{Fault, Refusal};

// The answer of a call: the packet is kept in its stream; its stream is dropped; a message of so many words is handed out.
#[derive(Clone, Copy, Debug, PartialEq, Eq)]
pub enum Received {
    Kept,
    Dropped,
    HandedOut(usize),
}

// A packet that came at a port: the key of its stream, and its four words, as they are lent.
#[derive(Clone, Copy)]
struct Arrival<'a> {
    port: u8,
    key: u32,
    words: &'a [u32; 4],
}

impl<'a> Arrival<'a> {
    // A packet that was read, of at least four words.
    fn new(port: u8, read: Packet, packet: &'a [u32]) -> Arrival<'a>
        requires { 4 ≤ length packet.now }
        ensures { (result.port ≡ port) × (result.key ≡ key_of port read.group read.id) × (result.words.now ≡ take 4 packet.now) }
    {
        let key = (port as u32 + 1) * 0x1_0000 + read.group as u32 * 256 + read.id as u32;
        Arrival {
            port,
            key,
            words: packet.first_chunk().unwrap(),
        }
    }
}

// The open streams: the table of their slots, keys before lengths, and the words of their parts. Both are as C lends them.
#[derive(Drop)]
struct OpenStreams<'a> {
    table: &'a mut [u32; 32],
    words: &'a mut [u32],
}

// A table with no stream open.
pub fn clear(table: &mut [u32; 32])
    ensures { table.new ≡ empty_table }
{
    *table = [0; 32];
}

// The first slot with this key.
fn find(table: &[u32; 32], key: u32) -> Option<usize>
    ensures { result ≡ found_slot table.now key }
{
    table[..16].iter().position(|here| *here == key)
}

// The words in use of a slot's part.
fn used_of(table: &[u32; 32], part: usize, slot: usize) -> usize
    requires { slot < 16 }
    ensures { result ≡ used_at table.now part slot }
{
    (table[16 + slot] as usize).min(part)
}

// Copies words to the front of others.
// Word by word: the slices' own copy calls `memmove`, and of the C library the calls need `memset` alone (README).
fn copy_front(to: &mut [u32], from: &[u32])
    requires { length from.now ≤ length to.old }
    ensures { to.new ≡ from.now ++ drop (length from.now) to.old }
{
    for index in 0..from.len() {
        to[index] = from[index];
    }
}

// The slot of a start: its stream's, or the first free one; Share, Full. One walk over the slots.
fn slot_for(table: &[u32; 32], port: u8, key: u32) -> Result<usize, Refusal>
    ensures meaning { slot_meaning result ≡ slot_for table.now port key }
    ensures inside { IfOk result (λ slot. slot < 16) }
{
    let mut free = None;
    let mut held: usize = 0;
    for slot in 0..16 {
        let here = table[slot];
        if here == key {
            return Ok(slot);
        }
        free = free.or((here == 0).then_some(slot));
        if here / 0x1_0000 == port as u32 + 1 {
            held += 1;
        }
    }
    if 12 <= held {
        return Err(Refusal::Share);
    }
    free.ok_or(Refusal::Full)
}

impl OpenStreams<'_> {
    // A start: Share, Full, Room; its packet is the first of its part.
    fn begin(&mut self, arrival: Arrival<'_>) -> Result<Received, Fault>
        ensures { AcceptedAs start arrival.entry self.old result self.new }
    {
        let packet = arrival.words;
        let slot = slot_for(self.table, arrival.port, arrival.key)?;
        let part = self.words.len() / 16;
        if part < 4 {
            return Err(Refusal::Room.into());
        }
        self.table[slot] = arrival.key;
        self.table[16 + slot] = 4;
        let at = part * slot;
        self.words[at..at + 4].copy_from_slice(packet);
        Ok(Received::Kept)
    }

    // A continue: Closed, Room; its packet stands behind those of its part.
    fn append(&mut self, arrival: Arrival<'_>) -> Result<Received, Fault>
        requires { length self.old.words.now ≤ most_words }
        ensures { AcceptedAs continue arrival.entry self.old result self.new }
    {
        let packet = arrival.words;
        let slot = find(self.table, arrival.key).ok_or(Refusal::Closed)?;
        let part = self.words.len() / 16;
        let used = used_of(self.table, part, slot);
        if part < used + 4 {
            return Err(Refusal::Room.into());
        }
        self.table[16 + slot] = (used + 4) as u32;
        let at = part * slot + used;
        self.words[at..at + 4].copy_from_slice(packet);
        Ok(Received::Kept)
    }

    // The packets in a slot's part.
    fn stored(&self, slot: usize) -> &[u32]
        requires { slot < 16 }
        ensures { result.now ≡ stored_at self.now.table.now self.now.words.now slot }
    {
        let part = self.words.len() / 16;
        let at = part * slot;
        &self.words[at..at + used_of(self.table, part, slot)]
    }

    // An end: Closed, Room; the packets of its part and its own are handed out, and the slot is free.
    fn hand_out(&mut self, arrival: Arrival<'_>, output: &mut [u32]) -> Result<Received, Fault>
        ensures { Accepts end arrival.entry self.old output.old result self.new output.new }
    {
        let packet = arrival.words;
        let slot = find(self.table, arrival.key).ok_or(Refusal::Closed)?;
        let stored = self.stored(slot);
        let used = stored.len();
        if output.len() < used + 4 {
            return Err(Refusal::Room.into());
        }
        copy_front(output, stored);
        output[used..used + 4].copy_from_slice(packet);
        self.table[slot] = 0;
        Ok(Received::HandedOut(used + 4))
    }

    // An end with invalid earlier data: Closed; the slot is free.
    fn drop_stream(&mut self, arrival: Arrival<'_>) -> Result<Received, Fault>
        ensures { AcceptedAs (unexpected_end false) arrival.entry self.old result self.new }
    {
        let slot = find(self.table, arrival.key).ok_or(Refusal::Closed)?;
        self.table[slot] = 0;
        Ok(Received::Dropped)
    }

    // A complete packet: Room; it is handed out, and an open stream of its key is closed.
    fn pass_on(&mut self, arrival: Arrival<'_>, output: &mut [u32]) -> Result<Received, Fault>
        ensures { Accepts complete arrival.entry self.old output.old result self.new output.new }
    {
        let packet = arrival.words;
        if output.len() < 4 {
            return Err(Refusal::Room.into());
        }
        output[..4].copy_from_slice(packet);
        if let Some(slot) = find(self.table, arrival.key) {
            self.table[slot] = 0;
        }
        Ok(Received::HandedOut(4))
    }

    // A packet that came, by its kind.
    fn accept(
        &mut self,
        kind: Kind,
        arrival: Arrival<'_>,
        output: &mut [u32],
    ) -> Result<Received, Fault>
        requires { length self.old.words.now ≤ most_words }
        ensures { Accepts (kind_meaning kind) arrival.entry self.old output.old result self.new output.new }
    {
        match kind {
            Kind::Complete => self.pass_on(arrival, output),
            Kind::Start => self.begin(arrival),
            Kind::Continue => self.append(arrival),
            Kind::End => self.hand_out(arrival, output),
            Kind::UnexpectedEnd(Earlier::Valid) => self.hand_out(arrival, output),
            Kind::UnexpectedEnd(Earlier::Invalid) => self.drop_stream(arrival),
        }
    }
}

// Receives a packet at a port. Start and continue packets are kept in the lent words; an end packet hands its stream out to the output, a
// complete packet itself. Refuses in the order Long, the packet reader's, Port, Closed, Share, Full, Room, and leaves all that is lent.
pub fn receive(
    table: &mut [u32; 32],
    words: &mut [u32],
    port: u8,
    packet: &[u32],
    output: &mut [u32],
) -> Result<Received, Fault>
    ensures { (received_meaning result, (table.new, words.new, output.new))
        ≡ receive table.old words.old port packet.now output.old }
{
    if words.len() > layout::MOST_WORDS || output.len() > layout::MOST_WORDS {
        return Err(Refusal::Long.into());
    }
    let read = packet::sysex8::read_packet(packet)?;
    if port > 1 {
        return Err(Refusal::Port.into());
    }
    let mut streams = OpenStreams { table, words };
    streams.accept(read.kind, Arrival::new(port, read, packet), output)
}
