// Counts of lines: of each group of calls, of listed differences, of answers, of those that differ, and of all.
use crate::record::Compared;
use crate::reply::Call;
use replayed_messages::Kind as Message;
use replayed_packets::Kind as Packet;
use std::io;

// A group of calls, a row of the table.
#[derive(Clone, Copy, Debug, PartialEq, Eq)]
enum Group {
    Fields,
    Packets,
    Checks,
    Readers,
    Setters,
    Packings,
    Splices,
    Payloads,
    Streams,
    Sizes,
}

// The names of the groups.
const NAMES: [&str; 10] = [
    "word fields",
    "packets",
    "checks",
    "readers",
    "setters",
    "packings",
    "splices",
    "set payloads",
    "byte streams",
    "words needed",
];

impl From<Packet> for Group {
    fn from(kind: Packet) -> Group {
        match kind {
            Packet::Sysex8Packet | Packet::Sysex7Packet => Group::Packets,
            Packet::SetSysex8Group | Packet::SetSysex7Group => Group::Packets,
            _ => Group::Fields,
        }
    }
}

impl From<Message> for Group {
    fn from(kind: Message) -> Group {
        match kind {
            Message::Check | Message::CheckLent | Message::CheckMany => Group::Checks,
            Message::Read => Group::Readers,
            Message::SetGroup | Message::SetStreamId | Message::SetByte => Group::Setters,
            Message::Repack | Message::RepackLent => Group::Packings,
            Message::Splice | Message::SpliceLent => Group::Splices,
            Message::SetPayload | Message::SetPayloadLent => Group::Payloads,
            Message::ToSysex7 => Group::Streams,
            Message::WordsNeeded => Group::Sizes,
        }
    }
}

impl From<Call> for Group {
    fn from(call: Call) -> Group {
        match call {
            Call::Packet(kind) => Group::from(kind),
            Call::Message(kind) => Group::from(kind),
        }
    }
}

// The counts, none of which grows past 32 bits.
#[derive(Drop)]
pub(crate) struct Tally {
    groups: [u32; 10],
    listed: u32,
    answers: u32,
    differing: u32,
    lines: u32,
}

impl Tally {
    // No line.
    pub(crate) fn new() -> Tally {
        Tally {
            groups: [0; 10],
            listed: 0,
            answers: 0,
            differing: 0,
            lines: 0,
        }
    }

    // Counts a line.
    pub(crate) fn count_line(&mut self) {
        self.lines = self.lines.saturating_add(1);
    }

    // Counts the line read last among those that differ, and writes its number.
    fn count_differing(&mut self, rt: &impl Print, what: &str) -> io::Result<()> {
        self.differing = self.differing.saturating_add(1);
        let line = self.lines;
        println!(rt; "line {line} {what}")
    }

    // Counts the line read last as no record.
    pub(crate) fn count_wrong(&mut self, rt: &impl Print) -> io::Result<()> {
        self.count_differing(rt, "is not a record")
    }

    // Counts the record in the line read last.
    pub(crate) fn count_record(&mut self, rt: &impl Print, compared: Compared) -> io::Result<()> {
        let group = Group::from(compared.call) as usize;
        self.groups[group] = self.groups[group].saturating_add(1);
        self.answers = self.answers.saturating_add(1);
        if compared.listed {
            self.listed = self.listed.saturating_add(1);
        }
        if compared.same {
            Ok(())
        } else {
            self.count_differing(rt, "differs")
        }
    }

    // Writes the table, and the last line.
    pub(crate) fn write(&self, rt: &impl Print) -> io::Result<()> {
        for (name, count) in NAMES.iter().zip(&self.groups) {
            println!(rt; "{name} {count}")?;
        }
        let Tally {
            listed,
            answers,
            differing,
            ..
        } = self;
        println!(rt; "listed differences {listed}")?;
        println!(rt; "{answers} answers, {differing} differ")
    }
}
