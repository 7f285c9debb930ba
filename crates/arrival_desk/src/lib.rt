// A table with the words and the output that are lent with it, and calls on them (02, T-07) whose answers are compared: for the programs of
// samples.
#![tactic(auto)]

pub mod many;

use compare::{Numbered, refuses};
use equality::words::same_words;
use ports::Received;
use refusal::{Fault, Refusal};

// The table, the words and the output; how many of the words and of the output are lent; whether all answers and all words so far were as
// expected.
#[derive(Clone, Copy, PartialEq, Eq)]
pub struct Desk {
    pub table: [u32; 32],
    pub words: [u32; 128],
    pub output: [u32; 16],
    pub lent: usize,
    pub room: usize,
    pub right: bool,
}

// The packet with this first word: zeros behind a word that ends in 00, else three words that no other packet has.
pub fn packet(head: u32) -> [u32; 4] {
    if head % 256 == 0 {
        return [head, 0, 0, 0];
    }
    [
        head,
        head ^ 0xFFFF_FFFF,
        head ^ 0x0F0F_0F0F,
        head ^ 0x3333_3333,
    ]
}

impl Desk {
    // No stream is open; all 128 words, 8 for each stream, and all 16 words of the output are lent. What they hold stands for anything.
    pub fn new() -> Desk {
        let mut table = [7u32; 32];
        ports::clear(&mut table);
        Desk {
            table,
            words: [8; 128],
            output: [9; 16],
            lent: 128,
            room: 16,
            right: true,
        }
    }

    // One call with this packet.
    fn call(&mut self, port: u8, packet: &[u32]) -> Result<Received, Fault> {
        let mut after = *self;
        let words = &mut after.words[..self.lent.min(128)];
        let output = &mut after.output[..self.room.min(16)];
        let received = ports::receive(&mut after.table, words, port, packet, output);
        *self = after;
        received
    }

    // The table, the words and the output are those of before.
    fn has_stayed(&self, before: &Desk) -> bool {
        same_words(&self.table, &before.table)
            && same_words(&self.words, &before.words)
            && same_words(&self.output, &before.output)
    }

    // The packet is answered so, and the output is this one after the call.
    fn answers(&mut self, port: u8, packet: &[u32], answer: Received, output: [u32; 16]) {
        let received = self.call(port, packet);
        self.right &= received == Ok(answer) && same_words(&self.output, &output);
    }

    // The packet is kept, and the output stays.
    pub fn keep_words(&mut self, port: u8, packet: &[u32]) {
        self.answers(port, packet, Received::Kept, self.output);
    }

    // The same of the packet with this first word.
    pub fn keep(&mut self, port: u8, head: u32) {
        self.keep_words(port, &packet(head));
    }

    // The packet is refused so, and nothing changes.
    pub fn refuse_words(&mut self, port: u8, packet: &[u32], refusal: impl Numbered) {
        let before = *self;
        let received = self.call(port, packet);
        self.right &= refuses(&received, refusal.number(), 0) && self.has_stayed(&before);
    }

    // The same of the packet with this first word.
    pub fn refuse(&mut self, port: u8, head: u32, refusal: impl Numbered) {
        self.refuse_words(port, &packet(head), refusal);
    }

    // The stream of the packet with this first word is dropped, and the output stays.
    pub fn drop_stream(&mut self, port: u8, head: u32) {
        self.answers(port, &packet(head), Received::Dropped, self.output);
    }

    // The packet hands out so many words, and the output is this one after the call.
    pub fn hand_out(&mut self, port: u8, packet: &[u32], count: usize, expected: [u32; 16]) {
        self.answers(port, packet, Received::HandedOut(count), expected);
    }

    // The packet with this first word is handed out alone.
    pub fn complete(&mut self, port: u8, head: u32) {
        self.end(port, &[], head);
    }

    // The packet with the last of these first words hands out all of them.
    pub fn end(&mut self, port: u8, before: &[u32], last: u32) {
        let mut expected = self.output;
        let heads = before.iter().copied().chain([last]);
        for (part, head) in expected.chunks_exact_mut(4).zip(heads) {
            part.copy_from_slice(&packet(head));
        }
        self.hand_out(port, &packet(last), 4 * before.len() + 4, expected);
    }
}
