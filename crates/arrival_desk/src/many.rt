// Four streams at once: those of a start packet's first word, and of the three stream ids next to it.
use crate::Desk;

// The first words of the starts of four streams.
fn four(start: u32) -> [u32; 4] {
    [start, start ^ 0x100, start ^ 0x200, start ^ 0x300]
}

impl Desk {
    // Opens four streams.
    pub fn start_four(&mut self, port: u8, start: u32) {
        for head in four(start) {
            self.keep(port, head);
        }
    }

    // Opens twelve streams of group 0: stream ids 0 to 11.
    pub fn start_twelve(&mut self, port: u8) {
        for start in [0x501E_0041, 0x501E_0441, 0x501E_0841] {
            self.start_four(port, start);
        }
    }

    // Opens 16 streams of group 0: 12 of port 0 and, with stream ids 0 to 3, 4 of port 1.
    pub fn start_sixteen(&mut self) {
        self.start_twelve(0);
        self.start_four(1, 0x501E_0041);
    }

    // Continues four streams, each with the data byte next to its start's.
    pub fn continue_four(&mut self, port: u8, start: u32) {
        for head in four(start) {
            self.keep(port, head ^ 0x0030_0003);
        }
    }

    // Ends the stream of a start: both packets are handed out.
    pub fn end_one(&mut self, port: u8, start: u32) {
        self.end(port, &[start], start ^ 0x0020_0002);
    }

    // Ends four streams.
    pub fn end_four(&mut self, port: u8, start: u32) {
        for head in four(start) {
            self.end_one(port, head);
        }
    }

    // Ends four streams that were continued: all three packets of each are handed out.
    pub fn end_continued_four(&mut self, port: u8, start: u32) {
        for head in four(start) {
            self.end(port, &[head, head ^ 0x0030_0003], head ^ 0x0020_0002);
        }
    }
}
