// The most words that are lent: 16,384, so that a part has 1,024; one more is Long.
use equality::words::same_words;
use ports::Received;
use refusal::{Fault, Refusal};

// A packet is refused so, and leaves a table of sevens.
fn refuses(
    words: &mut [u32],
    port: u8,
    packet: &[u32],
    output: &mut [u32],
    refusal: Refusal,
) -> bool {
    let mut table = [7u32; 32];
    let received = ports::receive(&mut table, words, port, packet, output);
    received == Err(refusal.into()) && same_words(&table, &[7; 32])
}

// 16,385 words for the streams: a complete packet; no packet, at port 2, so that Long comes first.
pub fn long_words() -> bool {
    let mut words = [8u32; 16385];
    let mut output = [9u32; 4];
    refuses(
        &mut words,
        0,
        &[0x500E_0901, 2, 3, 4],
        &mut output,
        Refusal::Long,
    ) && refuses(&mut words, 2, &[], &mut output, Refusal::Long)
        && same_words(&words, &[8; 16385])
}

// The same with 16,385 words of output.
pub fn long_output() -> bool {
    let mut words = [8u32; 128];
    let mut output = [9u32; 16385];
    refuses(
        &mut words,
        0,
        &[0x500E_0901, 2, 3, 4],
        &mut output,
        Refusal::Long,
    ) && refuses(&mut words, 2, &[], &mut output, Refusal::Long)
        && same_words(&output, &[9; 16385])
}

// 16,384 of both are not Long: the reader's refusal, Port.
pub fn not_long() -> bool {
    let mut words = [8u32; 16384];
    let mut output = [9u32; 16384];
    refuses(&mut words, 2, &[], &mut output, Refusal::Short)
        && refuses(
            &mut words,
            2,
            &[0x500E_0901, 2, 3, 4],
            &mut output,
            Refusal::Port,
        )
}

// A packet of the longest message: the first is a start, the one at 256 an end.
fn packet(index: u32) -> [u32; 4] {
    let head = match index {
        0 => 0x5F1E_FF41,
        256 => 0x5F3E_FF41,
        _ => 0x5F2E_FF41,
    };
    [head, index, index ^ 0xFFFF_FFFF, index ^ 0x0F0F_0F0F]
}

// Port 1 receives a packet of it.
fn receive(
    table: &mut [u32; 32],
    words: &mut [u32],
    index: u32,
    output: &mut [u32],
) -> Result<Received, Fault> {
    ports::receive(table, words, 1, &packet(index), output)
}

// The first 256 packets of it are kept.
fn keeps_all(table: &mut [u32; 32], words: &mut [u32]) -> bool {
    for index in 0..256 {
        if receive(table, words, index, &mut []) != Ok(Received::Kept) {
            return false;
        }
    }
    true
}

// The first 257 packets of the output are the message.
fn has_message(output: &[u32]) -> bool {
    for (index, found) in (0..257).zip(output.chunks_exact(4)) {
        if found != packet(index).as_slice() {
            return false;
        }
    }
    output.len() >= 1028
}

// The last of 16 parts of 1,024 words is filled, and handed out with its end; the other slots are in use.
pub fn longest() -> bool {
    let mut table = [0x3_0000u32; 32];
    let mut words = [8u32; 16384];
    let mut output = [9u32; 16384];
    table[15] = 0;
    keeps_all(&mut table, &mut words)
        && receive(&mut table, &mut words, 1, &mut output) == Err(Refusal::Room.into())
        && receive(&mut table, &mut words, 256, &mut output) == Ok(Received::HandedOut(1028))
        && has_message(&output)
        && same_words(&output[1028..], &[9; 15356])
}
