// Samples of clock bytes inside a dump.
use crate::plain::{refuses, writes};
use equality::words::same_words;
use refusal::Refusal;
use std::array;

// The most data bytes that 16,384 words hold, and the bytes of a stream that has so many, with a clock byte between all of them.
const FULL: usize = 49152;

const CLOCKED: usize = 2 * FULL + 1;

// F0 F8 01 FE 02 F7: one packet of two bytes; the word behind stays.
pub(crate) fn passed_over() -> bool {
    writes(
        b"\xF0\xF8\x01\xFE\x02\xF7",
        &mut [9; 3],
        2,
        &[0x3002_0102, 0, 9],
    )
}

// F0 F8 F7: one complete packet of count 0.
pub(crate) fn no_data() -> bool {
    writes(b"\xF0\xF8\xF7", &mut [9; 2], 2, &[0x3000_0000, 0])
}

// All eight real-time bytes, and the largest data byte.
pub(crate) fn all_eight() -> bool {
    writes(
        b"\xF0\xF8\xF9\xFA\xFB\x7F\xFC\xFD\xFE\xFF\xF7",
        &mut [9; 2],
        2,
        &[0x3001_7F00, 0],
    )
}

// F0 01 F7 02 F7: 18 at 2.
pub(crate) fn end_inside() -> bool {
    refuses(b"\xF0\x01\xF7\x02\xF7", Refusal::Byte, 2)
}

// F0 F8 F8 90 F7: 18 at 3.
pub(crate) fn high_byte() -> bool {
    refuses(b"\xF0\xF8\xF8\x90\xF7", Refusal::Byte, 3)
}

// F8 F0 F7: 17.
pub(crate) fn before() -> bool {
    refuses(b"\xF8\xF0\xF7", Refusal::Frame, 0)
}

// F0 F7 F8: 17.
pub(crate) fn behind() -> bool {
    refuses(b"\xF0\xF7\xF8", Refusal::Frame, 0)
}

// A byte of 80 to F7 comes before too little room.
pub(crate) fn byte_before_room() -> bool {
    refuses(
        b"\xF0\x01\x02\x03\xF8\x04\x05\x06\x07\x80\xF7",
        Refusal::Byte,
        9,
    )
}

// The byte at an index of a stream: at the ends F0 and F7, at odd indexes data that counts up, at even ones a clock byte.
fn clocked_byte(at: usize, last: usize) -> u8 {
    match at {
        0 => 0xF0,
        _ if at == last => 0xF7,
        _ if at % 2 == 0 => 0xF8,
        _ => (at / 2 % 0x80) as u8,
    }
}

// The byte at an index of a stream of a million clock bytes around three data bytes: at the ends F0 and F7.
fn rare_byte(at: usize) -> u8 {
    match at {
        0 => 0xF0,
        250_000 => 1,
        500_000 => 2,
        750_000 => 3,
        1_000_004 => 0xF7,
        _ => 0xF8,
    }
}

// The first two and the last two packets of 16,384 words are those of data that counts up.
fn has_ends(words: &[u32]) -> bool {
    words.len() == 16384
        && same_words(
            &words[..4],
            &[0x3016_0001, 0x0203_0405, 0x3026_0607, 0x0809_0A0B],
        )
        && same_words(
            &words[16380..],
            &[0x3026_7475, 0x7677_7879, 0x3036_7A7B, 0x7C7D_7E7F],
        )
}

// 49,152 data bytes with a clock byte between all of them fill 16,384 words.
pub(crate) fn full() -> bool {
    let bytes: [u8; CLOCKED] = array::from_fn(|at| clocked_byte(at, CLOCKED - 1));
    let mut words = [9; 16384];
    stream::to_sysex7(&bytes, 0, &mut words) == Ok(16384) && has_ends(&words)
}

// One data byte more: 14, and no word changes.
pub(crate) fn no_room() -> bool {
    let bytes: [u8; CLOCKED + 2] = array::from_fn(|at| clocked_byte(at, CLOCKED + 1));
    let mut words = [9; 16384];
    stream::to_sysex7(&bytes, 0, &mut words) == Err(Refusal::Room.into())
        && same_words(&words, &[9; 16384])
}

// A million clock bytes around three data bytes: one packet.
pub(crate) fn million() -> bool {
    let bytes: [u8; 1_000_005] = array::from_fn(rare_byte);
    writes(&bytes, &mut [9; 2], 2, &[0x3003_0102, 0x0300_0000])
}
