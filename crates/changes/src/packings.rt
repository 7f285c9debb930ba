// Samples of packing and splice.
use compare::MESSAGE;
use equality::words::same_words;
use refusal::{Fault, Refusal};
use splice::sysex8::{Change, words_needed as needed};

// Packing these words as one message answers this length and leaves the words expected.
fn packs(words: &mut [u32], new: usize, expected: &[u32]) -> bool {
    splice::sysex8::repack(words, words.len()) == Ok(new) && same_words(words, expected)
}

// 50110900 0 0 0 50310900 0 0 0 packs to 50010900 0 0 0.
pub(crate) fn p3() -> bool {
    let mut words = [0x5011_0900u32, 0, 0, 0, 0x5031_0900, 0, 0, 0];
    packs(&mut words, 4, &[0x5001_0900, 0, 0, 0, 0, 0, 0, 0])
}

// 501E0001 02030405 06070809 0A0B0C0D 50310000 0 0 0 packs to 500E0001 02030405 06070809 0A0B0C0D.
pub(crate) fn p4() -> bool {
    let mut words = [
        0x501E_0001u32,
        0x0203_0405,
        0x0607_0809,
        0x0A0B_0C0D,
        0x5031_0000,
        0,
        0,
        0,
    ];
    packs(
        &mut words,
        4,
        &[
            0x500E_0001,
            0x0203_0405,
            0x0607_0809,
            0x0A0B_0C0D,
            0,
            0,
            0,
            0,
        ],
    )
}

// 511305A0 A1000000 0 0 51210500 0 0 0 513205A2 0 0 0 packs to 510405A0 A1A20000 0 0.
pub(crate) fn p5() -> bool {
    let mut words = MESSAGE;
    packs(
        &mut words,
        4,
        &[0x5104_05A0, 0xA1A2_0000, 0, 0, 0, 0, 0, 0, 0, 0, 0, 0],
    )
}

// Two full packets of 13 and 13 bytes, in as many words as are needed: packing leaves them.
pub(crate) fn packed() -> bool {
    let mut words = [0x511E_0509u32, 9, 9, 9, 0x513E_0509, 9, 9, 9];
    packs(&mut words, 8, &[0x511E_0509, 9, 9, 9, 0x513E_0509, 9, 9, 9])
}

// P2 with 10..1C (13 bytes) put in at 1, in these words.
fn put_in(words: &mut [u32]) -> Result<Change, Fault> {
    splice::sysex8::splice(
        words,
        4,
        1,
        1,
        b"\x10\x11\x12\x13\x14\x15\x16\x17\x18\x19\x1A\x1B\x1C",
    )
}

// In eight words: 521E0741 10111213 14151617 18191A1B 5233071C 42000000 0 0, growth 13.
pub(crate) fn p6() -> bool {
    let mut words = [0x5203_0741u32, 0x4200_0000, 0, 0, 9, 9, 9, 9];
    let expected = [
        0x521E_0741,
        0x1011_1213,
        0x1415_1617,
        0x1819_1A1B,
        0x5233_071C,
        0x4200_0000,
        0,
        0,
    ];
    match put_in(&mut words) {
        Ok(change) => { (change.length, change.growth) == (8, 13) && same_words(&words, &expected) }
        Err(_) => false,
    }
}

// The same with 7 words lent: 14, and the words stay.
pub(crate) fn p7() -> bool {
    let before = [0x5203_0741u32, 0x4200_0000, 0, 0, 9, 9, 9];
    let mut words = before;
    put_in(&mut words) == Err(Refusal::Room.into()) && same_words(&words, &before)
}

// Words for 0, 13, 14, 26, 27 bytes: 4, 4, 8, 8, 12. A size is no more than 64 bits hold: where 12 more would be too many, and the largest.
pub(crate) fn words_needed() -> bool {
    needed(0) == 4
        && needed(13) == 4
        && needed(14) == 8
        && needed(26) == 8
        && needed(27) == 12
        && needed(0xFFFF_FFFF_FFFF_FFF4) == 5675921253449092804
        && needed(0xFFFF_FFFF_FFFF_FFFF) == 5675921253449092808
}

// 53,248 bytes fit 16,384 words, 53,249 never do.
pub(crate) fn most_bytes() -> bool {
    needed(53248) == 16384 && needed(53249) == 16388
}
