// Messages that get a yes.
use crate::answer::{BYTES, FILLED, FULL, yes};

// P5's message: two bytes, none, one.
pub fn uneven() -> bool {
    yes(&compare::MESSAGE, &[0xA0, 0xA1, 0xA2], 1, 5)
}

// No bytes in one packet, in two, in three.
pub fn empty() -> bool {
    yes(&[0x5001_0000, 0, 0, 0], &[], 0, 0)
        && yes(&[0x5F11_FF00, 0, 0, 0, 0x5F31_FF00, 0, 0, 0], &[], 15, 255)
        && yes(
            &[
                0x5011_0000,
                0,
                0,
                0,
                0x5021_0000,
                1,
                2,
                3,
                0x5031_0000,
                0,
                0,
                0,
            ],
            &[],
            0,
            0,
        )
}

// The sizes at which a packet ends: 1, 13, 14, 26, 27.
pub fn full() -> bool {
    let thirteen = [0x520E_0701u32, 0x0203_0405, 0x0607_0809, 0x0A0B_0C0D];
    let mut fourteen = FULL;
    fourteen[4] = 0x5232_070E;
    let mut two_full = FULL;
    two_full[4] = 0x523E_070E;
    yes(&[0x5202_0701, 0, 0, 0], &BYTES[..1], 2, 7)
        && yes(&thirteen, &BYTES[..13], 2, 7)
        && yes(&fourteen[..8], &BYTES[..14], 2, 7)
        && yes(&two_full[..8], &BYTES[..26], 2, 7)
        && yes(&FULL, &BYTES, 2, 7)
}

// An empty packet and packets of one byte, filled up with anything.
pub fn filled() -> bool {
    yes(&FILLED, &BYTES, 2, 7)
        && yes(
            &[
                0x5011_0041,
                0x4243_4445,
                0x4647_4849,
                0x4A4B_4C4D,
                0x5032_0001,
                0xFFFF_FFFF,
                0xFFFF_FFFF,
                0xFFFF_FFFF,
            ],
            &BYTES[..1],
            0,
            0,
        )
}

// What stands behind the message does not matter.
pub fn behind() -> bool {
    let mut words = [0xFFFF_FFFFu32; 16];
    words[0] = 0x5202_0701;
    carries::carries(&words, 4, &BYTES[..1], 2, 7).is_ok()
}
