// Samples of SysEx8 messages.
use compare::{has_payload, is_message, is_refused};

// 50010000 0 0 0: empty.
pub(crate) fn p1() -> bool {
    let words = [0x5001_0000u32, 0, 0, 0];
    is_message(&words, 0, 0, 0)
}

// 52030741 42000000 0 0: group 2, id 07, payload 41 42.
pub(crate) fn p2() -> bool {
    let words = [0x5203_0741u32, 0x4200_0000, 0, 0];
    is_message(&words, 2, 7, 2) && has_payload(&words, b"\x41\x42")
}

// P4's first five words: 4.
pub(crate) fn five_words() -> bool {
    let words = [
        0x501E_0001u32,
        0x0203_0405,
        0x0607_0809,
        0x0A0B_0C0D,
        0x5031_0000,
    ];
    is_refused(&words, 4, 0)
}
