// Samples of single packets.
use compare::{is_byte, is_packet7, is_packet8, is_refused7, is_refused8};

// End 503F0900 0 0 0 is unexpected, invalid; 503F0901 0 0 0 is refused 10; 50320900 0 0 0 is an end with one byte 00.
pub(crate) fn p10() -> bool {
    let end = [0x5032_0900, 0, 0, 0];
    is_packet8(&[0x503F_0900, 0, 0, 0], 5, 0, 9, 0)
        && is_refused8(&[0x503F_0901, 0, 0, 0], 10)
        && is_packet8(&end, 3, 0, 9, 1)
        && is_byte(packet::sysex8::byte(&end, 0), 0)
}

// 30F90000 0 is refused 10, 30F60000 0 is refused 15, 3002C142 0 reads 41 42.
pub(crate) fn p11() -> bool {
    let complete = [0x3002_C142, 0];
    is_refused7(&[0x30F9_0000, 0], 10)
        && is_refused7(&[0x30F6_0000, 0], 15)
        && is_packet7(&complete, 0, 0, 2)
        && is_byte(packet::sysex7::byte(&complete, 0), 0x41)
        && is_byte(packet::sysex7::byte(&complete, 1), 0x42)
}
