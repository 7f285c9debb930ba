// The call's answer, compared; and the messages of the samples, group 2, stream id 7.

// 27 bytes.
pub const BYTES: [u8; 27] = [
    0x01u8, 0x02, 0x03, 0x04, 0x05, 0x06, 0x07, 0x08, 0x09, 0x0A, 0x0B, 0x0C, 0x0D, 0x0E, 0x0F,
    0x10, 0x11, 0x12, 0x13, 0x14, 0x15, 0x16, 0x17, 0x18, 0x19, 0x1A, 0x1B,
];

// They in the fewest packets: 13, 13 and 1.
pub const FULL: [u32; 12] = [
    0x521E_0701u32,
    0x0203_0405,
    0x0607_0809,
    0x0A0B_0C0D,
    0x522E_070E,
    0x0F10_1112,
    0x1314_1516,
    0x1718_191A,
    0x5232_071B,
    0,
    0,
    0,
];

// And in four packets: 13, none, 1 and 13; what fills them up is not zero.
pub const FILLED: [u32; 16] = [
    0x521E_0701u32,
    0x0203_0405,
    0x0607_0809,
    0x0A0B_0C0D,
    0x5221_07EE,
    0xEEEE_EEEE,
    0xEEEE_EEEE,
    0xEEEE_EEEE,
    0x5222_070E,
    0xEEEE_EEEE,
    0xEEEE_EEEE,
    0xEEEE_EEEE,
    0x523E_070F,
    0x1011_1213,
    0x1415_1617,
    0x1819_1A1B,
];

// A yes.
pub fn yes(words: &[u32], payload: &[u8], group: u8, id: u8) -> bool {
    carries::carries(words, words.len(), payload, group, id).is_ok()
}

// A no with this number and place, of a message in the first `length` words.
pub fn no_of(
    words: &[u32],
    length: usize,
    payload: &[u8],
    group: u8,
    id: u8,
    number: u8,
    place: usize,
) -> bool {
    let answer = carries::carries(words, length, payload, group, id);
    answer.is_err_and(|fault| compare::is_fault(fault, number, place))
}

// Something else is carried than this payload with group 2 and stream id 7; at this place.
pub fn other(words: &[u32], payload: &[u8], place: usize) -> bool {
    no_of(words, words.len(), payload, 2, 7, 26, place)
}
