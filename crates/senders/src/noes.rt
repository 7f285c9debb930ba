// Messages that carry something else.
use crate::answer::{BYTES, FILLED, FULL, no_of, other};

// The 27 bytes with another one at `index`, asked for of a message.
fn with_other(words: &[u32], index: usize, place: usize) -> bool {
    let mut bytes = BYTES;
    let Some(byte) = bytes.get_mut(index) else {
        return false;
    };
    *byte = 0xFF;
    other(words, &bytes, place)
}

// The first byte of a packet, each word's first and last, the last: the packet's word index.
pub fn wrong_byte() -> bool {
    let places = [(0, 0), (1, 0), (8, 0), (12, 0), (13, 4), (25, 4), (26, 8)];
    places
        .iter()
        .all(|(index, place)| with_other(&FULL, *index, *place))
}

// The same where packets have 13, none, 1 and 13 bytes.
pub fn behind_empty() -> bool {
    let places = [(12, 0), (13, 8), (14, 12), (26, 12)];
    places
        .iter()
        .all(|(index, place)| with_other(&FILLED, *index, *place))
}

// Only the sizes differ: 0; a byte that differs in the common length is named first.
pub fn sizes() -> bool {
    let mut fourteen = FULL;
    fourteen[4] = 0x5232_070E;
    let mut thirteen = FULL;
    thirteen[4] = 0x5232_0700;
    other(&FULL, &BYTES[..26], 0)
        && other(&FULL, &[], 0)
        && other(&[0x5201_0700, 0, 0, 0], &BYTES[..1], 0)
        && other(&FULL[..12], &BYTES[..13], 0)
        && other(&fourteen[..8], &BYTES, 0)
        && other(&thirteen[..8], &BYTES, 4)
        && other(&thirteen[..8], &[0xFF], 0)
}

// Another group, another stream id, both: 0, whatever the payload.
pub fn heads() -> bool {
    no_of(&FULL, 12, &BYTES, 3, 7, 26, 0)
        && no_of(&FULL, 12, &BYTES, 2, 8, 26, 0)
        && no_of(&FULL, 12, &BYTES, 3, 8, 26, 0)
        && no_of(&FULL, 12, &BYTES, 7, 2, 26, 0)
}

// Group and stream id are said before the payload: 0, not the packet of the byte.
pub fn order() -> bool {
    let mut bytes = BYTES;
    bytes[26] = 0;
    no_of(&FULL, 12, &bytes, 3, 7, 26, 0)
        && no_of(&FULL, 12, &bytes, 2, 8, 26, 0)
        && no_of(&FULL, 12, &bytes, 2, 7, 26, 8)
}
