// Samples of one byte of a list of edits of a payload.

// Five bytes, and the edits 0..1 by two bytes, nothing at 2, 2..4 by one: B0 B1 A1 B2 A4.
const FIVE: [u8; 5] = [0xA0u8, 0xA1, 0xA2, 0xA3, 0xA4];

const NUMBERS: [usize; 9] = [0usize, 1, 2, 2, 2, 0, 2, 4, 1];

const BYTES: [u8; 3] = [0xB0u8, 0xB1, 0xB2];

// The byte at a position of the five bytes with these edits.
fn gives(numbers: &[usize], bytes: &[u8], position: usize, value: u8) -> bool {
    compare::is_byte(look::byte(&FIVE, numbers, bytes, position), value)
}

// It is refused with this number.
fn refuses(numbers: &[usize], bytes: &[u8], position: usize, number: u8) -> bool {
    let read = look::byte(&FIVE, numbers, bytes, position);
    read.is_err_and(|fault| compare::is_fault(fault, number, 0))
}

// Each byte of the result, and the positions behind it.
pub fn each() -> bool {
    let result = [0xB0u8, 0xB1, 0xA1, 0xB2, 0xA4];
    let each = |(position, value): (usize, &u8)| gives(&NUMBERS, &BYTES, position, *value);
    result.iter().enumerate().all(each)
        && refuses(&NUMBERS, &BYTES, 5, 13)
        && refuses(&NUMBERS, &BYTES, usize::MAX, 13)
}

// No edits: the payload's byte; the whole replaced.
pub fn no_edits() -> bool {
    gives(&[], &[], 4, 0xA4)
        && refuses(&[], &[], 5, 13)
        && gives(&[0, 5, 3], &BYTES, 2, 0xB2)
        && refuses(&[0, 5, 3], &BYTES, 3, 13)
}

// Two empty edits at one place, in their order.
pub fn one_place() -> bool {
    let samples = [(1, 0xA1), (2, 0xB0), (3, 0xB1), (5, 0xA2)];
    let two = [2usize, 2, 1, 2, 2, 2];
    samples
        .iter()
        .all(|(position, value)| gives(&two, &BYTES, *position, *value))
}

// Numbers that are no whole edits, an edit that is reversed, past the payload or too large, bytes that are not the sum; edits out of order;
// Range before Overlap, and Overlap before Range for the position.
pub fn refused() -> bool {
    refuses(&[0, 1], &[], 0, 13)
        && refuses(&[3, 1, 0], &[], 0, 13)
        && refuses(&[1, 6, 0], &[], 0, 13)
        && refuses(&[0, 0, usize::MAX], &BYTES, 0, 13)
        && refuses(&NUMBERS, &[0xB0, 0xB1], 0, 13)
        && refuses(&NUMBERS, &[0xB0, 0xB1, 0xB2, 0xB3], 0, 13)
        && refuses(&[2, 4, 0, 0, 1, 0], &[], 9, 20)
        && refuses(&[2, 4, 0, 0, 6, 0], &[], 9, 13)
}
