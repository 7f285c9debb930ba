// Samples of one byte of a list of edits of a message: P5's, with P9's edits, C0 and then C1 put in at 1: A0 C0 C1 A1 A2.
use compare::MESSAGE;

const NUMBERS: [usize; 6] = [1usize, 1, 1, 1, 1, 1];

const BYTES: [u8; 2] = [0xC0u8, 0xC1];

// The byte at a position.
fn gives(position: usize, value: u8) -> bool {
    compare::is_byte(
        look::byte_of_message(&MESSAGE, 12, &NUMBERS, &BYTES, position),
        value,
    )
}

// It is refused with this number and place.
fn refuses(
    length: usize,
    numbers: &[usize],
    bytes: &[u8],
    position: usize,
    number: u8,
    place: usize,
) -> bool {
    let read = look::byte_of_message(&MESSAGE, length, numbers, bytes, position);
    read.is_err_and(|fault| compare::is_fault(fault, number, place))
}

// Each byte of the result, and the position behind it.
pub fn each() -> bool {
    let result = [0xA0u8, 0xC0, 0xC1, 0xA1, 0xA2];
    result
        .iter()
        .enumerate()
        .all(|(position, value)| gives(position, *value))
        && refuses(12, &NUMBERS, &BYTES, 5, 13, 0)
}

// The check's refusals first, with their places; then Range, Overlap and Range for the position. No room is asked for.
pub fn refused() -> bool {
    let many = [7u8; 200];
    let put_in = look::byte_of_message(&MESSAGE, 12, &[3, 3, 200], &many, 202);
    refuses(13, &[0], &[], 9, 2, 0)
        && refuses(5, &[0], &[], 9, 4, 0)
        && refuses(8, &[0], &[], 9, 9, 4)
        && refuses(12, &[0], &[], 9, 13, 0)
        && refuses(12, &[1, 2, 0, 0, 1, 0], &[], 9, 20, 0)
        && compare::is_byte(put_in, 7)
}
