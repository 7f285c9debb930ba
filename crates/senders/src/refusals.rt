// Words that are no message, and a group above 15.
use crate::answer::{BYTES, FULL, no_of};

// The words of the 27 bytes with another one, asked for.
fn changed(index: usize, word: u32, number: u8, place: usize) -> bool {
    let mut words = FULL;
    let Some(changed) = words.get_mut(index) else {
        return false;
    };
    *changed = word;
    no_of(&words, 12, &BYTES, 2, 7, number, place)
}

// Long, Length, Short, Ragged.
pub fn framed() -> bool {
    let words = [0u32; 16385];
    no_of(&words, 4, &BYTES, 2, 7, 1, 0)
        && no_of(&FULL, 13, &BYTES, 2, 7, 2, 0)
        && no_of(&FULL, 3, &BYTES, 2, 7, 3, 0)
        && no_of(&FULL, 10, &BYTES, 2, 7, 4, 0)
}

// Type, Complete, Begin, Continue, End, Count, Group, Stream.
pub fn packets() -> bool {
    changed(8, 0x4232_071B, 5, 8)
        && no_of(&FULL, 4, &BYTES, 2, 7, 6, 0)
        && changed(0, 0x522E_0701, 7, 0)
        && changed(4, 0x521E_070E, 8, 4)
        && changed(8, 0x5222_071B, 9, 8)
        && changed(4, 0x522F_070E, 10, 4)
        && changed(4, 0x532E_070E, 11, 4)
        && changed(8, 0x5232_081B, 12, 8)
}

// Field comes after the check and before Other.
pub fn field() -> bool {
    no_of(&FULL, 12, &BYTES, 16, 7, 16, 0)
        && no_of(&FULL, 12, &[], 255, 9, 16, 0)
        && no_of(&FULL, 4, &BYTES, 16, 7, 6, 0)
}
