// Stores of many records: for each form of a store the byte at an index of it.

// A whole dump without data, in group 0, with stream id 0.
fn whole(number: usize) -> [u8; 5] {
    let [high, low] = ((number % 65536) as u16).to_be_bytes();
    [0x01, high, low, 0, 0]
}

// A delta without edits.
fn delta(number: usize, base: usize) -> [u8; 5] {
    let [_, high, low, _, _] = whole(number);
    let [_, base_high, base_low, _, _] = whole(base);
    [0x02, high, low, base_high, base_low]
}

// A dump in a chain: a whole one of six bytes, all 0, or a delta of the number below, with an edit of 0..0 by its own number's lower byte.
fn link(number: usize) -> [u8; 12] {
    if number == 0 {
        return [0x01, 0, 0, 0, 0, 0x86, 0, 0, 0, 0, 0, 0];
    }
    let [kind, high, low, base_high, base_low] = delta(number, number - 1);
    [
        kind, high, low, base_high, base_low, 0x03, 0, 0, 0, 0, 0x81, low,
    ]
}

// A dump in a star: a whole one, or a delta of it.
fn ray(number: usize) -> [u8; 5] {
    if number == 0 {
        whole(0)
    } else {
        delta(number, 0)
    }
}

// These bytes, and full data records behind them, whose data counts up.
fn data_behind(front: &[u8], index: usize) -> u8 {
    match front.get(index) {
        Some(byte) => *byte,
        None => {
            let at = index - front.len();
            if at % 14 == 0 { 0x8D } else { (at % 256) as u8 }
        }
    }
}

// Whole dumps, numbered from 0.
pub fn wholes(index: usize) -> u8 {
    whole(index / 5)[index % 5]
}

// Whole dumps, numbered from 0 to 255 and again.
pub fn wholes_again(index: usize) -> u8 {
    whole(index / 5 % 256)[index % 5]
}

// Deltas of the next number, 255 of 0.
pub fn ring(index: usize) -> u8 {
    delta(index / 5, (index / 5 + 1) % 256)[index % 5]
}

// Deltas numbered from 1, each of the number below.
pub fn falling(index: usize) -> u8 {
    delta(index / 5 + 1, index / 5)[index % 5]
}

// A chain from number 0 up.
pub fn chain(index: usize) -> u8 {
    link(index / 12)[index % 12]
}

// A chain from a number down to 0.
pub fn chain_down(top: usize, index: usize) -> u8 {
    match top.checked_sub(index / 12) {
        Some(number) => link(number)[index % 12],
        None => 0,
    }
}

// A chain from number 0 up, whose dumps below a number are unwanted.
pub fn chain_unwanted(below: usize, index: usize) -> u8 {
    let byte = chain(index);
    if index % 12 == 0 && index / 12 < below {
        byte | 0x10
    } else {
        byte
    }
}

// A star of deltas of 0, numbered from 1.
pub fn star(index: usize) -> u8 {
    ray(index / 5)[index % 5]
}

// A star of deltas of 0 with even numbers alone.
pub fn star_of_evens(index: usize) -> u8 {
    ray(index / 5 * 2)[index % 5]
}

// A whole dump 1 of full data records.
pub fn data(index: usize) -> u8 {
    data_behind(b"\x01\x00\x01\x00\x00", index)
}

// A whole dump 1, and a delta 2 of it that puts full data records in at 0.
pub fn edit_data(index: usize) -> u8 {
    data_behind(
        b"\x01\x00\x01\x00\x00\x02\x00\x02\x00\x01\x03\x00\x00\x00\x00",
        index,
    )
}
