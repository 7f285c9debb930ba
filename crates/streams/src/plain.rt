// Samples of byte streams without real-time bytes, and what all samples use.
use equality::words::same_words;
use refusal::{Fault, Refusal};

// This stream in group 0 becomes so many words, and leaves the words expected.
pub(crate) fn writes(bytes: &[u8], words: &mut [u32], length: usize, expected: &[u32]) -> bool {
    stream::to_sysex7(bytes, 0, words) == Ok(length) && same_words(words, expected)
}

// This stream is refused so, and the words stay.
pub(crate) fn refuses(bytes: &[u8], refusal: Refusal, place: usize) -> bool {
    let mut words = [9, 9];
    stream::to_sysex7(bytes, 0, &mut words) == Err(Fault { refusal, place })
        && same_words(&words, &[9, 9])
}

// F0 01..07 F7, group 0: 30160102 03040506 30310700 0; the word behind stays.
pub(crate) fn p12() -> bool {
    writes(
        b"\xF0\x01\x02\x03\x04\x05\x06\x07\xF7",
        &mut [9; 5],
        4,
        &[0x3016_0102, 0x0304_0506, 0x3031_0700, 0, 9],
    )
}

// F0 F7: 30000000 0.
pub(crate) fn no_data() -> bool {
    writes(b"\xF0\xF7", &mut [9; 2], 2, &[0x3000_0000, 0])
}

// One byte F0: 17.
pub(crate) fn one_byte() -> bool {
    refuses(b"\xF0", Refusal::Frame, 0)
}

// F0 90 F7: 18 at 1.
pub(crate) fn high_byte() -> bool {
    refuses(b"\xF0\x90\xF7", Refusal::Byte, 1)
}
