// Samples of edits.
use compare::MESSAGE;
use edit::Edit;
use equality::words::same_words;
use refusal::Fault;
use splice::sysex8::splice;

// One edit is done to the words, the other is moved past it and done; the length of the message.
fn edit_both(
    words: &mut [u32],
    done: (Edit, &[u8]),
    pending: (Edit, &[u8]),
    done_first: bool,
) -> Result<usize, Fault> {
    let length = splice(words, 12, done.0.from, done.0.to, done.1)?.length;
    let range = edit::move_edit(done.0, pending.0, done_first)?;
    Ok(splice(words, length, range.from, range.to, pending.1)?.length)
}

// Both edits of P5's message, one moved past the other, come to four words, the message expected.
fn comes_to(
    done: (Edit, &[u8]),
    pending: (Edit, &[u8]),
    done_first: bool,
    expected: &[u32],
) -> bool {
    let mut words = MESSAGE;
    edit_both(&mut words, done, pending, done_first) == Ok(4) && same_words(&words, expected)
}

// P5's message with all edits of a list at once: four words are the message expected, with this growth.
fn comes_at_once(numbers: &[usize], bytes: &[u8], growth: i64, expected: &[u32]) -> bool {
    let mut words = MESSAGE;
    match edit::splice_all(&mut words, 12, numbers, bytes) {
        Ok(change) => {
            (change.length, change.growth) == (4, growth) && same_words(&words, expected)
        }
        Err(_) => false,
    }
}

// Edits 0..1 by B0 B1 and 2..3 by nothing: 510405B0 B1A10000 0 0 either way round, and at once.
pub(crate) fn p8() -> bool {
    let first = Edit {
        from: 0,
        to: 1,
        length: 2,
    };
    let second = Edit {
        from: 2,
        to: 3,
        length: 0,
    };
    let expected = [0x5104_05B0u32, 0xB1A1_0000, 0, 0, 0, 0, 0, 0, 0, 0, 0, 0];
    comes_to((first, b"\xB0\xB1"), (second, b""), true, &expected)
        && comes_to((second, b""), (first, b"\xB0\xB1"), false, &expected)
        && comes_at_once(&[0, 1, 2, 2, 3, 0], b"\xB0\xB1", 0, &expected)
}

// Two empty edits at 1, C0 then C1: 510605A0 C0C1A1A2 0 0 either way round, and at once.
pub(crate) fn p9() -> bool {
    let empty = Edit {
        from: 1,
        to: 1,
        length: 1,
    };
    let expected = [0x5106_05A0u32, 0xC0C1_A1A2, 0, 0, 0, 0, 0, 0, 0, 0, 0, 0];
    comes_to((empty, b"\xC0"), (empty, b"\xC1"), true, &expected)
        && comes_to((empty, b"\xC1"), (empty, b"\xC0"), false, &expected)
        && comes_at_once(&[1, 1, 1, 1, 1, 1], b"\xC0\xC1", 2, &expected)
}
