// Lines of recorded answers taken apart: KIND;WORDS;BYTES;NUMBERS;ANSWER, and ; with a text on the line of a listed difference.
// Numbers are upper-case hex, those of a list one space apart; an empty field is an empty list.
#![tactic(auto)]

ghost use Rattle.std.specs.Prelude.{◌≤◌, ◌<◌, length, IfSome};
ghost use Rattle.recorded_lines.specs.Fits.{RecordFits};

// The most words of a record.
pub const WORDS: usize = 512;

// The most bytes of a record.
pub const BYTES: usize = 1024;

// The most numbers of a record.
pub const NUMBERS: usize = 64;

// The most numbers of a recorded answer.
pub const ANSWER: usize = 2048;

// A record's kind, how many words, bytes, numbers and numbers of the answer it has, and whether it is of a listed difference.
#[derive(Clone, Copy, Debug, PartialEq, Eq)]
pub struct Record {
    pub kind: usize,
    pub words: usize,
    pub bytes: usize,
    pub numbers: usize,
    pub answer: usize,
    pub listed: bool,
}

// The largest number that a digit can be put to.
const MOST: usize = usize::MAX / 16;

// The value of an upper-case hex digit.
fn digit_of(byte: u8) -> Option<usize>
    ensures { IfSome result (λ digit. digit < 16) }
{
    match byte {
        b'0'..=b'9' => Some((byte - b'0') as usize),
        b'A'..=b'F' => Some((byte - b'A' + 10) as usize),
        _ => None,
    }
}

// The number of the digits that a text begins with, none or more, and what stands behind them. None where it does not fit.
fn first_number(text: &[u8]) -> Option<(usize, &[u8])> {
    let mut number = 0;
    for (at, byte) in text.iter().enumerate() {
        let Some(digit) = digit_of(*byte) else {
            return Some((number, &text[at..]));
        };
        if number > MOST {
            return None;
        }
        number = number * 16 + digit;
    }
    Some((number, &[]))
}

// Stores the numbers of the first field of a line, one space apart; answers how many, and what stands behind the field's ; if it has one.
// None where the field is no list of numbers, one does not fit, or they are too many.
fn store_numbers<'a, T: Copy + TryFrom<usize>>(
    line: &'a [u8],
    values: &mut [T],
) -> Option<(usize, Option<&'a [u8]>)>
where
    T::Error: Drop,
    ensures { IfSome result (λ read. read.0 ≤ length values.old) }
{
    let mut rest = match line {
        [] => return Some((0, None)),
        [b';', behind @ ..] => return Some((0, Some(behind))),
        _ => line,
    };
    for (at, value) in values.iter_mut().enumerate() {
        let (number, behind) = first_number(rest)?;
        if behind.len() == rest.len() {
            return None;
        }
        *value = T::try_from(number).ok()?;
        rest = match behind {
            [] => return Some((at + 1, None)),
            [b';', behind @ ..] => return Some((at + 1, Some(behind))),
            [b' ', behind @ ..] => behind,
            _ => return None,
        };
    }
    None // They are too many.
}

// Takes a line apart into these slices.
pub fn parse(
    line: &[u8],
    words: &mut [u32],
    bytes: &mut [u8],
    numbers: &mut [usize],
    expected: &mut [usize],
) -> Option<Record>
    ensures { RecordFits result (length words.old) (length bytes.old) (length numbers.old)
        (length expected.old) }
{
    let mut kind = [0];
    let (_, behind) = store_numbers(line, &mut kind)?;
    let (word_count, behind) = store_numbers(behind?, words)?;
    let (byte_count, behind) = store_numbers(behind?, bytes)?;
    let (number_count, behind) = store_numbers(behind?, numbers)?;
    let (answer_count, behind) = store_numbers(behind?, expected)?;
    Some(Record {
        kind: kind[0],
        words: word_count,
        bytes: byte_count,
        numbers: number_count,
        answer: answer_count,
        listed: behind.is_some(),
    })
}
