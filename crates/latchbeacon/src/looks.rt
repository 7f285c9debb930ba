// The exported calls that look at an edited dump without restoring it.
ghost use Rattle.std.specs.Prelude.{◌≡◌};
ghost use Rattle.ump.specs.Packet.{sysex8};
ghost use Rattle.look.specs.Look.{find, byte_of, byte_of_message};
ghost use Rattle.answers.specs.Answers.{number_answer, run_answer};

use answers::{NumberAnswer, RunAnswer};
use edit::Edit;

// Where the longest run of bytes stands that starts at `position` of a payload of `size` bytes with one edit, whose replacement has
// `length` bytes; Range for the edit, then for the position. Nothing is read.
#[unsafe(no_mangle)]
pub extern "C" fn latchbeacon_look_run(
    size: usize,
    from: usize,
    to: usize,
    length: usize,
    position: usize,
) -> RunAnswer
    ensures { result ≡ run_answer (find size (record { from = from; to = to; length = length }) position) }
{
    answers::answer(look::find(size, Edit { from, to, length }, position))
}

// The byte at `position` of a payload with all edits of a list, lent as for all edits at once; Range, Overlap, then Range for the
// position. Nothing is written.
#[unsafe(no_mangle)]
pub extern "C" fn latchbeacon_look_byte(
    payload: &[u8],
    numbers: &[usize],
    bytes: &[u8],
    position: usize,
) -> NumberAnswer
    ensures { result ≡ number_answer (byte_of payload.now numbers.now bytes.now position) }
{
    answers::answer(look::byte(payload, numbers, bytes, position))
}

// The same of the payload of a message; the check's refusals, then Range, Overlap, then Range for the position.
#[unsafe(no_mangle)]
pub extern "C" fn latchbeacon_sysex8_look_byte(
    words: &[u32],
    length: usize,
    numbers: &[usize],
    bytes: &[u8],
    position: usize,
) -> NumberAnswer
    ensures { result
        ≡ number_answer (byte_of_message sysex8 words.now length numbers.now bytes.now position) }
{
    answers::answer(look::byte_of_message(words, length, numbers, bytes, position))
}
