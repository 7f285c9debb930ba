// The exported call that writes a byte stream.
ghost use Rattle.std.specs.Prelude.{◌≡◌};
ghost use Rattle.ump.specs.Stream.{to_sysex7};
ghost use Rattle.answers.specs.Answers.{number_answer, leaving};

use answers::NumberAnswer;

// Writes F0, data, F7 as SysEx7 packets, real-time bytes between F0 and F7 passed over, and answers their words; Long, Field, Frame, Byte,
// Room.
#[unsafe(no_mangle)]
pub extern "C" fn latchbeacon_bytes_to_sysex7(
    bytes: &[u8],
    group: u8,
    words: &mut [u32],
) -> NumberAnswer
    ensures { (result, words.new) ≡ leaving number_answer (to_sysex7 bytes.now group words.old) }
{
    answers::answer(stream::to_sysex7(bytes, group, words))
}
