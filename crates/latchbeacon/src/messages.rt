// The exported calls on messages: the check, payload bytes, what another sender wrote, and the setters. Those of the two message types stay apart: C has a name for each.
ghost use Rattle.std.specs.Prelude.{◌≡◌, [], ◌∷◌};
ghost use Rattle.ump.specs.Packet.{sysex8, sysex7};
ghost use Rattle.ump.specs.Check.{checked};
ghost use Rattle.ump.specs.Setters.{get_byte, copy_payload, set_group, set_id, set_byte};
ghost use Rattle.carries.specs.Carries.{carries};
ghost use Rattle.answers.specs.Answers.{number_answer, done_answer, message_answer, leaving};

use answers::{MessageAnswer, NumberAnswer};

// Checks the SysEx8 message in the first `length` of the words lent; refusals 1 to 12.
#[unsafe(no_mangle)]
pub extern "C" fn latchbeacon_sysex8_check(words: &[u32], length: usize) -> MessageAnswer
    ensures { result ≡ message_answer (checked sysex8 words.now length) }
{
    answers::answer(message::sysex8::check(words, length))
}

// Checks the SysEx7 message in the first `length` of the words lent; refusals 1 to 11.
#[unsafe(no_mangle)]
pub extern "C" fn latchbeacon_sysex7_check(words: &[u32], length: usize) -> MessageAnswer
    ensures { result ≡ message_answer (checked sysex7 words.now length) }
{
    answers::answer(message::sysex7::check(words, length))
}

// Payload byte `index` of the message; the check's refusals, then Range.
#[unsafe(no_mangle)]
pub extern "C" fn latchbeacon_sysex8_byte(
    words: &[u32],
    length: usize,
    index: usize,
) -> NumberAnswer
    ensures { result ≡ number_answer (get_byte sysex8 words.now length index) }
{
    answers::answer(message::sysex8::byte(words, length, index))
}

// Copies the payload to the bytes lent and answers its size; the check's refusals, then Room.
#[unsafe(no_mangle)]
pub extern "C" fn latchbeacon_sysex8_payload(
    words: &[u32],
    length: usize,
    bytes: &mut [u8],
) -> NumberAnswer
    ensures { (result, bytes.new) ≡ leaving number_answer (copy_payload sysex8 words.now length bytes.old) }
{
    answers::answer(message::sysex8::payload(words, length, bytes))
}

// Whether the message, in any packing, carries this payload with this group and stream id; the check's refusals, then Field, Other.
#[unsafe(no_mangle)]
pub extern "C" fn latchbeacon_sysex8_carries(
    words: &[u32],
    length: usize,
    payload: &[u8],
    group: u8,
    id: u8,
) -> NumberAnswer
    ensures { result ≡ done_answer (carries sysex8 words.now length payload.now group (id ∷ [])) }
{
    answers::answer(carries::carries(words, length, payload, group, id))
}

// Sets the group of the message; the check's refusals, then Field.
#[unsafe(no_mangle)]
pub extern "C" fn latchbeacon_sysex8_set_group(
    words: &mut [u32],
    length: usize,
    group: u8,
) -> NumberAnswer
    ensures { (result, words.new) ≡ leaving done_answer (set_group sysex8 words.old length group) }
{
    answers::answer(message::sysex8::set_group(words, length, group))
}

// Sets the stream id of the message; the check's refusals.
#[unsafe(no_mangle)]
pub extern "C" fn latchbeacon_sysex8_set_stream_id(
    words: &mut [u32],
    length: usize,
    id: u8,
) -> NumberAnswer
    ensures { (result, words.new) ≡ leaving done_answer (set_id words.old length id) }
{
    answers::answer(message::sysex8::set_stream_id(words, length, id))
}

// Sets payload byte `index` of the message; the check's refusals, then Range.
#[unsafe(no_mangle)]
pub extern "C" fn latchbeacon_sysex8_set_byte(
    words: &mut [u32],
    length: usize,
    index: usize,
    value: u8,
) -> NumberAnswer
    ensures { (result, words.new) ≡ leaving done_answer (set_byte sysex8 words.old length index value) }
{
    answers::answer(message::sysex8::set_byte(words, length, index, value))
}
