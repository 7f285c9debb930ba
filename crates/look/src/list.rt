// One byte of a dump with all edits of a list, without writing the result: the edits lent as numbers, their replacement bytes end to end.
ghost use Rattle.std.specs.Prelude.{◌≡◌};
ghost use Rattle.ump.specs.Packet.{sysex8};
ghost use Rattle.message.specs.Accepted.{Accepted};
ghost use Rattle.look.specs.Look.{byte_of, byte_of_message};
ghost use Rattle.refusal.specs.Meaning.{answer_of};

use edit::Placed;
use refusal::Fault;

// The byte at `position` of a payload with all edits of a list. Range for the edits or the number of bytes, Overlap, then Range for
// the position.
pub fn byte(payload: &[u8], numbers: &[usize], bytes: &[u8], position: usize) -> Result<u8, Fault>
    ensures { answer_of result ≡ byte_of payload.now numbers.now bytes.now position }
{
    let placed = edit::place(numbers, payload.len(), bytes.len(), position)?;
    match placed {
        Placed::Dump(at) => Ok(payload[at]),
        Placed::Bytes(at) => Ok(bytes[at]),
    }
}

// The same of a message that passed the check, of `size` payload bytes. The two differ in where a byte of the dump is read: one function
// with a closure for that has as many lines.
fn byte_of_checked(
    words: &[u32],
    length: usize,
    size: usize,
    numbers: &[usize],
    bytes: &[u8],
    position: usize,
) -> Result<u8, Fault>
    requires { Accepted words.now length size }
    ensures { answer_of result
        ≡ byte_of_message sysex8 words.now length numbers.now bytes.now position }
{
    let placed = edit::place(numbers, size, bytes.len(), position)?;
    match placed {
        Placed::Dump(at) => Ok(message::sysex8::byte_of(words, length, size, at)),
        Placed::Bytes(at) => Ok(bytes[at]),
    }
}

// The byte at `position` of the payload that a message would have with all edits of a list. The check's refusals, then those of `byte`.
pub fn byte_of_message(
    words: &[u32],
    length: usize,
    numbers: &[usize],
    bytes: &[u8],
    position: usize,
) -> Result<u8, Fault>
    ensures { answer_of result
        ≡ byte_of_message sysex8 words.now length numbers.now bytes.now position }
{
    let message = message::sysex8::check(words, length)?;
    byte_of_checked(words, length, message.size, numbers, bytes, position)
}
