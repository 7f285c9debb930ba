// The exported calls that write a message in fewest-packet form, and where an octet of it comes from.
ghost use Rattle.std.specs.Prelude.{◌≡◌};
ghost use Rattle.ump.specs.Packet.{sysex8};
ghost use Rattle.ump.specs.Packing.{words_for};
ghost use Rattle.ump.specs.Splice.{repack, splice, set_payload};
ghost use Rattle.ump.specs.Edits.{splice_all};
ghost use Rattle.ump.specs.Origin.{origin};
ghost use Rattle.answers.specs.Answers.{number_answer, change_answer, origin_answer, leaving};

use answers::{ChangeAnswer, NumberAnswer, OriginAnswer};

// The words that the fewest-packet form of a payload of `size` bytes takes.
#[unsafe(no_mangle)]
pub extern "C" fn latchbeacon_sysex8_words_needed(size: usize) -> usize
    ensures { result ≡ words_for sysex8 size }
{
    splice::sysex8::words_needed(size)
}

// Rewrites the message in fewest-packet form and answers its new length; the check's refusals alone.
#[unsafe(no_mangle)]
pub extern "C" fn latchbeacon_sysex8_repack(words: &mut [u32], length: usize) -> NumberAnswer
    ensures { (result, words.new) ≡ leaving number_answer (repack sysex8 words.old length) }
{
    answers::answer(splice::sysex8::repack(words, length))
}

// Replaces the payload bytes `from..to` by the bytes lent; the check's refusals, then Range, Room.
#[unsafe(no_mangle)]
pub extern "C" fn latchbeacon_sysex8_splice(
    words: &mut [u32],
    length: usize,
    from: usize,
    to: usize,
    replacement: &[u8],
) -> ChangeAnswer
    ensures { (result, words.new)
        ≡ leaving change_answer (splice sysex8 words.old length from to replacement.now) }
{
    answers::answer(splice::sysex8::splice(words, length, from, to, replacement))
}

// Sets the payload, a splice of the whole; the check's refusals, then Room.
#[unsafe(no_mangle)]
pub extern "C" fn latchbeacon_sysex8_set_payload(
    words: &mut [u32],
    length: usize,
    bytes: &[u8],
) -> ChangeAnswer
    ensures { (result, words.new) ≡ leaving change_answer (set_payload sysex8 words.old length bytes.now) }
{
    answers::answer(splice::sysex8::set_payload(words, length, bytes))
}

// Replaces all ranges of a list of edits at once: three numbers for each, from, to and replacement length, and all replacement bytes
// end to end; the check's refusals, then Range, Overlap, Room.
#[unsafe(no_mangle)]
pub extern "C" fn latchbeacon_sysex8_splice_all(
    words: &mut [u32],
    length: usize,
    numbers: &[usize],
    bytes: &[u8],
) -> ChangeAnswer
    ensures { (result, words.new)
        ≡ leaving change_answer (splice_all sysex8 words.old length numbers.now bytes.now) }
{
    answers::answer(edit::splice_all(words, length, numbers, bytes))
}

// Where octet `octet` of the words lent comes from, if all edits of a list are done so; refused as that is, then Range for an octet
// that is not lent. Nothing is written.
#[unsafe(no_mangle)]
pub extern "C" fn latchbeacon_sysex8_origin(
    words: &[u32],
    length: usize,
    numbers: &[usize],
    bytes: &[u8],
    octet: usize,
) -> OriginAnswer
    ensures { result ≡ origin_answer (origin sysex8 words.now length numbers.now bytes.now octet) }
{
    answers::answer(edit::origin(words, length, numbers, bytes, octet))
}
