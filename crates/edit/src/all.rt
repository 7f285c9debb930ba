// All edits of a list at once, on a SysEx8 message: the edits lent as numbers, their replacement bytes end to end.
ghost use Rattle.std.specs.Prelude.{◌≡◌};
ghost use Rattle.ump.specs.Packet.{sysex8};
ghost use Rattle.ump.specs.Edits.{splice_all};
ghost use Rattle.splice.specs.Meaning.{spliced_meaning};
ghost use Rattle.message.specs.Accepted.{Accepted};

use crate::Edit;
use crate::listed::Edits;
use refusal::{Fault, Refusal};
use splice::sysex8::Change;

// All edits of a message that passed the check: Range, Overlap, Room, and then the fewest-packet form of the result.
fn splice_checked(
    words: &mut [u32],
    length: usize,
    size: usize,
    numbers: &[usize],
    bytes: &[u8],
) -> Result<Change, Fault>
    requires { Accepted words.old length size }
    ensures { (spliced_meaning result, words.new)
        ≡ splice_all sysex8 words.old length numbers.now bytes.now }
{
    let edits = Edits::checked(numbers, size, bytes.len())?;
    let total = edits.total();
    let needed = splice::sysex8::words_needed(total);
    if words.len() < needed {
        return Err(Refusal::Room.into());
    }
    splice::replacing::replace_all(words, length, size, total, numbers, bytes);
    let whole = Edit {
        from: 0,
        to: size,
        length: total,
    };
    Ok(Change {
        length: needed,
        growth: crate::growth_of(whole),
    })
}

// Replaces all ranges of a list at once: edit i has the numbers 3i, 3i + 1 and 3i + 2, from, to and replacement length, and its
// bytes follow those of the edits before it. The check's refusals, then Range, Overlap, Room when the result needs more words
// than are lent.
pub fn splice_all(
    words: &mut [u32],
    length: usize,
    numbers: &[usize],
    bytes: &[u8],
) -> Result<Change, Fault>
    ensures { (spliced_meaning result, words.new)
        ≡ splice_all sysex8 words.old length numbers.now bytes.now }
{
    let message = message::sysex8::check(words, length)?;
    splice_checked(words, length, message.size, numbers, bytes)
}
