// Replacing payload bytes of a message.
ghost use Rattle.std.specs.Prelude.{◌≡◌};
ghost use Rattle.ump.specs.Packet.{sysex8};
ghost use Rattle.ump.specs.Packing.{words_for};
ghost use Rattle.ump.specs.Check.{payload_of};
ghost use Rattle.ump.specs.Splice.{spliced, rewritten};
ghost use Rattle.message.specs.Accepted.{Accepted};
ghost use Rattle.splice.specs.Splices.{Possible, new_size};

use super::packing::pack;
use super::replacing::{is_full, replace_all};
use super::sysex8::words_needed;

// Replaces the payload bytes `from..to` of a valid message and writes the fewest-packet form; answers its length.
pub(crate) fn splice(
    words: &mut [u32],
    replacement: &[u8],
    length: usize,
    size: usize,
    from: usize,
    to: usize,
) -> usize
    requires { Possible words.old replacement.now length size from to }
    ensures { (result ≡ words_for sysex8 (new_size size from to replacement.now)) × (words.new
        ≡ rewritten sysex8 words.old length
        (spliced (payload_of sysex8 words.old length) from to replacement.now)) }
{
    let total = size - (to - from) + replacement.len();
    let numbers = [from, to, replacement.len()];
    replace_all(words, length, size, total, &numbers, replacement);
    words_needed(total)
}

// Rewrites a valid message in fewest-packet form, and answers its length: where every packet but the last is full, by the splice of
// nothing at its end.
pub(crate) fn repack(words: &mut [u32], length: usize, size: usize) -> usize
    requires { Accepted words.old length size }
    ensures { (result ≡ words_for sysex8 size)
        × (words.new ≡ rewritten sysex8 words.old length (payload_of sysex8 words.old length)) }
{
    if is_full(words, length, size) {
        return splice(words, b"", length, size, size, size);
    }
    pack(words, length, size)
}
