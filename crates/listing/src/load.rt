// The words of the bytes, and the check of the message that they are.
ghost use Rattle.std.specs.Prelude.{◌≡◌, ◌*◌, ◌≤◌, length};
ghost use Rattle.ump.specs.Word.{words_of};
ghost use Rattle.ump.specs.Limits.{most_words};
ghost use Rattle.message.specs.Meaning.{check_meaning8};
ghost use Rattle.listing.specs.Steps.{over, load};

use message::sysex8::Summary;
use refusal::{Fault, Refusal};

// The most bytes of a message.
const BYTES: usize = 65536;

// Stores the words of the bytes, `count` of them.
fn store_words(bytes: &[u8], words: &mut [u32], count: usize)
    requires { (length bytes.now ≡ 4 * count) × (count ≤ length words.old) }
    ensures { words.new ≡ over (words_of bytes.now) words.old }
{
    for index in 0..count {
        let at = 4 * index;
        words[index] = layout::word_of(bytes[at], bytes[at + 1], bytes[at + 2], bytes[at + 3]);
    }
}

// Over 65,536 bytes is Long, else under 16 is Short, else not divisible by 16 is Ragged; else the words are stored and checked.
pub(crate) fn load(bytes: &[u8], words: &mut [u32]) -> Result<Summary, Fault>
    requires { most_words ≤ length words.old }
    ensures { (check_meaning8 result, words.new) ≡ load bytes.now words.old }
{
    let size = bytes.len();
    if size > BYTES {
        return Err(Refusal::Long.into());
    }
    if size < 16 {
        return Err(Refusal::Short.into());
    }
    if size % 16 != 0 {
        return Err(Refusal::Ragged.into());
    }
    let count = size / 4;
    store_words(bytes, words, count);
    message::sysex8::check(&words[..count], count)
}
