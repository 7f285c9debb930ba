// What is written: the bytes of the restored words, or the line of a refusal.
ghost use Rattle.std.specs.Prelude.{◌≡◌, ◌*◌, ◌≤◌, length};
ghost use Rattle.ump.specs.Word.{octets};
ghost use Rattle.listing.specs.Steps.{over, handed};
ghost use Rattle.restorer.specs.Output.{restore_limited, output};
ghost use Rattle.refusal.specs.Meaning.{answer_of};

use refusal::{Fault, Refusal};

// Bytes of text that are enough for every message: four for each word.
pub const TEXT: usize = 4 * layout::MOST_WORDS;

// Writes the bytes of the words.
fn put_words(text: &mut [u8], words: &[u32])
    requires { 4 * length words.now ≤ length text.old }
    ensures { text.new ≡ over (octets words.now) text.old }
{
    for (index, word) in words.iter().enumerate() {
        let at = 4 * index;
        text[at..at + 4].copy_from_slice(&word.to_be_bytes());
    }
}

// Hands the bytes of the words over. Refuses Room where they do not fit.
fn hand_words(words: &[u32], text: &mut [u8]) -> Result<usize, Fault>
    ensures { (answer_of result, text.new) ≡ handed (octets words.now) text.old }
{
    if text.len() / 4 < words.len() {
        return Err(Refusal::Room.into());
    }
    put_words(text, words);
    Ok(4 * words.len())
}

// The most bytes of a store.
const STORE: usize = 1_048_576;

// Restores a dump from a store of at most 1,048,576 bytes; a longer one is Long.
#[tactic(auto, unfolding(crate::specs::Output::restore_limited))]
fn restore_limited(store: &[u8], number: usize, words: &mut [u32]) -> Result<usize, Fault>
    ensures { (answer_of result, words.new) ≡ restore_limited store.now number words.old }
{
    if store.len() > STORE {
        return Err(Refusal::Long.into());
    }
    restore::restore(store, number, words)
}

// Restores the dump of this number, and hands over the words' bytes or the refusal's line. Refuses Room where they do not fit.
pub fn write(store: &[u8], number: usize, text: &mut [u8]) -> Result<usize, Fault>
    ensures { (answer_of result, text.new) ≡ handed (output store.now number) text.old }
{
    let mut words = [0u32; layout::MOST_WORDS];
    match restore_limited(store, number, &mut words) {
        Err(fault) => listing::refuse(fault, text),
        Ok(count) => hand_words(&words[..count], text),
    }
}
