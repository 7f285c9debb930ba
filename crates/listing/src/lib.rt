// The listing of a SysEx8 message: its bytes in, lines of text out.
#![tactic(auto)]

ghost use Rattle.std.specs.Prelude.{◌≡◌, ◌≤◌, [], length};
ghost use Rattle.refusal.specs.Number.{number_of};
ghost use Rattle.ump.specs.Limits.{most_words};
ghost use Rattle.listing.specs.Listing.{listing, refusal_line};
ghost use Rattle.listing.specs.Steps.{handed};
ghost use Rattle.refusal.specs.Meaning.{answer_of};

use refusal::{Fault, Refusal};
use text::Text;

mod line;
mod load;
mod text;

// Bytes of text that are enough for every listing: 24 for each of 4,096 packets, and 256 for the other lines.
pub const TEXT: usize = 98560;

// Bytes of text that are enough for the line of every refusal.
const LINE: usize = 64;

// Writes the text of the message whose words these bytes are: the refusal's line, or the heading, a line for each packet and the totals.
fn put_listing(bytes: &[u8], words: &mut [u32], text: &mut Text<TEXT>)
    requires { (most_words ≤ length words.old) × (text.old ≡ []) }
    ensures { text.new ≡ listing bytes.now }
{
    let loaded = load::load(bytes, words);
    let Ok(message) = loaded else {
        return line::put_fault(text, loaded.unwrap_err());
    };
    line::put_message(text, &words[..message.words], message.size);
}

// Hands a piece of text over. Refuses Room where it does not fit.
fn hand(piece: &[u8], text: &mut [u8]) -> Result<usize, Fault>
    ensures { (answer_of result, text.new) ≡ handed piece.now text.old }
{
    let size = piece.len();
    if text.len() < size {
        return Err(Refusal::Room.into());
    }
    text[..size].copy_from_slice(piece);
    Ok(size)
}

// Lists the message whose words these bytes are, four each, highest first. Refuses Room where the text does not fit.
pub fn list(bytes: &[u8], text: &mut [u8]) -> Result<usize, Fault>
    ensures { (answer_of result, text.new) ≡ handed (listing bytes.now) text.old }
{
    let mut words = [0u32; layout::MOST_WORDS];
    let mut whole = Text::<TEXT>::new();
    put_listing(bytes, &mut words, &mut whole);
    hand(whole.as_slice(), text)
}

// The line of a refusal. Refuses Room where it does not fit.
pub fn refuse(fault: Fault, text: &mut [u8]) -> Result<usize, Fault>
    ensures { (answer_of result, text.new)
        ≡ handed (refusal_line (number_of fault.refusal) fault.place) text.old }
{
    let mut line = Text::<LINE>::new();
    line::put_fault(&mut line, fault);
    hand(line.as_slice(), text)
}
