// Restoring a dump of the delta chain (02, T-02): its base first, then its edits.
#![tactic(auto)]

mod output;
mod restoring;

ghost use Rattle.std.specs.Prelude.{◌≡◌, ◌≤◌, length};
ghost use Rattle.chain.specs.Restore.{restore as restore_of};
ghost use Rattle.restore.specs.Laying.{Readied, Roomy};
ghost use Rattle.refusal.specs.Meaning.{answer_of};

use refusal::{Fault, Refusal};

// Restores the dump of this number from a good store, whose dumps stand at these places: in two scratch payloads, and then in the
// words lent.
fn restore_in(
    store: &[u8],
    places: &[usize],
    number: usize,
    words: &mut [u32],
    first: &mut [u8],
    second: &mut [u8],
) -> Result<usize, Fault>
    requires { Readied store.now places.now words.old × (Roomy words.old first.old × Roomy words.old second.old) }
    ensures { (answer_of result, words.new) ≡ restore_of store.now number words.old }
{
    let left = places.len() + 1;
    let held = restoring::lay(store, places, number, left, words.len(), first, second)?;
    Ok(output::put(words, held.group, held.id, &first[..held.size]))
}

// The same where at most 1,024 words are lent: a small scratch is enough.
fn restore_small(
    store: &[u8],
    places: &[usize],
    number: usize,
    words: &mut [u32],
) -> Result<usize, Fault>
    requires { Readied store.now places.now words.old × (length words.old ≤ 1024) }
    ensures { (answer_of result, words.new) ≡ restore_of store.now number words.old }
{
    let mut first = [0u8; 3328];
    let mut second = [0u8; 3328];
    restore_in(store, places, number, words, &mut first, &mut second)
}

// The same for any words that may be lent.
fn restore_large(
    store: &[u8],
    places: &[usize],
    number: usize,
    words: &mut [u32],
) -> Result<usize, Fault>
    requires { Readied store.now places.now words.old }
    ensures { (answer_of result, words.new) ≡ restore_of store.now number words.old }
{
    let mut first = [0u8; layout::MOST_BYTES];
    let mut second = [0u8; layout::MOST_BYTES];
    restore_in(store, places, number, words, &mut first, &mut second)
}

// The same, with a scratch that is large enough for the words lent.
fn restore_noted(
    store: &[u8],
    places: &[usize],
    number: usize,
    words: &mut [u32],
) -> Result<usize, Fault>
    requires { Readied store.now places.now words.old }
    ensures { (answer_of result, words.new) ≡ restore_of store.now number words.old }
{
    if words.len() <= 1024 {
        return restore_small(store, places, number, words);
    }
    restore_large(store, places, number, words)
}

// Restores the dump of this number: its base first, then its edits, in fewest-packet form, and zeroes all lent words past it. Long,
// Format, Twice, Full, Missing, Ring, and then Range and Room along the walk, the base's before its delta's.
pub fn restore(store: &[u8], number: usize, words: &mut [u32]) -> Result<usize, Fault>
    ensures { (answer_of result, words.new) ≡ restore_of store.now number words.old }
{
    if words.len() > layout::MOST_WORDS {
        return Err(Refusal::Long.into());
    }
    let mut places = [0usize; 256];
    let count = store::index(store, &mut places)?;
    restore_noted(store, &places[..count], number, words)
}
