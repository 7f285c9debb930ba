// Samples: a store each, and what the calls answer to it.
use crate::answers;
use chain::Description;
use compare::report;
use refusal::Refusal;
use std::io;

// The most words that nearly all samples lend.
const FEW: usize = 8;

// The most words that a sample lends: one more than may be lent.
const LENT: usize = 16385;

// What the calls answer to a store, where eight words are lent or so many as are named first.
#[derive(Clone, Copy, Debug, PartialEq, Eq)]
pub enum Answer<'a> {
    // The check gives so many dumps.
    Dumps(usize),
    // All three calls refuse the store, whatever dump is asked for.
    Unsound(Refusal),
    // The dump of this number is restored to this message.
    Message(usize, &'a [u32]),
    MessageIn(usize, usize, &'a [u32]),
    // The dump of this number is neither restored nor described.
    Refused(usize, Refusal),
    // The dump of this number is not restored, and the words stay.
    RefusedIn(usize, usize, Refusal),
    // The dump of this number is described so.
    Described(usize, Description),
    // The dump of this number is not described.
    NotDescribed(usize, Refusal),
}

// What a call answers that is lent so many words, all nines; false where no sample lends so many.
fn lends<F: FnOnce(&mut [u32]) -> bool>(lent: usize, call: F) -> bool
    requires { F.IsAlwaysCallable call }
{
    if let Some(words) = [9; FEW].get_mut(..lent) {
        return call(words);
    }
    match [9; LENT].get_mut(..lent) {
        Some(words) => call(words),
        None => false,
    }
}

// What calls answer to a store, or do to it.
pub trait Given {
    // The calls answer so to this store.
    fn is_given(&self, store: &[u8]) -> bool;
}

impl<'a> Given for Answer<'a> {
    fn is_given(&self, store: &[u8]) -> bool {
        match *self {
            Answer::Dumps(count) => answers::check_gives(store, count),
            Answer::Unsound(refusal) => answers::is_unsound(store, refusal),
            Answer::Message(number, message) => answers::restores(store, number, message),
            Answer::MessageIn(lent, number, message) => lends(lent, |words| {
                answers::restores_in(store, number, words, message)
            }),
            Answer::Refused(number, refusal) => answers::refuses(store, number, refusal),
            Answer::RefusedIn(lent, number, refusal) => lends(lent, |before| {
                lends(
                    lent,
                    |words| answers::refuses_in(store, number, words, before, refusal),
                )
            }),
            Answer::Described(number, description) => {
                answers::describes(store, number, description)
            }
            Answer::NotDescribed(number, refusal) => {
                answers::describe_refuses(store, number, refusal)
            }
        }
    }
}

// A sample's name, its store, and what the calls answer.
pub type Sample<'a, A> = (&'a [u8], &'a [u8], &'a [A]);

// Writes a line for each sample.
pub fn report_all<A: Given>(rt: &impl Print, samples: &[Sample<'_, A>]) -> io::Result<()> {
    for (name, store, answers) in samples {
        report(
            rt,
            name,
            answers.iter().all(|answer| answer.is_given(store)),
        )?;
    }
    Ok(())
}
