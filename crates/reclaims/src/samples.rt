// Samples of marking and collecting a store, which is lent to the calls as a copy.
use crate::{collect_refuses_in, collects_in, mark_refuses_in, marks_in};
use refusal::Refusal;
use stores::samples::{Answer as Read, Given};

// The most bytes of a store that is given.
const MOST: usize = 64;

// What marking or collecting answers to a store.
#[derive(Clone, Copy, Debug, PartialEq, Eq)]
pub enum Answer<'a> {
    // Marking the dump of this number leaves these bytes.
    Marks(usize, &'a [u8]),
    // Marking the dump of this number is refused.
    NotMarked(usize, Refusal),
    // Collecting leaves these bytes.
    Collects(&'a [u8]),
    // Collecting is refused.
    NotCollected(Refusal),
    // Collecting leaves these bytes, and they and the store are read so.
    Keeps(&'a [u8], Read<'a>),
    // Collecting leaves these bytes; the dump of this number is restored to this message before, and Missing after.
    Frees(&'a [u8], usize, &'a [u32]),
}

impl<'a> Answer<'a> {
    // Marking or collecting answers so on these bytes, a copy of the store.
    fn is_given_on(self, store: &[u8], lent: &mut [u8]) -> bool {
        match self {
            Answer::Marks(number, after) => marks_in(lent, number, after),
            Answer::NotMarked(number, refusal) => mark_refuses_in(lent, number, store, refusal),
            Answer::NotCollected(refusal) => collect_refuses_in(lent, store, refusal),
            Answer::Collects(kept) => collects_in(lent, kept),
            Answer::Keeps(kept, read) => {
                collects_in(lent, kept) && read.is_given(store) && read.is_given(kept)
            }
            Answer::Frees(kept, number, message) => {
                collects_in(lent, kept)
                    && Read::Message(number, message).is_given(store)
                    && Read::Refused(number, Refusal::Missing).is_given(kept)
            }
        }
    }
}

impl<'a> Given for Answer<'a> {
    fn is_given(&self, store: &[u8]) -> bool {
        let mut room = [9; MOST];
        match room.get_mut(..store.len()) {
            Some(lent) => {
                lent.copy_from_slice(store);
                self.is_given_on(store, lent)
            }
            None => false,
        }
    }
}
