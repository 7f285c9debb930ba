// What marking and collecting answer to a store and leave of it, compared with what document 02 says (T-13).
#![tactic(auto)]

pub mod many;
pub mod samples;

use compare::{Numbered, refuses};
use equality::padded::padded_bytes;
use refusal::Refusal;
use stores::answers::check_refuses;

// Marking the dump of this number is accepted, and leaves these bytes.
pub fn marks_in(lent: &mut [u8], number: usize, after: &[u8]) -> bool {
    reclaim::mark(lent, number) == Ok(()) && &*lent == after
}

// Marking the dump of this number is refused so, and leaves the bytes.
pub fn mark_refuses_in(
    lent: &mut [u8],
    number: usize,
    before: &[u8],
    refusal: impl Numbered,
) -> bool {
    refuses(&reclaim::mark(lent, number), refusal.number(), 0) && &*lent == before
}

// Collecting answers the length of these bytes, and leaves them and then zeros.
fn collects_to(lent: &mut [u8], kept: &[u8]) -> bool {
    reclaim::collect(lent) == Ok(kept.len()) && padded_bytes(lent, kept)
}

// The same, and collecting the bytes in use again changes nothing; with a zero behind them they are no store.
pub fn collects_in(lent: &mut [u8], kept: &[u8]) -> bool {
    if !collects_to(lent, kept) {
        return false;
    }
    if let Some(longer) = lent.get(..=kept.len()) {
        if !check_refuses(longer, Refusal::Format) {
            return false;
        }
    }
    match lent.get_mut(..kept.len()) {
        Some(used) => collects_to(used, kept),
        None => false,
    }
}

// Collecting is refused so, and leaves the bytes.
pub fn collect_refuses_in(lent: &mut [u8], before: &[u8], refusal: impl Numbered) -> bool {
    refuses(&reclaim::collect(lent), refusal.number(), 0) && &*lent == before
}
