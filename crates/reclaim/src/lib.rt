// Reclaiming the store of dumps (02, T-13): a dump is marked unwanted, and what no wanted dump rests on is freed.
#![tactic(auto)]

mod keeping;
mod marking;
mod moving;

ghost use Rattle.std.specs.Prelude.{◌≡◌};
ghost use Rattle.reclaim.specs.Reclaim.{mark as mark_of, collect as collect_of};
ghost use Rattle.refusal.specs.Meaning.{answer_of};

use refusal::{Fault, Refusal};

// Marks the dump of this number unwanted: its kind 01 becomes 11 hex, 02 becomes 12, and no other byte is changed; marking again changes
// nothing. Format, Twice, Full, Missing.
pub fn mark(store: &mut [u8], number: usize) -> Result<(), Fault>
    ensures { (answer_of result, store.new) ≡ mark_of store.old number }
{
    store::check(store)?;
    if marking::mark_dump(store, number) {
        return Ok(());
    }
    Err(Refusal::Missing.into())
}

// Collects: keeps each wanted dump and each dump that a wanted one rests on, moves their records down in their old order, zeroes the rest
// of the bytes lent, and answers the new length. Format, Twice, Full.
pub fn collect(store: &mut [u8]) -> Result<usize, Fault>
    ensures { (answer_of result, store.new) ≡ collect_of store.old }
{
    let mut places = [0usize; 256];
    let count = store::index(store, &mut places)?;
    Ok(moving::collect_noted(store, &places[..count]))
}
