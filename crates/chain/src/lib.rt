// The delta chain (02, T-02): dumps, whole or as edits of another, in a store of bytes; one of them described. Crate restore restores it.
#![tactic(auto)]

pub mod edits;
pub mod measuring;

ghost use Rattle.std.specs.Prelude.{◌≡◌, suc, ◌≤◌, length};
ghost use Rattle.refusal.specs.Answer.{pass};
ghost use Rattle.store.specs.Store.{dumps_of, sound};
ghost use Rattle.store.specs.Places.{Noted};
ghost use Rattle.chain.specs.Restore.{described, describe as describe_of};
ghost use Rattle.chain.specs.Meaning.{Bases, described_meaning};

use refusal::Fault;
use splice::sysex8::words_needed;
use store::finding::find;
use store::record::{byte, is_whole, number_at};

// What a dump is: whole, or a delta of this base. An enum and no Option, as a None would not say that the dump is whole.
#[derive(Clone, Copy, Debug, PartialEq, Eq)]
pub enum Basis {
    Whole,
    Delta(usize),
}

// What a dump says: what it is, the group and stream id of its whole dump, its payload size, the words that restoring it needs, and how
// many bases are followed to its whole dump.
#[derive(Clone, Copy, Debug, PartialEq, Eq)]
pub struct Description {
    pub basis: Basis,
    pub group: u8,
    pub id: u8,
    pub size: usize,
    pub words: usize,
    pub steps: usize,
}

// What the dump of this number is, among those that stand at these places; a number not held has no base.
pub fn basis_of(store: &[u8], places: &[usize], number: usize) -> Basis
    ensures { Bases store.now places.now number result }
{
    match find(store, places, number) {
        Some(at) => {
            if is_whole(byte(store, at)) {
                return Basis::Whole;
            }
            Basis::Delta(number_at(store, at + 3))
        }
        None => Basis::Whole,
    }
}

// Describes the dump of this number from a good store, whose dumps stand at these places.
fn describe_noted(store: &[u8], places: &[usize], number: usize) -> Result<Description, Fault>
    requires { Noted store.now places.now × ((sound store.now ≡ pass) × (length places.now ≤ 256)) }
    ensures { described_meaning result ≡ described (dumps_of store.now) (suc (length (dumps_of store.now))) number }
{
    let extent = measuring::measure(store, places, number, places.len() + 1)?;
    Ok(Description {
        basis: basis_of(store, places, number),
        group: extent.group,
        id: extent.id,
        size: extent.size,
        words: words_needed(extent.largest),
        steps: extent.steps,
    })
}

// Describes the dump of this number: what it is, its size, the words that restoring it needs, and its steps. Format, Twice, Full,
// Missing, Ring, Range.
pub fn describe(store: &[u8], number: usize) -> Result<Description, Fault>
    ensures { described_meaning result ≡ describe_of store.now number }
{
    let mut places = [0usize; 256];
    let count = store::index(store, &mut places)?;
    describe_noted(store, &places[..count], number)
}
