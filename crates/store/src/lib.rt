// The store of dumps (02, T-02 and T-13): records in bytes, what may follow what, and the dumps that they make.
#![tactic(auto)]

pub mod finding;
pub mod flags;
pub mod format;
mod numbers;
pub mod record;

ghost use Rattle.std.specs.Prelude.{◌≡◌};
ghost use Rattle.store.specs.Store.{check_store};
ghost use Rattle.store.specs.Meaning.{Indexes};
ghost use Rattle.refusal.specs.Meaning.{answer_of};

use refusal::{Fault, Refusal};

// Checks the store, and notes where each dump stands, as far as there is room.
pub fn index(store: &[u8], places: &mut [usize]) -> Result<usize, Fault>
    ensures { Indexes store.now result places.new }
{
    if !format::is_well_formed(store) {
        return Err(Refusal::Format.into());
    }
    let mut used = [0u8; 8192];
    let count = numbers::enter(store, &mut used, places).ok_or(Refusal::Twice)?;
    if count > 256 {
        return Err(Refusal::Full.into());
    }
    Ok(count)
}

// Checks the store: Format, Twice, Full, each over the whole store; answers the number of dumps.
pub fn check(store: &[u8]) -> Result<usize, Fault>
    ensures { answer_of result ≡ check_store store.now }
{
    let mut places = [0usize; 256];
    index(store, &mut places)
}
