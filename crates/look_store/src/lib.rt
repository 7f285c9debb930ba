// One byte of a dump of a store (02, T-08), without restoring the dump.
#![tactic(auto)]

mod looking;

ghost use Rattle.std.specs.Prelude.{◌≡◌, suc, length};
ghost use Rattle.store.specs.Store.{dumps_of};
ghost use Rattle.chain.specs.Restore.{restored, unlimited};
ghost use Rattle.look_store.specs.Byte.{byte_found, byte_of_dump};
ghost use Rattle.look_store.specs.Looking.{Indexed};
ghost use Rattle.refusal.specs.Meaning.{answer_of};

use refusal::{Fault, Refusal};

// The byte at a position of the dump of this number, from a good store, whose dumps stand at these places.
fn byte_noted(store: &[u8], places: &[usize], number: usize, position: usize) -> Result<u8, Fault>
    requires { Indexed store.now places.now }
    ensures { answer_of result
        ≡ byte_found (restored unlimited (dumps_of store.now) (suc (length (dumps_of store.now))) number) position }
{
    let left = places.len() + 1;
    let extent = chain::measuring::measure(store, places, number, left)?;
    if extent.size <= position {
        return Err(Refusal::Range.into());
    }
    Ok(looking::locate(store, places, number, left, position))
}

// The byte at a position of the payload of the dump of this number, without restoring it: Format, Twice, Full, Missing, Ring, Range of an
// edit along the walk, then Range of the position.
pub fn byte(store: &[u8], number: usize, position: usize) -> Result<u8, Fault>
    ensures { answer_of result ≡ byte_of_dump store.now number position }
{
    let mut places = [0usize; 256];
    let count = store::index(store, &mut places)?;
    byte_noted(store, &places[..count], number, position)
}
