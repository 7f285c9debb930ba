// The exported calls on a store of dumps: its check, one dump described, restored, looked at or marked unwanted, and collecting.
ghost use Rattle.std.specs.Prelude.{◌≡◌};
ghost use Rattle.store.specs.Store.{check_store};
ghost use Rattle.chain.specs.Restore.{restore, describe};
ghost use Rattle.look_store.specs.Byte.{byte_of_dump};
ghost use Rattle.reclaim.specs.Reclaim.{mark, collect};
ghost use Rattle.answers.specs.Answers.{number_answer, done_answer, dump_answer, leaving};

use answers::{DumpAnswer, NumberAnswer};

// Checks the store and answers how many dumps it has; Format, Twice, Full, each over the whole store before the next.
#[unsafe(no_mangle)]
pub extern "C" fn latchbeacon_store_check(store: &[u8]) -> NumberAnswer
    ensures { result ≡ number_answer (check_store store.now) }
{
    answers::answer(store::check(store))
}

// Describes the dump of this number: whole or a delta of a base, its group, stream id and payload size, the words that restoring it needs,
// and how many bases are followed to its whole dump; Format, Twice, Full, Missing, Ring, and then Range, the base's before its delta's.
#[unsafe(no_mangle)]
pub extern "C" fn latchbeacon_store_describe(store: &[u8], number: usize) -> DumpAnswer
    ensures { result ≡ dump_answer (describe store.now number) }
{
    answers::answer(chain::describe(store, number))
}

// Restores the dump of this number, its base first and then its edits, in fewest-packet form, zeroes all lent words past it, and answers
// its words; Long, Format, Twice, Full, Missing, Ring, and then Range and Room, the base's before its delta's.
#[unsafe(no_mangle)]
pub extern "C" fn latchbeacon_store_restore(
    store: &[u8],
    number: usize,
    words: &mut [u32],
) -> NumberAnswer
    ensures { (result, words.new) ≡ leaving number_answer (restore store.now number words.old) }
{
    answers::answer(restore::restore(store, number, words))
}

// Marks the dump of this number unwanted; Format, Twice, Full, Missing.
#[unsafe(no_mangle)]
pub extern "C" fn latchbeacon_store_mark(store: &mut [u8], number: usize) -> NumberAnswer
    ensures { (result, store.new) ≡ leaving done_answer (mark store.old number) }
{
    answers::answer(reclaim::mark(store, number))
}

// Collects: keeps each wanted dump and each dump that a wanted one rests on, moves their records down in their old order, zeroes the rest
// of the bytes lent, and answers the new length; Format, Twice, Full.
#[unsafe(no_mangle)]
pub extern "C" fn latchbeacon_store_collect(store: &mut [u8]) -> NumberAnswer
    ensures { (result, store.new) ≡ leaving number_answer (collect store.old) }
{
    answers::answer(reclaim::collect(store))
}

// The byte at `position` of the payload that restoring the dump of this number would give, without restoring it; Format, Twice, Full,
// Missing, Ring, then Range for an edit along the walk, then for the position. Nothing is written.
#[unsafe(no_mangle)]
pub extern "C" fn latchbeacon_store_look_byte(
    store: &[u8],
    number: usize,
    position: usize,
) -> NumberAnswer
    ensures { result ≡ number_answer (byte_of_dump store.now number position) }
{
    answers::answer(look_store::byte(store, number, position))
}
