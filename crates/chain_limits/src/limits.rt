// Samples of many dumps, of long walks and of large payloads.
use chain::{Basis, Description};
use compare::report;
use equality::words::same_words;
use refusal::Refusal;
use std::{array, io};
use stores::answers::{
    check_gives, check_refuses, describes, is_unsound, refuses, refuses_in, restores,
};
use stores::patterns::{chain, data, edit_data, falling, ring, wholes, wholes_again};

// 256 dumps are checked, and the last one is restored.
fn most_dumps() -> bool {
    let store: [u8; 1280] = array::from_fn(wholes);
    check_gives(&store, 256) && restores(&store, 255, &[0x5001_0000, 0, 0, 0])
}

// A 257th.
fn too_many_dumps() -> bool {
    let store: [u8; 1285] = array::from_fn(wholes);
    is_unsound(&store, Refusal::Full)
}

// A 257th, whose number is used already.
fn too_many_and_twice() -> bool {
    let store: [u8; 1285] = array::from_fn(wholes_again);
    is_unsound(&store, Refusal::Twice)
}

// The same, and a short body behind it.
fn too_many_and_twice_and_short() -> bool {
    let store: [u8; 1286] = array::from_fn(wholes_again);
    is_unsound(&store, Refusal::Format)
}

// A dump of each number.
fn all_numbers() -> bool {
    let store: [u8; 327_680] = array::from_fn(wholes);
    check_refuses(&store, Refusal::Full)
}

// One dump more, whose number is used already.
fn all_numbers_and_one() -> bool {
    let store: [u8; 327_685] = array::from_fn(wholes);
    check_refuses(&store, Refusal::Twice)
}

// Writes a line for each sample of many dumps.
pub(crate) fn report_counts(rt: &impl Print) -> io::Result<()> {
    report(rt, b"256 dumps", most_dumps())?;
    report(rt, b"257 dumps", too_many_dumps())?;
    report(rt, b"257 dumps, a number twice", too_many_and_twice())?;
    report(
        rt,
        b"257 dumps, a number twice, a short body",
        too_many_and_twice_and_short(),
    )?;
    report(rt, b"65,536 dumps", all_numbers())?;
    report(rt, b"65,537 dumps", all_numbers_and_one())
}

// The message in these words has 261 bytes: FF down to 01, and six zeros.
fn counts_down(words: &[u32]) -> bool {
    let expected: [u8; 261] = array::from_fn(|at| 255usize.saturating_sub(at) as u8);
    let mut bytes = [9; 261];
    message::sysex8::payload(words, 84, &mut bytes) == Ok(261) && bytes == expected
}

// Each of 255 deltas puts its number in at the start.
fn longest_chain() -> bool {
    let store: [u8; 3072] = array::from_fn(chain);
    let mut words = [9; 85];
    restore::restore(&store, 255, &mut words) == Ok(84) && words[84] == 0 && counts_down(&words)
}

// 256 deltas, the last of the first.
fn longest_ring() -> bool {
    let store: [u8; 1280] = array::from_fn(ring);
    refuses(&store, 0, Refusal::Ring) && refuses(&store, 255, Refusal::Ring)
}

// 256 deltas, and the last base is not held.
fn longest_missing() -> bool {
    let store: [u8; 1280] = array::from_fn(falling);
    refuses(&store, 256, Refusal::Missing)
}

// Writes a line for each sample of a long walk.
pub(crate) fn report_long_walks(rt: &impl Print) -> io::Result<()> {
    report(rt, b"a chain of 255 deltas", longest_chain())?;
    report(rt, b"a ring of 256", longest_ring())?;
    report(
        rt,
        b"256 deltas down to a number not held",
        longest_missing(),
    )
}

// The words are full packets; looked at are the first and the last.
fn are_full(words: &[u32]) -> bool {
    words.len() >= 4
        && same_words(
            &words[..4],
            &[0x501E_0001, 0x0203_0405, 0x0607_0809, 0x0A0B_0C0D],
        )
        && same_words(
            &words[words.len() - 4..],
            &[0x503E_00F3, 0xF4F5_F6F7, 0xF8F9_FAFB, 0xFCFD_FEFF],
        )
}

// The dump of this number fills the words lent.
fn fills(store: &[u8], number: usize, words: &mut [u32]) -> bool {
    restore::restore(store, number, words) == Ok(words.len()) && are_full(words)
}

// 53,248 bytes of a whole dump.
fn largest_whole() -> bool {
    let store: [u8; 57349] = array::from_fn(data);
    fills(&store, 1, &mut [9; 16384])
}

// 53,248 bytes of an edit.
fn largest_edit() -> bool {
    let store: [u8; 57359] = array::from_fn(edit_data);
    fills(&store, 2, &mut [9; 16384])
}

// 53,261 bytes of a whole dump: Room.
fn too_large_whole() -> bool {
    let store: [u8; 57363] = array::from_fn(data);
    refuses_in(&store, 1, &mut [9; 16384], &[9; 16384], Refusal::Room)
}

// 53,261 bytes of an edit: Room, and not Range.
fn too_large_edit() -> bool {
    let store: [u8; 57373] = array::from_fn(edit_data);
    refuses_in(&store, 2, &mut [9; 16384], &[9; 16384], Refusal::Room)
}

// Writes a line for each sample of a large payload.
pub(crate) fn report_sizes(rt: &impl Print) -> io::Result<()> {
    report(rt, b"a whole dump of 53,248 bytes", largest_whole())?;
    report(rt, b"an edit of 53,248 bytes", largest_edit())?;
    report(rt, b"a whole dump of 53,261 bytes", too_large_whole())?;
    report(rt, b"an edit of 53,261 bytes", too_large_edit())
}

// 3,328 bytes fill 1,024 words, for which a smaller scratch is enough.
fn largest_small() -> bool {
    let store: [u8; 3589] = array::from_fn(data);
    fills(&store, 1, &mut [9; 1024])
}

// 3,341 bytes and 1,024 words: Room.
fn too_large_small() -> bool {
    let store: [u8; 3603] = array::from_fn(data);
    refuses_in(&store, 1, &mut [9; 1024], &[9; 1024], Refusal::Room)
}

// 3,341 bytes of an edit, and 1,024 words: Room.
fn too_large_small_edit() -> bool {
    let store: [u8; 3613] = array::from_fn(edit_data);
    refuses_in(&store, 2, &mut [9; 1024], &[9; 1024], Refusal::Room)
}

// Writes a line for each sample of 1,024 words.
pub(crate) fn report_small_sizes(rt: &impl Print) -> io::Result<()> {
    report(rt, b"3,328 bytes, 1,024 words", largest_small())?;
    report(rt, b"3,341 bytes, 1,024 words", too_large_small())?;
    report(
        rt,
        b"an edit of 3,341 bytes, 1,024 words",
        too_large_small_edit(),
    )
}

// A chain of 255 deltas, each a byte longer than its base.
fn describes_longest_chain() -> bool {
    let store: [u8; 3072] = array::from_fn(chain);
    let expected = Description {
        basis: Basis::Delta(254),
        group: 0,
        id: 0,
        size: 261,
        words: 84,
        steps: 255,
    };
    describes(&store, 255, expected)
}

// 53,261 bytes are described, though no words are enough to restore them.
fn describes_too_large() -> bool {
    let store: [u8; 57373] = array::from_fn(edit_data);
    let expected = Description {
        basis: Basis::Delta(1),
        group: 0,
        id: 0,
        size: 53261,
        words: 16388,
        steps: 1,
    };
    describes(&store, 2, expected)
}

// Writes a line for each sample that is described.
pub(crate) fn report_described(rt: &impl Print) -> io::Result<()> {
    report(rt, b"describe: 255 deltas", describes_longest_chain())?;
    report(rt, b"describe: 53,261 bytes", describes_too_large())
}
