// All edits of a list on a message that passed the check: one pass where no prefix of the list outgrows what the message gains, else two,
// those that do not grow the payload and then those that grow it.
ghost use Rattle.std.specs.Prelude.{true, false, ◌≡◌, ◌+◌, ◌*◌, ◌/◌, ◌≤◌};
ghost use Rattle.ump.specs.Packet.{sysex8};
ghost use Rattle.ump.specs.Check.{payload_of};
ghost use Rattle.ump.specs.Splice.{rewritten};
ghost use Rattle.ump.specs.Edits.{edits_of, patches_of, replaced};
ghost use Rattle.message.specs.Accepted.{Accepted};
ghost use Rattle.splice.specs.Accepted.{Full, Filled};
ghost use Rattle.splice.specs.Merging.{Listed, Within, less_after, Summed, BeginsAll, EndsAll};

use super::header::{base_of, inner_head, level};
use super::packing::{finish, pack};
use super::sysex8::words_needed;
use merge::merging::{Growing, Shrinking, merge};

// Whether every packet but the last is full: only then do the others carry as much as they can.
pub(crate) fn is_full(words: &[u32], length: usize, size: usize) -> bool
    requires { Accepted words.now length size }
    ensures { result ≡ true → Full words.now length }
{
    let last = layout::count_of(words[length - 4]) as usize - 1;
    size == 13 * (length / 4 - 1) + last
}

// Packs a valid message unless every packet but its last is full, and answers its length.
fn fill(words: &mut [u32], length: usize, size: usize) -> usize
    requires { Accepted words.old length size }
    ensures { Filled words.old length size words.new result }
{
    if is_full(words, length, size) {
        return length;
    }
    pack(words, length, size)
}

// Whether some first edits of a list grow the payload by more than `room` bytes.
fn outgrows(numbers: &[usize], room: usize) -> bool
    requires { (room ≤ 65536) × Summed numbers.now }
    ensures { result ≡ false → Within room 0 0 (edits_of numbers.now) }
{
    let count = numbers.len() / 3;
    let mut added = 0;
    let mut removed = 0;
    for index in 0..count {
        let at = 3 * index;
        added += numbers[at + 2];
        removed += numbers[at + 1] - numbers[at];
        if removed + room < added {
            return true;
        }
    }
    false
}

// The size of the payload after the edits that do not grow it.
fn less_after(numbers: &[usize], size: usize) -> usize
    requires { Summed numbers.now }
    ensures { result ≡ less_after size (edits_of numbers.now) }
{
    let count = numbers.len() / 3;
    let mut left = size;
    for index in 0..count {
        let at = 3 * index;
        let width = numbers[at + 1] - numbers[at];
        left = left.saturating_sub(width.saturating_sub(numbers[at + 2]));
    }
    left
}

// All edits of a list, on a message whose packets are full but for the last and have one head.
fn merge_all(
    words: &mut [u32],
    head: u32,
    size: usize,
    total: usize,
    numbers: &[usize],
    bytes: &[u8],
)
    requires { BeginsAll words.old head size total numbers.now bytes.now }
    ensures { EndsAll words.old head size total numbers.now bytes.now words.new }
{
    let needed = layout::packets_for::<layout::Sysex8>(total);
    let gained = needed.saturating_sub(layout::packets_for::<layout::Sysex8>(size));
    if outgrows(numbers, 13 * gained + 12) {
        let less = less_after(numbers, size);
        merge(
            words,
            head,
            size,
            less,
            numbers,
            bytes,
            Shrinking::Now,
            Growing::After,
        );
        merge(
            words,
            head,
            less,
            total,
            numbers,
            bytes,
            Shrinking::Before,
            Growing::Now,
        );
        return;
    }
    merge(
        words,
        head,
        size,
        total,
        numbers,
        bytes,
        Shrinking::Now,
        Growing::Now,
    );
}

// Replaces all ranges of a list in the payload of a valid message at once, and writes the fewest-packet form of the result, of `total`
// bytes.
pub fn replace_all(
    words: &mut [u32],
    length: usize,
    size: usize,
    total: usize,
    numbers: &[usize],
    bytes: &[u8],
)
    requires { Listed words.old length size total numbers.now bytes.now }
    ensures { words.new ≡ rewritten sysex8 words.old length
        (replaced (payload_of sysex8 words.old length) (patches_of (edits_of numbers.now) bytes.now)) }
{
    let end = words_needed(total);
    let filled = fill(words, length, size);
    let base = base_of(words[0]);
    let head = inner_head(base);
    level(words, head, filled);
    merge_all(words, head, size, total, numbers, bytes);
    finish(words, base, total, end, filled);
}
