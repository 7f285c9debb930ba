// All edits of a list that are due, in one forward pass over a message whose packets are full but for the last and have one head.
ghost use Rattle.std.specs.Prelude.{◌≡◌, ◌+◌, ◌-◌, ◌*◌, ◌/◌, ◌%◌, ◌^◌, ◌≤◌, ◌<◌, length};
ghost use Rattle.ump.specs.Limits.{most_bytes};
ghost use Rattle.ump.specs.Edits.{edit_in, per_edit};
ghost use Rattle.flow.specs.Digits.{val};
ghost use Rattle.merge.specs.Thirteens.{number, body, front_of};
ghost use Rattle.merge.specs.Pieces.{waiting, Moved};
ghost use Rattle.merge.specs.Pass.{Steady, is_before, is_now, is_due, step_of, step_meaning, begin_of, Begins, Ends};

use super::held::{Pending, Thirteen};
use super::pending::{flush, give, keep};
use super::thirteen::{front_of, load, store};

// When edits are done that do not grow the payload: in this pass, or before it.
#[derive(Clone, Copy, Debug, PartialEq, Eq)]
pub enum Shrinking {
    Now,
    Before,
}

// When edits are done that grow the payload: in this pass, or after it.
#[derive(Clone, Copy, Debug, PartialEq, Eq)]
pub enum Growing {
    Now,
    After,
}

// What is done for one edit: bytes that are kept, bytes that are passed over, replacement bytes that are given.
#[derive(Clone, Copy, Debug, PartialEq, Eq)]
pub(crate) struct Step {
    pub(crate) kept: usize,
    pub(crate) out: usize,
    pub(crate) put: usize,
}

// What stands in the packet of payload byte `from` before it.
fn before(words: &[u32], from: usize) -> Pending
    requires { (from < 65536) × (0 < from % 13 → 4 * (from / 13) + 4 ≤ length words.now) }
    ensures { (waiting result ≡ front_of (val 13 (body words.now (from / 13))) (from % 13))
        × ((result.count ≡ from % 13) × (result.packet ≡ from / 13)) }
{
    let packet = from / 13;
    let some = from % 13;
    let bytes = front_of(words, packet, some);
    Pending {
        high: bytes.high,
        low: bytes.low,
        count: some,
        packet,
    }
}

// Moves the payload of packets `from..to` so many packets on.
fn move_up(words: &mut [u32], head: u32, from: usize, to: usize, by: usize)
    requires { (to + by < 65536) × ((from ≤ to) × ((4 * (to + by) ≤ length words.old) × (head ≤ 4294967040))) }
    ensures { Moved words.old head from to by words.new }
{
    if by == 0 {
        return;
    }
    for packet in (from..to).rev() {
        let bytes = load(words, packet);
        store(words, packet + by, head, bytes.high, bytes.low);
    }
}

// The packet of payload byte `at`, where that is not its first; packets stand `lag` packets on.
fn packet_of(words: &[u32], at: usize, lag: usize) -> Thirteen
    requires { (at / 13 + lag < 65536) × (0 < at % 13 → 4 * (at / 13 + lag) + 4 ≤ length words.now) }
    ensures { 0 < at % 13 → number result ≡ val 13 (body words.now (at / 13 + lag)) }
{
    if at % 13 == 0 {
        return Thirteen { high: 0, low: 0 };
    }
    load(words, at / 13 + lag)
}

// The packet of payload byte `next`, where `hand` is that of `at`, before it.
fn next_of(words: &[u32], hand: Thirteen, at: usize, next: usize, lag: usize) -> Thirteen
    requires { (next / 13 + lag < 65536) × (0 < next % 13 → 4 * (next / 13 + lag) + 4 ≤ length words.now) }
    ensures { Steady words.now (number hand) at next lag (number result) }
{
    if at % 13 != 0 {
        if next / 13 == at / 13 {
            return hand;
        }
    }
    packet_of(words, next, lag)
}

// Whether an edit is done in this pass.
fn is_due(grows: bool, shrinking: Shrinking, growing: Growing) -> bool
    ensures { result ≡ is_due grows (is_before shrinking) (is_now growing) }
{
    if grows {
        growing == Growing::Now
    } else {
        shrinking == Shrinking::Now
    }
}

// What is done for edit `index`, whose lower-numbered neighbour ends at `end`: bytes are kept where it is not due, its replacement if it is
// done before this pass, else its range.
fn step_of(
    numbers: &[usize],
    index: usize,
    end: usize,
    shrinking: Shrinking,
    growing: Growing,
) -> Step
    requires { (index < length numbers.now / per_edit) × ((end ≤ (edit_in numbers.now index).from)
        × (((edit_in numbers.now index).from ≤ (edit_in numbers.now index).to)
        × ((step_of (is_before shrinking) (is_now growing) end (edit_in numbers.now index)).kept ≤ most_bytes))) }
    ensures { step_meaning result ≡ step_of (is_before shrinking) (is_now growing) end (edit_in numbers.now index) }
{
    let at = 3 * index;
    let from = numbers[at];
    let gap = from - end;
    let width = numbers[at + 1] - from;
    let length = numbers[at + 2];
    if is_due(width < length, shrinking, growing) {
        return Step {
            kept: gap,
            out: width,
            put: length,
        };
    }
    match shrinking {
        Shrinking::Now => Step {
            kept: gap + width,
            out: 0,
            put: 0,
        },
        Shrinking::Before => Step {
            kept: gap + length,
            out: 0,
            put: 0,
        },
    }
}

// Where the first edit begins; the size of the payload if there is none.
fn begin_of(numbers: &[usize], size: usize) -> usize
    ensures { result ≡ begin_of numbers.now size }
{
    if numbers.len() < 3 {
        return size;
    }
    numbers[0]
}

// One pass: what stands before the first edit stays, packets behind it are first moved up by the packets that the message gains, and then
// bytes are kept, passed over and given, edit by edit. No packet is written over before it is read.
pub fn merge(
    words: &mut [u32],
    head: u32,
    size: usize,
    total: usize,
    numbers: &[usize],
    bytes: &[u8],
    shrinking: Shrinking,
    growing: Growing,
)
    requires { Begins words.old head size total numbers.now bytes.now (is_before shrinking) (is_now growing) }
    ensures { Ends words.old head size total numbers.now bytes.now (is_before shrinking) (is_now growing)
        words.new }
{
    let count = numbers.len() / 3;
    let held = layout::packets_for::<layout::Sysex8>(size);
    let needed = layout::packets_for::<layout::Sysex8>(total);
    let lag = needed.saturating_sub(held);
    let mut at = begin_of(numbers, size);
    let mut flow = before(words, at);
    move_up(words, head, at / 13, held, lag);
    let mut hand = packet_of(words, at, lag);
    let mut end = at;
    let mut start = 0;
    for index in 0..count {
        let step = step_of(numbers, index, end, shrinking, growing);
        let from = at + step.kept;
        let next = from + step.out;
        let coming = next_of(words, hand, at, next, lag);
        flow = keep(words, head, flow, hand, lag, at, from);
        flow = give(words, head, flow, bytes, start, start + step.put);
        hand = coming;
        at = next;
        end = numbers[3 * index + 1];
        start += numbers[3 * index + 2];
    }
    flow = keep(words, head, flow, hand, lag, at, size);
    flush(words, head, flow, needed);
}
