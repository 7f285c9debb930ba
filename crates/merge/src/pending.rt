// Payload bytes that flow from packet to packet: those that wait to be written, fewer than 13, and pieces that come after them.
ghost use Rattle.std.specs.Prelude.{◌≡◌, ◌+◌, ◌-◌, ◌*◌, ◌/◌, ◌^◌, ◌≤◌, ◌<◌, length};
ghost use Rattle.ump.specs.Packet.{sysex8, count_at, size_at};
ghost use Rattle.flow.specs.Digits.{val};
ghost use Rattle.merge.specs.Thirteens.{number, body, front_of};
ghost use Rattle.merge.specs.Pieces.{Appends, Flushed, Goes, Given, Kept, Reaches, Runs, none, taken};

use super::held::{Pending, Thirteen};
use super::thirteen::{earlier, front, front_of, later, load, middle, piece_of, store};

// No byte waits, and packet `packet` is the next.
pub fn nothing(packet: usize) -> Pending
    ensures { result ≡ none packet }
{
    Pending {
        high: 0,
        low: 0,
        count: 0,
        packet,
    }
}

// A piece of some bytes, up to 13, with zeros behind them, after what is pending; 13 are written.
pub(crate) fn append(
    words: &mut [u32],
    head: u32,
    pending: Pending,
    piece: Thirteen,
    some: usize,
) -> Pending
    requires { (some ≤ 13) × Reaches (length words.old) head pending some }
    ensures { Appends words.old words.new head pending (number piece) some result }
{
    let count = pending.count;
    let packet = pending.packet;
    let moved = later(piece, count);
    let high = pending.high + moved.high;
    let low = pending.low + moved.low;
    if count + some < 13 {
        return Pending {
            high,
            low,
            count: count + some,
            packet,
        };
    }
    store(words, packet, head, high, low);
    if count == 0 {
        return Pending {
            high: 0,
            low: 0,
            count: count + some - 13,
            packet: packet + 1,
        };
    }
    let rest = earlier(piece, 13 - count);
    Pending {
        high: rest.high,
        low: rest.low,
        count: count + some - 13,
        packet: packet + 1,
    }
}

// Writes what is pending as one of so many packets.
pub fn flush(words: &mut [u32], head: u32, pending: Pending, packets: usize)
    requires { (packets < 65536) × ((4 * packets ≤ length words.old) × (head ≤ 4294967040)) }
    ensures { Flushed words.old head pending packets words.new }
{
    let packet = pending.packet;
    if packet < packets {
        store(words, packet, head, pending.high, pending.low);
    }
}

// The payload bytes of packet `packet`, after what is pending.
pub fn take_packet(words: &mut [u32], head: u32, pending: Pending, packet: usize) -> Pending
    requires packet_le_packet { (pending.packet ≤ packet) × ((4 * packet + 4 ≤ length words.old) × Reaches (length words.old) head pending 0) }
    requires packet_nonzero { (0 < count_at sysex8 words.old packet) × (count_at sysex8 words.old packet ≤ 14) }
    ensures { Appends words.old words.new head pending
        (front_of (val 13 (body words.old packet)) (size_at sysex8 words.old packet))
        (size_at sysex8 words.old packet) result }
{
    let at = 4 * packet;
    let some = layout::count_of(words[at]) as usize - 1;
    if some == 0 {
        return pending;
    }
    let bytes = load(words, packet);
    if some == 13 {
        return append(words, head, pending, bytes, 13);
    }
    append(words, head, pending, front(bytes, some), some)
}

// Lent bytes `from..to`, after what is pending.
pub(crate) fn give(
    words: &mut [u32],
    head: u32,
    pending: Pending,
    bytes: &[u8],
    from: usize,
    to: usize,
) -> Pending
    requires { (from ≤ to) × ((to ≤ length bytes.now)
        × Runs (Given (taken pending) from (to - from) bytes.now) words.old head pending (to - from)) }
    ensures { Goes (Given (taken pending) from (to - from) bytes.now)
        words.old words.new head pending (to - from) result }
{
    let mut flow = pending;
    for piece in bytes[from..to].chunks(13) {
        flow = append(words, head, flow, piece_of(piece), piece.len());
    }
    flow
}

// Whole packets that stand `lag` packets on, after bytes that wait: their number stays.
fn run_shifted(
    words: &mut [u32],
    head: u32,
    pending: Pending,
    first: usize,
    last: usize,
    lag: usize,
) -> Pending
    requires { (first ≤ last) × ((4 * (last + lag) ≤ length words.old) × ((0 < pending.count)
        × Runs (Kept head lag (13 * first) (13 * last) 0 (taken pending)) words.old head pending (13 * (last - first)))) }
    ensures { Goes (Kept head lag (13 * first) (13 * last) 0 (taken pending))
        words.old words.new head pending (13 * (last - first)) result }
{
    let count = pending.count;
    let to = pending.packet;
    let mut wait = Thirteen {
        high: pending.high,
        low: pending.low,
    };
    for step in 0..last - first {
        let bytes = load(words, first + step + lag);
        let moved = later(bytes, count);
        store(
            words,
            to + step,
            head,
            wait.high + moved.high,
            wait.low + moved.low,
        );
        wait = earlier(bytes, 13 - count);
    }
    Pending {
        high: wait.high,
        low: wait.low,
        count,
        packet: to + (last - first),
    }
}

// Whole packets that stand `lag` packets on, where no byte waits.
fn run_even(words: &mut [u32], head: u32, packet: usize, first: usize, last: usize, lag: usize)
    requires { (first ≤ last) × ((4 * (last + lag) ≤ length words.old)
        × Runs (Kept head lag (13 * first) (13 * last) 0 (taken (none packet))) words.old head (none packet) (13 * (last - first))) }
    ensures { Goes (Kept head lag (13 * first) (13 * last) 0 (taken (none packet)))
        words.old words.new head (none packet) (13 * (last - first)) (none (packet + (last - first))) }
{
    for step in 0..last - first {
        let bytes = load(words, first + step + lag);
        store(words, packet + step, head, bytes.high, bytes.low);
    }
}

// Whole packets that stand `lag` packets on, after what is pending; where they stand in their places they are left.
fn run(
    words: &mut [u32],
    head: u32,
    pending: Pending,
    first: usize,
    last: usize,
    lag: usize,
) -> Pending
    requires { (first ≤ last) × ((4 * (last + lag) ≤ length words.old)
        × Runs (Kept head lag (13 * first) (13 * last) 0 (taken pending)) words.old head pending (13 * (last - first))) }
    ensures { Goes (Kept head lag (13 * first) (13 * last) 0 (taken pending))
        words.old words.new head pending (13 * (last - first)) result }
{
    if pending.count != 0 {
        return run_shifted(words, head, pending, first, last, lag);
    }
    let packet = pending.packet;
    if packet != first + lag {
        run_even(words, head, packet, first, last, lag);
        return nothing(packet + (last - first));
    }
    nothing(packet + (last - first))
}

// Payload bytes `at..to` of a message whose packets stand `lag` packets on, after what is pending. The packet of byte `at` is given, unless
// that is its first: it may be written over already.
pub(crate) fn keep(
    words: &mut [u32],
    head: u32,
    pending: Pending,
    hand: Thirteen,
    lag: usize,
    at: usize,
    to: usize,
) -> Pending
    requires { (at ≤ to) × ((4 * ((to + 12) / 13 + lag) ≤ length words.old)
        × Runs (Kept head lag at to (number hand) (taken pending)) words.old head pending (to - at)) }
    ensures { Goes (Kept head lag at to (number hand) (taken pending))
        words.old words.new head pending (to - at) result }
{
    if at == to {
        return pending;
    }
    let byte = at % 13;
    let some = usize::min((13 - byte) % 13, to - at);
    let piece = middle(hand, byte, some);
    let mut flow = append(words, head, pending, piece, some);
    let first = (at + 12) / 13;
    if to <= 13 * first {
        return flow;
    }
    let last = usize::max(first, to / 13);
    flow = run(words, head, flow, first, last, lag);
    let rest = to.saturating_sub(13 * last);
    let tail = front_of(words, last + lag, rest);
    append(words, head, flow, tail, rest)
}
