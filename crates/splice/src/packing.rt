// The fewest-packet form.
ghost use Rattle.std.specs.Prelude.{◌≡◌, ◌≤◌, length};
ghost use Rattle.ump.specs.Packet.{sysex8};
ghost use Rattle.ump.specs.Packing.{words_for};
ghost use Rattle.ump.specs.Check.{payload_of};
ghost use Rattle.ump.specs.Splice.{rewritten};
ghost use Rattle.message.specs.Accepted.{Accepted};
ghost use Rattle.splice.specs.Header.{finished};
ghost use Rattle.splice.specs.Zeros.{zeroed};

use super::header::{base_of, head, inner_head, put_head};
use super::sysex8::words_needed;
use merge::pending::{flush, nothing, take_packet};

// Zeroes the words from `from` up to `to`.
pub(crate) fn zero(words: &mut [u32], from: usize, to: usize)
    requires { (from ≤ length words.old) × (to ≤ length words.old) }
    ensures { words.new ≡ zeroed words.old from to }
{
    words[from..to.max(from)].fill(0);
}

// Makes the first words of the first and the last packet of a message of `size` bytes in `end` words anew, each with its byte, and zeroes
// the words behind it up to the old end.
pub(crate) fn finish(words: &mut [u32], base: u32, size: usize, end: usize, old: usize)
    requires { (base ≤ 4278255360) × ((end ≡ words_for sysex8 size) × ((end ≤ length words.old) × (old ≤ length words.old))) }
    ensures { words.new ≡ finished base size words.old end old }
{
    let packets = end / 4;
    put_head(words, head(base, size, packets, 0), 0);
    put_head(words, head(base, size, packets, packets - 1), end - 4);
    zero(words, end, old);
}

// Rewrites a valid message of `size` payload bytes in fewest-packet form, packet by packet, and answers its new length.
pub(crate) fn pack(words: &mut [u32], length: usize, size: usize) -> usize
    requires { Accepted words.old length size }
    ensures { (result ≡ words_for sysex8 size)
        × (words.new ≡ rewritten sysex8 words.old length (payload_of sysex8 words.old length)) }
{
    let base = base_of(words[0]);
    let head = inner_head(base);
    let end = words_needed(size);
    let packets = length / 4;
    let mut flow = nothing(0);
    for packet in 0..packets {
        flow = take_packet(words, head, flow, packet);
    }
    flush(words, head, flow, end / 4);
    finish(words, base, size, end, length);
    end
}
