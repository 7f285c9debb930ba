// The check of a message of either type, as loops over the first words of its packets.
ghost use Rattle.std.specs.Prelude.{◌≡◌, ℕ, Bool, not, ◌<◌, ◌==◌};
ghost use Rattle.ump.specs.Word.{nibble};
ghost use Rattle.ump.specs.Packing.{status_for};
ghost use Rattle.ump.specs.Check.{status_number, sweep, check_packets};
ghost use Rattle.refusal.specs.Meaning.{answer_of};
ghost use Rattle.refusal.specs.Answer.{guard};
ghost use Rattle.message.specs.Scan.{Inside, judged, Judges, framed, mask_of, faulty, in_order, size_found};

use layout::Format;
use refusal::{Fault, Refusal};

// How many packets a message has: Long, Length, Short, Ragged.
fn packets_of<F: Format>(lent: usize, length: usize) -> Result<usize, Fault>
    ensures { answer_of result ≡ framed F.shape lent length }
{
    if lent > layout::MOST_WORDS {
        return Err(Refusal::Long.into());
    }
    if length > lent {
        return Err(Refusal::Length.into());
    }
    if length < F::WORDS {
        return Err(Refusal::Short.into());
    }
    if length % F::WORDS != 0 {
        return Err(Refusal::Ragged.into());
    }
    Ok(length / F::WORDS)
}

// Complete, Begin, Continue, End: what is wrong with the status of packet `packet`, by its first word.
fn status_refusal(word: u32, packets: usize, packet: usize) -> Option<Refusal>
    ensures { judged result ≡ guard (not (nibble word 2 == status_for packets packet)) (status_number packets packet) 0 }
{
    let status = layout::status_for(packets, packet);
    if layout::status_of(word) == status {
        return None;
    }
    match status {
        0 => Some(Refusal::Complete),
        1 => Some(Refusal::Begin),
        2 => Some(Refusal::Continue),
        _ => Some(Refusal::End),
    }
}

// One walk of the check: the refusal of the first packet that is judged to be at fault, by its first word and its number. That packet
// ends the walk, by the label that 01 asks for at this place.
fn sweep<F: Format, J: Fn(u32, usize) -> Option<Refusal>>(
    words: &[u32],
    packets: usize,
    judge: J,
) -> Result<(), Fault>
    requires inside { Inside F.shape.words packets words.now }
    requires callable { J.IsAlwaysCallable judge }
    ensures { (number : ℕ → ℕ) (bad : ℕ → Bool) → Judges F.shape (J.post judge) number bad words.now packets
        → answer_of result ≡ sweep F.shape number bad packets }
{
    let mut fault = Ok(());
    'packets: for packet in 0..packets {
        let place = F::WORDS * packet;
        if let Some(refusal) = judge(words[place], packet) {
            fault = Err(Fault { refusal, place });
            break 'packets;
        }
    }
    fault
}

// What the packets of a message share, and the status: type, group and status, and the stream id where there is one.
fn mask_of<F: Format>() -> u32
    ensures { result ≡ mask_of F.shape }
{
    0xFFF0_0000 + F::IDS as u32 * 0xFF00
}

// The check of the packets: Type; Complete, Begin, Continue and End in one walk; Count; Group; Stream.
fn check_packets<F: Format>(words: &[u32], packets: usize) -> Result<(), Fault>
    requires { Inside F.shape.words packets words.now × (0 < packets) }
    ensures { answer_of result ≡ check_packets F.shape words.now packets }
{
    let first = words[0];
    let most = F::ROOM + F::BIAS;
    let mask = mask_of::<F>();
    sweep::<F, _>(words, packets, |word, _| {
        (layout::type_of(word) != F::TYPE).then_some(Refusal::Type)
    })?;
    sweep::<F, _>(words, packets, |word, packet| {
        status_refusal(word, packets, packet)
    })?;
    sweep::<F, _>(words, packets, |word, _| {
        let count = layout::count_of(word) as usize;
        (count < F::BIAS || most < count).then_some(Refusal::Count)
    })?;
    sweep::<F, _>(words, packets, |word, _| {
        (layout::group_of(word) != layout::group_of(first)).then_some(Refusal::Group)
    })?;
    sweep::<F, _>(words, packets, |word, _| {
        ((word & mask) % 0x1_0000 != (first & mask) % 0x1_0000).then_some(Refusal::Stream)
    })
}

// Whether a first word is at fault: what the mask keeps of it is not the wanted number, or its count is out of range.
fn at_fault<F: Format>(word: u32, wanted: u32) -> bool
    ensures { result ≡ faulty F.shape wanted word }
{
    let count = layout::count_of(word) as usize;
    word & mask_of::<F>() != wanted || count < F::BIAS || F::ROOM + F::BIAS < count
}

// The payload size of packets that are all in order. One pass that gathers faults and counts, with no way out of its loop; the first
// packet and the last, which have another status, are looked at apart.
fn in_order<F: Format>(words: &[u32], packets: usize) -> Option<usize>
    requires { Inside F.shape.words packets words.now × (0 < packets) }
    ensures { result ≡ in_order F.shape words.now packets }
{
    let first = words[0];
    let base = F::TYPE as u32 * 0x1000_0000
        + layout::group_of(first) as u32 * 0x100_0000
        + (first & mask_of::<F>()) % 0x1_0000;
    let status = layout::status_for(packets, 0) as u32;
    if at_fault::<F>(first, base + status * 0x10_0000) {
        return None;
    }
    let mut counts = layout::count_of(first) as u32;
    let last = packets - 1;
    if last == 0 {
        return Some(counts as usize - F::BIAS);
    }
    let end = words[F::WORDS * last];
    let mut bad = at_fault::<F>(end, base + 0x30_0000);
    counts += layout::count_of(end) as u32;
    for packet in 1..last {
        let word = words[F::WORDS * packet];
        bad |= at_fault::<F>(word, base + 0x20_0000);
        counts += layout::count_of(word) as u32;
    }
    if bad {
        return None;
    }
    Some(counts as usize - F::BIAS * packets)
}

// The payload size of the message in the first `length` of the words lent: the refusals of the check, each over all packets before the
// next. They are looked for only where the packets are not all in order.
pub(crate) fn size_found<F: Format>(words: &[u32], length: usize) -> Result<usize, Fault>
    ensures { answer_of result ≡ size_found F.shape words.now length }
{
    let packets = packets_of::<F>(words.len(), length)?;
    match in_order::<F>(words, packets) {
        Some(size) => Ok(size),
        None => Err(check_packets::<F>(words, packets).unwrap_err()),
    }
}
