// The answer of restoring: a payload in fewest-packet form, all lent words past it zero.
ghost use Rattle.std.specs.Prelude.{◌≡◌, ◌<◌, ◌≤◌, length};
ghost use Rattle.ump.specs.Packet.{sysex8};
ghost use Rattle.ump.specs.Packing.{words_for};
ghost use Rattle.ump.specs.Limits.{most_words};
ghost use Rattle.chain.specs.Restore.{laid_out};

// Writes a payload in fewest-packet form, with zeros behind it: an empty message, whose payload is then set.
pub(crate) fn put(words: &mut [u32], group: u8, id: u8, bytes: &[u8]) -> usize
    requires { (group < 16) × ((length words.old ≤ most_words) × (words_for sysex8 (length bytes.now) ≤ length words.old)) }
    ensures { (result ≡ words_for sysex8 (length bytes.now))
        × (words.new ≡ laid_out (length words.old) (record { group = group; id = id; bytes = bytes.now })) }
{
    words.fill(0);
    words[0] = layout::first_word(5, group, 0, 1, id);
    splice::sysex8::set_payload(words, 4, bytes).unwrap();
    splice::sysex8::words_needed(bytes.len())
}
