// The first words of a message's packets, changed.
ghost use Rattle.std.specs.Prelude.{◌≡◌, ℕ, get_or, ◌*◌, ◌<◌};
ghost use Rattle.ump.specs.Packet.{sysex8};
ghost use Rattle.ump.specs.Setters.{on_heads};
ghost use Rattle.message.specs.Scan.{Inside};

// Changes the first word of each packet of a SysEx8 message.
pub(crate) fn set_heads<C: Fn(u32) -> u32>(words: &mut [u32], packets: usize, change: C)
    requires inside { Inside 4 packets words.old }
    requires callable { C.IsAlwaysCallable change }
    ensures { (head : ℕ → ℕ) → ((word changed : ℕ) → C.post change word changed → changed ≡ head word)
        → words.new ≡ on_heads sysex8 head words.old packets }
{
    for packet in 0..packets {
        words[4 * packet] = change(words[4 * packet]);
    }
}
