// A table of flags, eight to a byte: flag n is bit n % 8 of byte n / 8.
ghost use Rattle.std.specs.Prelude.{◌≡◌};
ghost use Rattle.store.specs.Places.{flagged, Flags};

use crate::record::byte;

// Whether a flag is set; past the table none is.
pub fn is_flagged(table: &[u8], number: usize) -> bool
    ensures { result ≡ flagged table.now number }
{
    (byte(table, number / 8) >> (number % 8)) % 2 == 1
}

// Sets a flag; all others stay. Past the table there is none to set.
// By index: after a slice's `get_mut` a proof knows its length, and none of its elements.
pub fn flag(table: &mut [u8], number: usize)
    ensures { Flags table.old number table.new }
{
    if number / 8 < table.len() {
        table[number / 8] |= 1 << (number % 8);
    }
}
