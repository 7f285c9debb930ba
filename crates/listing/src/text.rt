// A text of at most ROOM bytes, written from its beginning on.
ghost use Rattle.std.specs.Prelude.{◌≡◌, ℕ, ◌+◌, ◌≤◌, ◌<◌, List, [], ◌∷◌, ◌++◌, length, take};
ghost use Rattle.listing.specs.Listing.{decimal, number, hex_digit, id_end};

use std::marker::Model;

#[derive(Drop)]
pub(crate) struct Text<const ROOM: usize> {
    bytes: [u8; ROOM],
    size: usize,
}

// Clauses see the bytes that were written.
impl<const ROOM: usize> Model for Text<ROOM> {
    ghost Value = { List ℕ };

    ghost view = { λ t. take t.size t.bytes };

    ghost invariant = { λ t. t.size ≤ ROOM };
}

impl<const ROOM: usize> Text<ROOM> {
    // A text of which nothing is written.
    pub(crate) fn new() -> Self
        ensures { result ≡ [] }
    {
        Text {
            bytes: [0; ROOM],
            size: 0,
        }
    }

    // The bytes that were written.
    pub(crate) fn as_slice(&self) -> &[u8]
        ensures { result.now ≡ self.now }
    {
        &self.bytes[..self.size]
    }

    // Writes a byte.
    fn put_byte(&mut self, byte: u8)
        requires { length self.old < ROOM }
        ensures { self.new ≡ self.old ++ byte ∷ [] }
    {
        self.bytes[self.size] = byte;
        self.size += 1;
    }

    // Writes these bytes.
    pub(crate) fn put(&mut self, piece: &[u8])
        requires { length self.old + length piece.now ≤ ROOM }
        ensures { self.new ≡ self.old ++ piece.now }
    {
        let end = self.size + piece.len();
        let bytes = &mut self.bytes[..];
        bytes[self.size..end].copy_from_slice(piece);
        self.size = end;
    }

    // Writes the decimal digits of a number, 20 at most.
    fn put_decimal(&mut self, value: usize)
        requires { length self.old + length (decimal value) ≤ ROOM }
        ensures { self.new ≡ self.old ++ decimal value }
    {
        let mut digits = [0u8; 20];
        let size = store_digits(value, &mut digits);
        self.put(&digits[..size]);
    }

    // Writes a number in decimal, and the character after it.
    #[tactic(auto, using(std::proofs::Common::append_assoc), unfolding(crate::specs::Listing::number))]
    pub(crate) fn put_number(&mut self, value: usize, after: u8)
        requires { length self.old + length (number value after) ≤ ROOM }
        ensures { self.new ≡ self.old ++ number value after }
    {
        self.put_decimal(value);
        self.put_byte(after);
    }

    // Writes a stream id as two hex digits, and the end of its line.
    #[tactic(auto, unfolding(crate::specs::Listing::id_end))]
    pub(crate) fn put_id(&mut self, id: u8)
        requires { length self.old + length (id_end id) ≤ ROOM }
        ensures { self.new ≡ self.old ++ id_end id }
    {
        self.put(&[hex_digit(id / 16), hex_digit(id % 16), b'\n']);
    }
}

// Stores the decimal digits of a number at the front of what is lent; answers how many there are.
// By hand: `fmt::Write` may answer an error on any input, and `list` promises the whole text.
fn store_digits(value: usize, digits: &mut [u8]) -> usize
    requires { length (decimal value) ≤ length digits.old }
    ensures { (result ≡ length (decimal value)) × (take result digits.new ≡ decimal value) }
{
    if value < 10 {
        digits[0] = b'0' + value as u8;
        return 1;
    }
    let size = store_digits(value / 10, digits);
    digits[size] = b'0' + (value % 10) as u8;
    size + 1
}

// A hex digit: 0 to 9, A to F.
fn hex_digit(digit: u8) -> u8
    requires { digit < 16 }
    ensures { result ≡ hex_digit digit }
{
    if digit < 10 {
        b'0' + digit
    } else {
        b'A' + (digit - 10)
    }
}
