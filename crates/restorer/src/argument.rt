// The number of a dump in decimal digits.
ghost use Rattle.std.specs.Prelude.{◌≡◌, true, ◌≤◌};
ghost use Rattle.restorer.specs.Argument.{is_digit, with_digit, number_in};

// The number with one digit more; above 65,535 it is 65,536.
fn with_digit(number: usize, byte: u8) -> usize
    requires { (number ≤ 65536) × (is_digit byte ≡ true) }
    ensures { result ≡ with_digit number byte }
{
    (10 * number + (byte - b'0') as usize).min(65536)
}

// The number of a text of digits, one or more.
pub(crate) fn number_in(digits: &[u8]) -> Option<usize>
    ensures { result ≡ number_in digits.now }
{
    if digits.is_empty() {
        return None;
    }
    let mut number = 0;
    for byte in digits {
        if !byte.is_ascii_digit() {
            return None;
        }
        number = with_digit(number, *byte);
    }
    Some(number)
}
