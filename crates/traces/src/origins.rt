// Samples of where an octet comes from, compared with tables made by hand. A table has a row for each octet: H(eader), D(ump),
// E(dit), F(iller), Z(eroed), U(ntouched) or R(efused), two numbers of two digits, and a space. The numbers are packet and octet, 0
// and byte, edit and byte, or refusal and place.
use compare::MESSAGE;
use edit::OctetOrigin;
use refusal::Fault;

// How many characters a row has.
const WIDTH: usize = 6;

// The edits of P8: 0..1 by two bytes, 2..3 by nothing.
const EDITS: [usize; 6] = [0usize, 1, 2, 2, 3, 0];

// The letter and the two numbers of an origin.
fn parts(origin: Result<OctetOrigin, Fault>) -> (u8, usize, usize) {
    match origin {
        Ok(OctetOrigin::Header(header)) => (b'H', header.packet, header.octet),
        Ok(OctetOrigin::Dump(byte)) => (b'D', 0, byte),
        Ok(OctetOrigin::Edit(edit)) => (b'E', edit.edit, edit.byte),
        Ok(OctetOrigin::Filler) => (b'F', 0, 0),
        Ok(OctetOrigin::Zeroed) => (b'Z', 0, 0),
        Ok(OctetOrigin::Untouched) => (b'U', 0, 0),
        Err(fault) => (b'R', refusal::number(fault.refusal) as usize, fault.place),
    }
}

// A decimal digit; a question mark for a number that is none.
fn digit(value: usize) -> u8 {
    if value < 10 { b'0' + value as u8 } else { b'?' }
}

// An origin is the one that this row says.
fn is_row(origin: Result<OctetOrigin, Fault>, row: &[u8]) -> bool {
    let (kind, number, index) = parts(origin);
    let text: [u8; WIDTH] = [
        kind,
        digit(number / 10),
        digit(number % 10),
        digit(index / 10),
        digit(index % 10),
        b' ',
    ];
    row == text.as_slice()
}

// The octets from `first` on come from where the table says.
fn agrees(
    words: &[u32],
    length: usize,
    numbers: &[usize],
    bytes: &[u8],
    first: u16,
    table: &[u8],
) -> bool {
    for (at, row) in table.chunks(WIDTH).enumerate() {
        let octet = first as usize + at;
        if !is_row(edit::origin(words, length, numbers, bytes, octet), row) {
            return false;
        }
    }
    true
}

// The octets from `first` on, of P2's message with 10..1C put in at 1, in these words.
fn put_in(words: &[u32], first: u16, table: &[u8]) -> bool {
    let bytes = b"\x10\x11\x12\x13\x14\x15\x16\x17\x18\x19\x1A\x1B\x1C";
    agrees(words, 4, &[1, 1, 13], bytes, first, table)
}

// The octets from `first` on, of a message of this length in these words with P8's edits.
fn edited(words: &[u32], length: usize, first: u16, table: &[u8]) -> bool {
    agrees(words, length, &EDITS, b"\xB0\xB1", first, table)
}

// The octets of P5's message with these edits.
fn listed(numbers: &[usize], bytes: &[u8], table: &[u8]) -> bool {
    agrees(&MESSAGE, 12, numbers, bytes, 0, table)
}

// 521E0741 10111213 14151617 18191A1B 5233071C 42000000 0 0, and the end of the words.
pub(crate) fn p6() -> bool {
    let words = [0x5203_0741u32, 0x4200_0000, 0, 0, 9, 9, 9, 9];
    put_in(
        &words,
        0,
        b"H0000 H0001 H0002 D0000 E0000 E0001 E0002 E0003 E0004 E0005 E0006 E0007 E0008 E0009 E0010 E0011 ",
    ) && put_in(
        &words,
        16,
        b"H0100 H0101 H0102 E0012 D0001 F0000 F0000 F0000 F0000 F0000 F0000 F0000 F0000 F0000 F0000 F0000 R1300 ",
    )
}

// 510405B0 B1A10000 0 0 in twelve words: the message, then zeroed up to the end of the words.
pub(crate) fn p8() -> bool {
    edited(
        &MESSAGE,
        12,
        0,
        b"H0000 H0001 H0002 E0000 E0001 D0001 F0000 F0000 F0000 F0000 F0000 F0000 F0000 F0000 F0000 F0000 Z0000 ",
    ) && edited(&MESSAGE, 12, 47, b"Z0000 R1300 ")
}

// 510605A0 C0C1A1A2 0 0: of two edits at one place the first comes first.
pub(crate) fn p9() -> bool {
    listed(
        &[1, 1, 1, 1, 1, 1],
        b"\xC0\xC1",
        b"H0000 H0001 H0002 D0000 E0000 E0100 D0001 D0002 F0000 ",
    )
}

// P8 with four words more lent: they are untouched, and behind them no octet is lent, however large its index.
pub(crate) fn behind() -> bool {
    let words = [
        0x5113_05A0u32,
        0xA100_0000,
        0,
        0,
        0x5121_0500,
        0,
        0,
        0,
        0x5132_05A2,
        0,
        0,
        0,
        9,
        9,
        9,
        9,
    ];
    let last = edit::origin(&words, 12, &EDITS, b"\xB0\xB1", usize::MAX);
    edited(&words, 12, 47, b"Z0000 U0000 ")
        && edited(&words, 12, 63, b"U0000 R1300 ")
        && is_row(last, b"R1300 ")
}

// P5's message said to have another length: 2, 3, 4, and cut off 6, 9 at 4.
pub(crate) fn lengths() -> bool {
    edited(&MESSAGE, 13, 0, b"R0200 ")
        && edited(&MESSAGE, 3, 0, b"R0300 ")
        && edited(&MESSAGE, 5, 0, b"R0400 ")
        && edited(&MESSAGE, 4, 0, b"R0600 ")
        && edited(&MESSAGE, 8, 0, b"R0904 ")
}

// The octets of a message of two packets, of these first words, with P8's edits.
fn of_two(first: u32, second: u32, table: &[u8]) -> bool {
    edited(&[first, 0, 0, 0, second, 0, 0, 0], 8, 0, table)
}

// P5's message with an inner end: 8 at 4. Messages of two packets: 5 at 4, 7, 10 at 4, 11 at 4, 12 at 4.
pub(crate) fn messages() -> bool {
    let mut words = MESSAGE;
    words[4] = 0x5131_0500;
    edited(&words, 12, 0, b"R0804 ")
        && of_two(0x5011_0000, 0x3031_0000, b"R0504 ")
        && of_two(0x5001_0000, 0x5031_0000, b"R0700 ")
        && of_two(0x5011_0000, 0x5030_0000, b"R1004 ")
        && of_two(0x5011_0000, 0x5131_0000, b"R1104 ")
        && of_two(0x5011_0000, 0x5031_0100, b"R1204 ")
}

// More than 16,384 words lent: 1.
pub(crate) fn long() -> bool {
    let words = [0u32; 16385];
    edited(&words, 4, 0, b"R0100 ")
}

// Edits are refused 13: reversed, past the payload, bytes that are not the sum, numbers that are not whole edits; overlapping ones 20.
pub(crate) fn edits() -> bool {
    listed(&[2, 1, 0], b"", b"R1300 ")
        && listed(&[0, 4, 0], b"", b"R1300 ")
        && listed(&EDITS, b"\xB0", b"R1300 ")
        && listed(&[0, 1], b"", b"R1300 ")
        && listed(&[0, 2, 2, 1, 3, 0], b"\xB0\xB1", b"R2000 ")
}

// P7, 7 words lent: 14, also for an octet that is not lent.
pub(crate) fn p7() -> bool {
    let words = [0x5203_0741u32, 0x4200_0000, 0, 0, 9, 9, 9];
    put_in(&words, 0, b"R1400 ") && put_in(&words, 28, b"R1400 ")
}
