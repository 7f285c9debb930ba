// Samples of one byte of a dump of a store. Dump 1 is whole: group 2, stream id 7, data 41 42, each in a record of its own. Delta 2 is over
// dump 1, 1..1 by 43; delta 3 is over delta 2, 0..1 by nothing and 44 45 put in at its end: 43 42 44 45.

// The byte at a position of a dump of that store.
fn gives(number: usize, position: usize, value: u8) -> bool {
    let store =
        b"\x02\x00\x02\x00\x01\x03\x00\x01\x00\x01\x81\x43\x01\x00\x01\x02\x07\x81\x41\x81\x42\x02\x00\x03\x00\x02\x03\x00\x00\x00\x01\x03\x00\x03\x00\x03\x82\x44\x45";
    compare::is_byte(look_store::byte(store, number, position), value)
}

// It is refused with this number.
fn refuses(store: &[u8], number: usize, position: usize, refusal: u8) -> bool {
    let read = look_store::byte(store, number, position);
    read.is_err_and(|fault| compare::is_fault(fault, refusal, 0))
}

// Bytes of the whole dump, of a delta and of a delta on it.
pub fn each() -> bool {
    gives(1, 1, 0x42)
        && gives(2, 0, 0x41)
        && gives(2, 1, 0x43)
        && gives(2, 2, 0x42)
        && gives(3, 0, 0x43)
        && gives(3, 1, 0x42)
        && gives(3, 3, 0x45)
}

// The position behind the last byte, the largest; a number not held, a base not held, a ring, an edit past its base.
pub fn refused() -> bool {
    let whole = b"\x01\x00\x01\x02\x07\x82\x41\x42";
    refuses(whole, 1, 2, 13)
        && refuses(whole, 1, usize::MAX, 13)
        && refuses(whole, 2, 0, 24)
        && refuses(b"\x02\x00\x02\x00\x01", 2, 9, 24)
        && refuses(b"\x02\x00\x02\x00\x02", 2, 9, 25)
        && refuses(
            b"\x01\x00\x01\x02\x07\x82\x41\x42\x02\x00\x02\x00\x01\x03\x00\x02\x00\x03",
            2,
            0,
            13,
        )
}

// Format, Twice, of a dump off the walk too; the empty store has no dump.
pub fn unsound() -> bool {
    refuses(b"\x01\x00\x01\x02\x07\x82\x41\x42\x04", 1, 0, 21)
        && refuses(
            b"\x01\x00\x01\x02\x07\x82\x41\x42\x02\x00\x02\x00\x01\x02\x00\x02\x00\x01",
            1,
            9,
            22,
        )
        && refuses(b"", 1, 0, 24)
}
