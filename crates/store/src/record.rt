// Records of the store: one byte of kind, then a body whose length the kind fixes. Every reader answers for any place.
ghost use Rattle.std.specs.Prelude.{◌≡◌, ◌<◌, get_or};
ghost use Rattle.ump.specs.Word.{pair_at};
ghost use Rattle.store.specs.Store.{is_whole, is_delta, is_wanted, is_dump, is_edit, is_data, body_size};
ghost use Rattle.store.specs.Places.{Behind, HasBody};

// The byte at a place; zero past the end.
pub fn byte(store: &[u8], at: usize) -> u8
    ensures { result ≡ get_or store.now at 0 }
{
    store.get(at).copied().unwrap_or(0)
}

// Whether a record of this kind begins a whole dump: 01, and 11 where the dump is not wanted any more.
// Of the byte and no method of an enum, as for the kinds below: their public contracts speak of the byte.
pub fn is_whole(kind: u8) -> bool
    ensures { result ≡ is_whole kind }
{
    matches!(kind, 0x01 | 0x11)
}

// Whether a record of this kind begins a delta: 02, and 12 where it is not wanted any more.
pub fn is_delta(kind: u8) -> bool
    ensures { result ≡ is_delta kind }
{
    matches!(kind, 0x02 | 0x12)
}

// Whether a record of this kind begins a dump that is wanted.
pub fn is_wanted(kind: u8) -> bool
    ensures { result ≡ is_wanted kind }
{
    matches!(kind, 0x01 | 0x02)
}

// Whether a record of this kind begins a dump.
pub fn is_dump(kind: u8) -> bool
    ensures { result ≡ is_dump kind }
{
    matches!(kind, 0x01 | 0x02 | 0x11 | 0x12)
}

// Whether a record of this kind is an edit.
pub fn is_edit(kind: u8) -> bool
    ensures { result ≡ is_edit kind }
{
    kind == 0x03
}

// Whether a record of this kind is data: 81 to 8D hex.
pub fn is_data(kind: u8) -> bool
    ensures { result ≡ is_data kind }
{
    matches!(kind, 0x81..=0x8D)
}

// The bytes after the kind.
pub fn body_size(kind: u8) -> usize
    ensures { (result ≡ body_size kind) × (result < 14) }
{
    if is_data(kind) {
        return usize::from(kind) - 0x80;
    }
    4
}

// The number of two bytes at a place, highest byte first; past the end stand zeros.
// A reader by place: a store is one slice of records of several lengths, and a place may lie past its end.
pub fn number_at(store: &[u8], at: usize) -> usize
    ensures { (result ≡ pair_at store.now at) × (result < 65536) }
{
    if at < store.len() {
        return byte(store, at) as usize * 0x100 + byte(store, at + 1) as usize;
    }
    0
}

// The place behind the record at a place; past the end no record stands, and the place stays.
// The kind says a record's length, so who walks the records steps with a `while`: no range counts their places.
pub fn next(store: &[u8], at: usize) -> usize
    ensures { Behind store.now at result }
{
    if at < store.len() {
        return at + 1 + body_size(store[at]);
    }
    at
}

// How many bytes of its body a record has.
pub fn body_here(store: &[u8], at: usize) -> usize
    ensures { HasBody store.now at result }
{
    if at >= store.len() {
        return 0;
    }
    body_size(store[at]).min(store.len() - at - 1)
}
