// The grammar of the store: (01 data* | 02 (03 data*)*)*, where 11 stands for 01 and 12 for 02 as well.
ghost use Rattle.std.specs.Prelude.{◌≡◌, ◌<◌, length};
ghost use Rattle.store.specs.Store.{records_of, at_start, follows_by, allowed_by, fits, well_formed};
ghost use Rattle.store.specs.Places.{record_at};
ghost use Rattle.store.specs.Meaning.{record_kind};

use crate::record::{
    body_here, body_size, byte, is_data, is_delta, is_edit, is_whole, next, number_at,
};

// What may follow a record besides a dump: edits, no earlier than at `end`; data.
#[derive(Clone, Copy, Debug, PartialEq, Eq)]
pub struct Follow {
    pub edits: bool,
    pub bytes: bool,
    pub end: usize,
}

// What a record is, by its kind.
#[derive(Clone, Copy, Debug, PartialEq, Eq)]
enum Kind {
    Whole,
    Delta,
    Edit,
    Data,
    Other,
}

// What a record of this kind is: data and edits, which most records are, are looked for first. By tests and no match over the byte: the
// compiler made that a table of jumps, and the check of a store with edits took up to 2.8 times as long.
fn kind_of(kind: u8) -> Kind
    ensures { result ≡ record_kind kind }
{
    if is_data(kind) {
        return Kind::Data;
    }
    if is_edit(kind) {
        return Kind::Edit;
    }
    if is_whole(kind) {
        return Kind::Whole;
    }
    if is_delta(kind) {
        return Kind::Delta;
    }
    Kind::Other
}

// What may follow a record of this kind; `to` is an edit's second number. What stays is built anew, field by field: handed on whole, the
// compiler carries its padding along, and the check of a whole dump takes 15 per cent more instructions.
fn after(follow: Follow, kind: u8, to: usize) -> Follow
    ensures { result ≡ follows_by follow kind to }
{
    match kind_of(kind) {
        Kind::Whole => Follow {
            edits: false,
            bytes: true,
            end: 0,
        },
        Kind::Delta => Follow {
            edits: true,
            bytes: false,
            end: 0,
        },
        Kind::Edit => Follow {
            edits: true,
            bytes: true,
            end: to,
        },
        Kind::Data => Follow { ..follow },
        Kind::Other => Follow { ..follow },
    }
}

// Whether a record of this kind may stand here; `group` is a whole dump's, `from` an edit's first number.
fn is_allowed(follow: Follow, kind: u8, group: u8, from: usize) -> bool
    ensures { result ≡ allowed_by follow kind group from }
{
    match kind_of(kind) {
        Kind::Whole => group < 16,
        Kind::Delta => true,
        Kind::Edit => follow.edits && follow.end <= from,
        Kind::Data => follow.bytes,
        Kind::Other => false,
    }
}

// Whether the record at a place is whole and may stand here.
fn is_fit(store: &[u8], at: usize, follow: Follow) -> bool
    requires { at < length store.now }
    ensures { result ≡ fits follow (record_at store.now at) }
{
    let kind = store[at];
    if body_here(store, at) != body_size(kind) {
        return false;
    }
    is_allowed(follow, kind, byte(store, at + 3), number_at(store, at + 1))
}

// Whether the store is of this grammar.
// A `while`: the step is a record's length, which its kind says.
pub(crate) fn is_well_formed(store: &[u8]) -> bool
    ensures { result ≡ well_formed at_start (records_of store.now) }
{
    let mut follow = Follow {
        edits: false,
        bytes: false,
        end: 0,
    };
    let mut at = 0;
    while at < store.len() {
        if !is_fit(store, at, follow) {
            return false;
        }
        follow = after(follow, store[at], number_at(store, at + 3));
        at = next(store, at);
    }
    true
}
