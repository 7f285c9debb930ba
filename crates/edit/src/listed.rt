// Checks of a list of edits that is lent as numbers: from, to and replacement length of each.
ghost use Rattle.std.specs.Prelude.{◌≡◌, not, ◌+◌, ◌/◌, ◌^◌, ◌<◌, eqb, length, IfOk, IfErr};
ghost use Rattle.refusal.specs.Answer.{gives, pass};
ghost use Rattle.ump.specs.Edits.{lengths, some_bad, bad_list, per_edit, edit_in, edits_of};
ghost use Rattle.message.specs.Scan.{Explains};
ghost use Rattle.edit.specs.Meaning.{edit_meaning};
ghost use Rattle.edit.specs.Listed.{list_check, out_of_turn, cut_found, listed};
ghost use Rattle.refusal.specs.Meaning.{fault_of, at_start};
ghost use Rattle.splice.specs.Merging.{widths};

use crate::Edit;
use refusal::{Fault, Refusal};

// How many numbers an edit has: C lends a list as numbers end to end.
pub(crate) const NUMBERS: usize = 3;

// A list of edits that passed its checks: of a payload of `size` bytes, lent as numbers, with `bytes` replacement bytes. It takes out
// `cut` bytes.
#[derive(Clone, Copy)]
pub(crate) struct Edits<'a> {
    pub(crate) numbers: &'a [usize],
    pub(crate) size: usize,
    bytes: usize,
    cut: usize,
    ghost passed: { list_check size bytes numbers.now ≡ pass },
    ghost counted: { cut ≡ widths (edits_of numbers.now) },
}

// Edit `index` of the list.
pub(crate) fn edit_at(numbers: &[usize], index: usize) -> Edit
    requires { index < length numbers.now / per_edit }
    ensures { edit_meaning result ≡ edit_in numbers.now index }
{
    let at = NUMBERS * index;
    Edit {
        from: numbers[at],
        to: numbers[at + 1],
        length: numbers[at + 2],
    }
}

// Whether an edit is bad, or past a payload of `size` bytes.
fn some_bad(numbers: &[usize], size: usize) -> bool
    ensures { result ≡ some_bad size (edits_of numbers.now) }
{
    (0..numbers.len() / NUMBERS).any(|index| {
        let edit = edit_at(numbers, index);
        crate::is_bad(edit) || edit.to > size
    })
}

// Whether the replacement lengths come to another number than `bytes`; a length is tested before it is taken off.
fn lengths_differ(numbers: &[usize], bytes: usize) -> bool
    ensures { result ≡ not (eqb bytes (lengths (edits_of numbers.now))) }
{
    let mut left = bytes;
    for index in 0..numbers.len() / NUMBERS {
        let Some(rest) = left.checked_sub(edit_at(numbers, index).length) else {
            return true;
        };
        left = rest;
    }
    left != 0
}

// Whether an edit is bad or past a payload of `size` bytes, has more bytes than are left, or begins before the one before it ends.
fn is_out(edit: Edit, size: usize, left: usize, end: usize) -> bool
    ensures { result ≡ out_of_turn size left end (edit_meaning edit) }
{
    crate::is_bad(edit) || edit.to > size || edit.length > left || edit.from < end
}

// One walk over the edits: the bytes that they take out of a payload of `size` bytes; none if the list is refused.
fn cut_found(numbers: &[usize], size: usize, bytes: usize) -> Option<usize>
    ensures { result ≡ cut_found size bytes numbers.now }
{
    if numbers.len() % NUMBERS != 0 {
        return None;
    }
    let mut left = bytes;
    let mut end = 0;
    let mut cut = 0;
    for index in 0..numbers.len() / NUMBERS {
        let edit = edit_at(numbers, index);
        if is_out(edit, size, left, end) {
            return None;
        }
        cut += edit.to - edit.from;
        left -= edit.length;
        end = edit.to;
    }
    if left == 0 { Some(cut) } else { None }
}

// Whether the numbers are not whole edits, an edit is bad or past the payload, or the lengths are not those of the bytes.
fn is_bad_list(numbers: &[usize], size: usize, bytes: usize) -> bool
    ensures { result ≡ bad_list size bytes numbers.now }
{
    numbers.len() % NUMBERS != 0 || some_bad(numbers, size) || lengths_differ(numbers, bytes)
}

// Why a list is refused: Range, and Overlap where that is all that is wrong.
fn why(numbers: &[usize], size: usize, bytes: usize) -> Refusal
    ensures { Explains (list_check size bytes numbers.now) (at_start result) }
{
    if is_bad_list(numbers, size, bytes) {
        Refusal::Range
    } else {
        Refusal::Overlap
    }
}

impl<'a> Edits<'a> {
    // The checks of a list of edits of a payload of `size` bytes, with `bytes` replacement bytes: Range, then Overlap.
    pub(crate) fn checked(numbers: &'a [usize], size: usize, bytes: usize) -> Result<Self, Fault>
        ensures ok { IfOk result (λ edits. (edits.numbers.now ≡ numbers.entry.now) × ((edits.size ≡ size) × (edits.bytes ≡ bytes))) }
        ensures err { IfErr result (λ fault. fault_of fault ≡ list_check size bytes numbers.entry.now) }
    {
        let Some(cut) = cut_found(numbers, size, bytes) else {
            return Err(why(numbers, size, bytes).into());
        };
        Ok(Edits {
            numbers,
            size,
            bytes,
            cut,
        })
    }

    // The size of the result.
    pub(crate) fn total(&self) -> usize
        requires { self.now.size + self.now.bytes < 2 ^ 64 }
        ensures { gives result ≡ listed self.now.size self.now.bytes self.now.numbers.now }
    {
        self.size - self.cut + self.bytes
    }
}
