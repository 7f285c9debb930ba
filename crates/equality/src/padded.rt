// Lists that are a front and then zeros.
ghost use Rattle.std.specs.Prelude.{◌≡◌};
ghost use Rattle.equality.specs.Tells.{Tells, Padded, PaddedBy};

// The list is this front, and then the filler everywhere; or a part of the front.
fn padded<T: Copy + PartialEq>(list: &[T], front: &[T], filler: T) -> bool
    ensures { Tells result (PaddedBy T.eq filler front.now list.now) }
{
    list.iter().enumerate().all(|(at, item)| *item == front.get(at).copied().unwrap_or(filler))
}

// The words are this front, and then zeros.
pub fn padded_words(words: &[u32], front: &[u32]) -> bool
    ensures { Tells result (Padded front.now words.now) }
{
    padded(words, front, 0)
}

// The bytes are this front, and then zeros.
pub fn padded_bytes(bytes: &[u8], front: &[u8]) -> bool
    ensures { Tells result (Padded front.now bytes.now) }
{
    padded(bytes, front, 0)
}
