// Lists of words.
ghost use Rattle.std.specs.Prelude.{◌≡◌};
ghost use Rattle.equality.specs.Tells.{Tells};

// The words are the ones expected.
pub fn same_words(words: &[u32], expected: &[u32]) -> bool
    ensures { Tells result (words.now ≡ expected.now) }
{
    words == expected
}
