// What the calls answer to a store, compared with what document 02 says.
use chain::Description;
use compare::Numbered;
use equality::padded::padded_words;
use equality::words::same_words;

// The check of this store gives so many dumps.
pub fn check_gives(store: &[u8], count: usize) -> bool {
    store::check(store) == Ok(count)
}

// The check refuses this store so.
pub fn check_refuses(store: &[u8], refusal: impl Numbered) -> bool {
    compare::refuses(&store::check(store), refusal.number(), 0)
}

// The dump of this number is restored to this message, and all words lent past it are zero.
pub fn restores_in(store: &[u8], number: usize, words: &mut [u32], message: &[u32]) -> bool {
    restore::restore(store, number, words) == Ok(message.len()) && padded_words(words, message)
}

// The same, with eight words lent.
pub fn restores(store: &[u8], number: usize, message: &[u32]) -> bool {
    restores_in(store, number, &mut [9; 8], message)
}

// Restoring the dump of this number is refused so, and leaves the words.
pub fn refuses_in(
    store: &[u8],
    number: usize,
    words: &mut [u32],
    before: &[u32],
    refusal: impl Numbered,
) -> bool {
    let restored = restore::restore(store, number, words);
    compare::refuses(&restored, refusal.number(), 0) && same_words(words, before)
}

// The same, with eight words lent.
pub fn restore_refuses(store: &[u8], number: usize, refusal: impl Numbered) -> bool {
    refuses_in(store, number, &mut [9; 8], &[9; 8], refusal)
}

// Describing the dump of this number is refused so.
pub fn describe_refuses(store: &[u8], number: usize, refusal: impl Numbered) -> bool {
    compare::refuses(&chain::describe(store, number), refusal.number(), 0)
}

// The dump of this number is neither restored nor described, both for this cause.
pub fn refuses(store: &[u8], number: usize, refusal: impl Numbered) -> bool {
    restore_refuses(store, number, refusal) && describe_refuses(store, number, refusal)
}

// The store is refused so by all three calls, whatever dump is asked for.
pub fn is_unsound(store: &[u8], refusal: impl Numbered) -> bool {
    check_refuses(store, refusal) && refuses(store, 1, refusal) && refuses(store, 65536, refusal)
}

// The dump of this number is described so.
pub fn describes(store: &[u8], number: usize, expected: Description) -> bool {
    chain::describe(store, number) == Ok(expected)
}
