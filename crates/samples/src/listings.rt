// Samples of listings.
use compare::lists;

// P5's first message.
pub(crate) fn p5() -> bool {
    lists(
        b"\x51\x13\x05\xA0\xA1\0\0\0\0\0\0\0\0\0\0\0\x51\x21\x05\0\0\0\0\0\0\0\0\0\0\0\0\0\x51\x32\x05\xA2\0\0\0\0\0\0\0\0\0\0\0\0",
        b"at group status count id\n0 1 start 2 05\n4 1 continue 0 05\n8 1 end 1 05\npayload 3 words 12\n",
    )
}

// P4's first five words: refused 4.
pub(crate) fn five_words() -> bool {
    lists(
        b"\x50\x1E\0\x01\x02\x03\x04\x05\x06\x07\x08\x09\x0A\x0B\x0C\x0D\x50\x31\0\0",
        b"refused 4 at 0\n",
    )
}

// A packet of another type in word 4: refused 5.
pub(crate) fn foreign() -> bool {
    lists(
        b"\x50\x11\0\0\0\0\0\0\0\0\0\0\0\0\0\0\x30\x31\0\0\0\0\0\0\0\0\0\0\0\0\0\0",
        b"refused 5 at 4\n",
    )
}
