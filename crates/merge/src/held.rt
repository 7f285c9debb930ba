// The 13 bytes of a packet, and the bytes that wait, as two numbers, with the fact that always holds of them.
ghost use Rattle.std.specs.Prelude.{◌^◌, ◌<◌};

// The 13 bytes of a packet, as the first five and the other eight.
#[derive(Clone, Copy, Debug, PartialEq, Eq)]
pub struct Thirteen {
    pub high: u64,
    pub low: u64,
    pub ghost small: { high < 2 ^ 40 },
}

// Bytes that wait to be written, fewer than 13, at the front; the rest is zero. Packet `packet` is the next.
#[derive(Clone, Copy, Debug, PartialEq, Eq)]
pub struct Pending {
    pub high: u64,
    pub low: u64,
    pub count: usize,
    pub packet: usize,
    pub ghost fits: { high < 2 ^ 40 },
}
