// How many words are lent: a sixteenth for each stream, rounded down, and the output.
use arrival_desk::Desk;
use refusal::Refusal;

// 128 words: start and continue fill the part of 8, one more continue is Room; the end needs no words, and hands out 12.
pub fn exact() -> bool {
    let mut desk = Desk::new();
    desk.keep(0, 0x501E_0941);
    desk.keep(0, 0x502E_0942);
    desk.refuse(0, 0x502E_0943, Refusal::Room);
    desk.refuse(0, 0x5021_0900, Refusal::Room);
    desk.end(0, &[0x501E_0941, 0x502E_0942], 0x503E_0944);
    desk.right
}

// 64 words: a start fills the part of 4, and a continue is Room; the end hands out 8.
pub fn smallest() -> bool {
    let mut desk = Desk::new();
    desk.lent = 64;
    desk.keep(0, 0x501E_0941);
    desk.refuse(0, 0x502E_0942, Refusal::Room);
    desk.end(0, &[0x501E_0941], 0x503E_0943);
    desk.right
}

// 127 words: parts of 7; a continue does not fit.
pub fn rounded() -> bool {
    let mut desk = Desk::new();
    desk.lent = 127;
    desk.keep(0, 0x501E_0941);
    desk.keep(1, 0x501E_0941);
    desk.refuse(0, 0x502E_0942, Refusal::Room);
    desk.refuse(1, 0x502E_0942, Refusal::Room);
    desk.end_one(1, 0x501E_0941);
    desk.end_one(0, 0x501E_0941);
    desk.right
}

// 63 words, 15 and none: a start is Room, a complete packet is handed out.
pub fn too_few() -> bool {
    let mut desk = Desk::new();
    desk.lent = 63;
    desk.refuse(0, 0x501E_0941, Refusal::Room);
    desk.complete(0, 0x500E_0941);
    desk.lent = 15;
    desk.refuse(0, 0x501E_0941, Refusal::Room);
    desk.complete(1, 0x500E_0942);
    desk.lent = 0;
    desk.refuse(1, 0x501E_0941, Refusal::Room);
    desk.complete(0, 0x500E_0943);
    desk.refuse(0, 0x502E_0941, Refusal::Closed);
    desk.right
}

// A start that is refused for Room does not touch the open stream of its key.
pub fn restart_without_room() -> bool {
    let mut desk = Desk::new();
    desk.keep(0, 0x501E_0941);
    desk.keep(0, 0x502E_0942);
    desk.lent = 63;
    desk.refuse(0, 0x501E_0951, Refusal::Room);
    desk.lent = 128;
    desk.end(0, &[0x501E_0941, 0x502E_0942], 0x503E_0943);
    desk.right
}

// Output one word short, and none: Room, and the stream stays; then it is handed out to an output that is just long enough, and so is a
// complete packet.
pub fn output_short() -> bool {
    let mut desk = Desk::new();
    desk.keep(0, 0x501E_0941);
    desk.room = 7;
    desk.refuse(0, 0x503E_0942, Refusal::Room);
    desk.room = 0;
    desk.refuse(0, 0x503E_0942, Refusal::Room);
    desk.keep(0, 0x502E_0943);
    desk.room = 11;
    desk.refuse(0, 0x503E_0942, Refusal::Room);
    desk.room = 12;
    desk.end(0, &[0x501E_0941, 0x502E_0943], 0x503E_0942);
    desk.room = 4;
    desk.complete(0, 0x500E_0944);
    desk.right
}

// The output with a message of two packets at its front, and then with a complete packet there.
const TWO: [u32; 16] = [
    0x501E_0901u32,
    2,
    3,
    4,
    0x503E_0905,
    6,
    7,
    8,
    9,
    9,
    9,
    9,
    9,
    9,
    9,
    9,
];

const ONE: [u32; 16] = [
    0x500E_0911u32,
    12,
    13,
    14,
    0x503E_0905,
    6,
    7,
    8,
    9,
    9,
    9,
    9,
    9,
    9,
    9,
    9,
];

// The output past what is handed out stays, also where an earlier message stands.
pub fn output_stays() -> bool {
    let mut desk = Desk::new();
    desk.keep_words(0, &[0x501E_0901, 2, 3, 4]);
    desk.hand_out(0, &[0x503E_0905, 6, 7, 8], 8, TWO);
    desk.hand_out(1, &[0x500E_0911, 12, 13, 14], 4, ONE);
    desk.right
}
