// Messages that interleave.
use arrival_desk::Desk;
use compare::MESSAGE;

// What is handed out of P5's message, and of the other port's with the same group and stream id.
const FIRST: [u32; 16] = [
    0x5113_05A0u32,
    0xA100_0000,
    0,
    0,
    0x5121_0500,
    0,
    0,
    0,
    0x5132_05A2,
    0,
    0,
    0,
    9,
    9,
    9,
    9,
];

const SECOND: [u32; 16] = [
    0x511E_0501u32,
    0x0203_0405,
    0x0607_0809,
    0x0A0B_0C0D,
    0x512E_050E,
    0x0F10_1112,
    0x1314_1516,
    0x1718_191A,
    0x5132_051B,
    0x1C1D_1E1F,
    0x2021_2223,
    0x2425_2627,
    9,
    9,
    9,
    9,
];

// Two messages of the two ports, with the same group and stream id, packet by packet; one is P5's.
pub fn two_ports() -> bool {
    let mut desk = Desk::new();
    desk.keep_words(0, &MESSAGE[..4]);
    desk.keep_words(1, &SECOND[..4]);
    desk.keep_words(0, &MESSAGE[4..8]);
    desk.keep_words(1, &SECOND[4..8]);
    desk.hand_out(0, &MESSAGE[8..], 12, FIRST);
    desk.hand_out(1, &SECOND[8..12], 12, SECOND);
    desk.right
}

// Two messages of one port with two stream ids, packet by packet.
pub fn two_ids() -> bool {
    let mut desk = Desk::new();
    desk.keep(0, 0x501E_0941);
    desk.keep(0, 0x501E_0A51);
    desk.keep(0, 0x502E_0942);
    desk.keep(0, 0x502E_0A52);
    desk.end(0, &[0x501E_0941, 0x502E_0942], 0x503E_0943);
    desk.end(0, &[0x501E_0A51, 0x502E_0A52], 0x503E_0A53);
    desk.right
}

// Two messages of one port with two groups, packet by packet; the second ends first.
pub fn two_groups() -> bool {
    let mut desk = Desk::new();
    desk.keep(1, 0x501E_0941);
    desk.keep(1, 0x5F1E_0951);
    desk.keep(1, 0x502E_0942);
    desk.keep(1, 0x5F2E_0952);
    desk.end(1, &[0x5F1E_0951, 0x5F2E_0952], 0x5F3E_0953);
    desk.end(1, &[0x501E_0941, 0x502E_0942], 0x503E_0943);
    desk.right
}

// 16 streams of two ports, 12 and 4, are open; all are ended.
pub fn sixteen() -> bool {
    let mut desk = Desk::new();
    desk.start_sixteen();
    desk.end_four(1, 0x501E_0041);
    desk.end_four(0, 0x501E_0841);
    desk.end_four(0, 0x501E_0041);
    desk.end_four(0, 0x501E_0441);
    desk.right
}

// 16 streams, 8 and 8, each fills its part; all are ended.
pub fn sixteen_full() -> bool {
    let mut desk = Desk::new();
    desk.start_four(0, 0x501E_0041);
    desk.start_four(1, 0x501E_0051);
    desk.start_four(0, 0x521E_0061);
    desk.start_four(1, 0x521E_0071);
    desk.continue_four(1, 0x521E_0071);
    desk.continue_four(0, 0x501E_0041);
    desk.continue_four(0, 0x521E_0061);
    desk.continue_four(1, 0x501E_0051);
    desk.end_continued_four(0, 0x521E_0061);
    desk.end_continued_four(1, 0x501E_0051);
    desk.end_continued_four(1, 0x521E_0071);
    desk.end_continued_four(0, 0x501E_0041);
    desk.right
}
