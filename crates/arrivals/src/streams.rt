// What each kind of packet does to the stream of its key.
use arrival_desk::Desk;
use refusal::Refusal;

// A start begins an open stream afresh, also where a slot before it is free: its old packets are not handed out, and their words are free.
pub fn restart() -> bool {
    let mut desk = Desk::new();
    desk.keep(0, 0x501E_0841);
    desk.keep(0, 0x501E_0941);
    desk.keep(0, 0x502E_0942);
    desk.refuse(0, 0x502E_0943, Refusal::Room);
    desk.keep(0, 0x501E_0951);
    desk.keep(0, 0x502E_0952);
    desk.refuse(0, 0x502E_0953, Refusal::Room);
    desk.end(0, &[0x501E_0841], 0x503E_0842);
    desk.keep(0, 0x501E_0961);
    desk.keep(0, 0x502E_0962);
    desk.end(0, &[0x501E_0961, 0x502E_0962], 0x503E_0963);
    desk.refuse(0, 0x503E_0963, Refusal::Closed);
    desk.right
}

// A complete packet is handed out and closes the open stream of its key; those of another port, group and stream id stay.
pub fn complete_closes() -> bool {
    let mut desk = Desk::new();
    desk.keep(0, 0x501E_0941);
    desk.keep(1, 0x501E_0951);
    desk.keep(0, 0x511E_0961);
    desk.keep(0, 0x501E_0A71);
    desk.complete(0, 0x500E_0942);
    desk.refuse(0, 0x502E_0943, Refusal::Closed);
    desk.refuse(0, 0x503E_0943, Refusal::Closed);
    desk.end(0, &[0x501E_0A71], 0x503E_0A72);
    desk.end(0, &[0x511E_0961], 0x513E_0962);
    desk.end(1, &[0x501E_0951], 0x503E_0952);
    desk.right
}

// A complete packet without a stream is handed out, and opens none.
pub fn complete_alone() -> bool {
    let mut desk = Desk::new();
    desk.complete(0, 0x500E_0941);
    desk.complete(1, 0x5F01_FF00);
    desk.refuse(0, 0x502E_0942, Refusal::Closed);
    desk.refuse(1, 0x5F3E_FF42, Refusal::Closed);
    desk.right
}

// A complete packet with 3 words of output, and with none: Room. The stream of its key stays open, and goes on.
pub fn complete_without_room() -> bool {
    let mut desk = Desk::new();
    desk.keep(0, 0x501E_0941);
    desk.room = 3;
    desk.refuse(0, 0x500E_0942, Refusal::Room);
    desk.refuse(0, 0x500E_0A42, Refusal::Room);
    desk.room = 0;
    desk.refuse(0, 0x500E_0942, Refusal::Room);
    desk.keep(0, 0x502E_0943);
    desk.room = 12;
    desk.end(0, &[0x501E_0941, 0x502E_0943], 0x503E_0944);
    desk.right
}

// An unexpected end with valid earlier data is an end: the packets are handed out, and the stream is closed.
pub fn valid_end() -> bool {
    let mut desk = Desk::new();
    desk.keep(0, 0x501E_0941);
    desk.keep(1, 0x501E_0951);
    desk.keep(1, 0x502E_0952);
    desk.end(0, &[0x501E_0941], 0x5031_0900);
    desk.refuse(0, 0x5031_0900, Refusal::Closed);
    desk.room = 11;
    desk.refuse(1, 0x5031_0900, Refusal::Room);
    desk.room = 12;
    desk.end(1, &[0x501E_0951, 0x502E_0952], 0x5031_0900);
    desk.right
}

// An end with invalid earlier data drops the stream of its key, and no other; nothing is handed out.
pub fn invalid_end() -> bool {
    let mut desk = Desk::new();
    desk.keep(0, 0x501E_0941);
    desk.keep(0, 0x502E_0942);
    desk.keep(1, 0x501E_0951);
    desk.drop_stream(0, 0x503F_0900);
    desk.refuse(0, 0x502E_0943, Refusal::Closed);
    desk.refuse(0, 0x503E_0943, Refusal::Closed);
    desk.refuse(0, 0x503F_0900, Refusal::Closed);
    desk.end(1, &[0x501E_0951], 0x503E_0952);
    desk.right
}

// It needs no output, and no words. Where anything else is not zero it is refused, and the stream stays.
pub fn invalid_end_alone() -> bool {
    let mut desk = Desk::new();
    desk.keep(0, 0x501E_0941);
    desk.keep(1, 0x501E_0951);
    desk.refuse(1, 0x503F_0901, Refusal::Count);
    desk.room = 0;
    desk.drop_stream(0, 0x503F_0900);
    desk.refuse(0, 0x503F_0900, Refusal::Closed);
    desk.lent = 0;
    desk.drop_stream(1, 0x503F_0900);
    desk.refuse(1, 0x503F_0900, Refusal::Closed);
    desk.right
}

// Continue, end and both unexpected ends without a start; the same where no words and no output are lent, as Closed comes before Room.
pub fn closed() -> bool {
    let mut desk = Desk::new();
    for head in [0x502E_0941, 0x503E_0941, 0x5031_0900, 0x503F_0900] {
        desk.refuse(0, head, Refusal::Closed);
    }
    for head in [0x5F2E_FF41, 0x5F3E_FF41, 0x5F31_FF00, 0x5F3F_FF00] {
        desk.refuse(1, head, Refusal::Closed);
    }
    desk.lent = 0;
    desk.room = 0;
    for head in [0x502E_0041, 0x503E_0041, 0x5031_0000, 0x503F_0000] {
        desk.refuse(0, head, Refusal::Closed);
    }
    desk.right
}

// The same where another port, group and stream id have a start; and after an end.
pub fn closed_beside() -> bool {
    let mut desk = Desk::new();
    desk.keep(0, 0x501E_0941);
    desk.refuse(1, 0x502E_0942, Refusal::Closed);
    desk.refuse(0, 0x512E_0942, Refusal::Closed);
    desk.refuse(0, 0x502E_0A42, Refusal::Closed);
    desk.refuse(1, 0x503E_0942, Refusal::Closed);
    desk.refuse(0, 0x513E_0942, Refusal::Closed);
    desk.refuse(0, 0x503E_0A42, Refusal::Closed);
    desk.end(0, &[0x501E_0941], 0x503E_0942);
    desk.refuse(0, 0x502E_0942, Refusal::Closed);
    desk.refuse(0, 0x503E_0942, Refusal::Closed);
    desk.right
}
