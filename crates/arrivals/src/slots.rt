// How many streams are open: 12 of a port, 16 in all.
use arrival_desk::Desk;
use refusal::Refusal;

// The 13th stream of a port, of any group: Share.
pub fn share() -> bool {
    let mut desk = Desk::new();
    desk.start_twelve(0);
    desk.refuse(0, 0x501E_0C41, Refusal::Share);
    desk.refuse(0, 0x5F1E_0041, Refusal::Share);
    desk.end_four(0, 0x501E_0841);
    desk.end_four(0, 0x501E_0441);
    desk.end_four(0, 0x501E_0041);
    desk.start_twelve(1);
    desk.refuse(1, 0x501E_0C41, Refusal::Share);
    desk.refuse(1, 0x5F1E_0041, Refusal::Share);
    desk.end_four(1, 0x501E_0841);
    desk.right
}

// 12 streams of port 0 and 4 of port 1, and a fifth of port 1: Full.
pub fn full() -> bool {
    let mut desk = Desk::new();
    desk.start_sixteen();
    desk.refuse(1, 0x501E_0441, Refusal::Full);
    desk.end_four(1, 0x501E_0041);
    desk.right
}

// 8 streams of each port, and one more of each: Full.
pub fn full_of_equals() -> bool {
    let mut desk = Desk::new();
    desk.start_four(0, 0x501E_0041);
    desk.start_four(0, 0x501E_0441);
    desk.start_four(1, 0x501E_0041);
    desk.start_four(1, 0x501E_0441);
    desk.refuse(0, 0x501E_0841, Refusal::Full);
    desk.refuse(1, 0x501E_0841, Refusal::Full);
    desk.end_four(0, 0x501E_0441);
    desk.end_four(1, 0x501E_0441);
    desk.right
}

// 16 streams are open and a port holds 12: Share. Both come before Room, which a part of 3 words is too small for.
pub fn order() -> bool {
    let mut desk = Desk::new();
    desk.start_sixteen();
    desk.refuse(0, 0x501E_0C41, Refusal::Share);
    desk.lent = 63;
    desk.refuse(0, 0x501E_0C41, Refusal::Share);
    desk.refuse(1, 0x501E_0441, Refusal::Full);
    desk.refuse(1, 0x501E_0041, Refusal::Room);
    desk.right
}

// Where a port holds 12, the other gets four slots, whichever it is; and again after their end.
pub fn fewer_than_four() -> bool {
    let mut desk = Desk::new();
    desk.start_twelve(1);
    desk.start_four(0, 0x501E_0041);
    desk.refuse(0, 0x501E_0441, Refusal::Full);
    desk.end_four(0, 0x501E_0041);
    desk.start_four(0, 0x501E_0441);
    desk.end_four(1, 0x501E_0041);
    desk.end_four(0, 0x501E_0441);
    desk.right
}

// A stream that is open begins afresh where a port holds 12 and where 16 are open.
pub fn restarts() -> bool {
    let mut desk = Desk::new();
    desk.start_twelve(0);
    desk.keep(0, 0x501E_0B61);
    desk.start_four(1, 0x501E_0041);
    desk.keep(0, 0x501E_0061);
    desk.keep(1, 0x501E_0361);
    desk.end_one(0, 0x501E_0061);
    desk.end_one(0, 0x501E_0B61);
    desk.end_one(1, 0x501E_0361);
    desk.end_one(1, 0x501E_0041);
    desk.right
}

// Of 16 open streams one is ended, dropped, closed by a complete packet: its slot and words are used by another.
pub fn used_again() -> bool {
    let mut desk = Desk::new();
    desk.start_sixteen();
    desk.end_one(0, 0x501E_0541);
    desk.keep(1, 0x501E_2141);
    desk.refuse(1, 0x501E_2241, Refusal::Full);
    desk.drop_stream(0, 0x503F_0600);
    desk.keep(1, 0x501E_2241);
    desk.refuse(1, 0x501E_2341, Refusal::Full);
    desk.complete(0, 0x500E_0741);
    desk.keep(1, 0x501E_2341);
    desk.refuse(1, 0x501E_2441, Refusal::Full);
    desk.end_one(1, 0x501E_2241);
    desk.end_one(1, 0x501E_2341);
    desk.end_one(1, 0x501E_2141);
    desk.end_four(0, 0x501E_0841);
    desk.right
}

// Of 12 streams of a port one is ended, dropped, closed by a complete packet: the port has a slot again.
pub fn share_again() -> bool {
    let mut desk = Desk::new();
    desk.start_twelve(0);
    desk.end_one(0, 0x501E_0041);
    desk.keep(0, 0x501E_0C41);
    desk.refuse(0, 0x501E_0041, Refusal::Share);
    desk.drop_stream(0, 0x503F_0B00);
    desk.keep(0, 0x501E_0041);
    desk.refuse(0, 0x501E_0B41, Refusal::Share);
    desk.complete(0, 0x500E_0141);
    desk.keep(0, 0x501E_0B41);
    desk.refuse(0, 0x501E_0141, Refusal::Share);
    desk.end_one(0, 0x501E_0C41);
    desk.end_one(0, 0x501E_0041);
    desk.end_one(0, 0x501E_0B41);
    desk.right
}

// Complete packets take no slot: where a port holds 12, and where 16 are open.
pub fn complete_takes_none() -> bool {
    let mut desk = Desk::new();
    desk.start_twelve(0);
    desk.complete(0, 0x500E_2041);
    desk.start_four(1, 0x501E_0041);
    desk.complete(0, 0x500E_2041);
    desk.complete(1, 0x500E_2041);
    desk.refuse(1, 0x502E_2041, Refusal::Closed);
    desk.end_four(1, 0x501E_0041);
    desk.right
}
