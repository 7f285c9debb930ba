// The packet reader's refusals, and other ports.
use arrival_desk::Desk;
use refusal::Refusal;

// Short, Type, Status, Count, in this order, at a port.
fn refuse_unread(desk: &mut Desk, port: u8) {
    desk.refuse_words(port, &[], Refusal::Short);
    for head in [0x501E_0941, 0x404F_0941] {
        desk.refuse_words(port, &[head, 0, 0], Refusal::Short);
    }
    for head in [0x401E_0941, 0x404F_0941] {
        desk.refuse(port, head, Refusal::Type);
    }
    for head in [0x504E_0941, 0x50FF_0941] {
        desk.refuse(port, head, Refusal::Status);
    }
    for head in [
        0x5010_0941,
        0x501F_0900,
        0x502F_0941,
        0x503F_0941,
        0x500F_0941,
    ] {
        desk.refuse(port, head, Refusal::Count);
    }
}

// The reader's refusals at both ports; an open stream stays.
pub fn unread() -> bool {
    let mut desk = Desk::new();
    desk.keep(0, 0x501E_0941);
    refuse_unread(&mut desk, 0);
    refuse_unread(&mut desk, 1);
    desk.end(0, &[0x501E_0941], 0x503E_0942);
    desk.right
}

// They come before Port, and before Room.
pub fn unread_before_port() -> bool {
    let mut desk = Desk::new();
    refuse_unread(&mut desk, 2);
    desk.lent = 0;
    desk.room = 0;
    refuse_unread(&mut desk, 255);
    refuse_unread(&mut desk, 0);
    desk.right
}

// Each kind of packet at a port that is not 0 or 1.
fn refuse_port(desk: &mut Desk, port: u8) {
    for head in [
        0x500E_0942,
        0x501E_0942,
        0x502E_0942,
        0x503E_0942,
        0x5031_0900,
        0x503F_0900,
    ] {
        desk.refuse(port, head, Refusal::Port);
    }
}

// Ports 2 and 255; streams of both ports stay open. Port comes before Closed and before Room.
pub fn port() -> bool {
    let mut desk = Desk::new();
    refuse_port(&mut desk, 2);
    desk.keep(0, 0x501E_0941);
    desk.keep(1, 0x501E_0951);
    refuse_port(&mut desk, 2);
    refuse_port(&mut desk, 255);
    desk.lent = 0;
    desk.room = 0;
    refuse_port(&mut desk, 2);
    desk.lent = 128;
    desk.room = 16;
    desk.end(1, &[0x501E_0951], 0x503E_0952);
    desk.end(0, &[0x501E_0941], 0x503E_0942);
    desk.right
}

// What stands behind the packet's four words does not matter: a start, a continue and an end with another packet behind them.
pub fn words_behind() -> bool {
    let mut desk = Desk::new();
    desk.keep_words(0, &[0x501E_0901, 2, 3, 4, 0x503E_0905, 6, 7, 8]);
    desk.keep_words(0, &[0x502E_0911, 12, 13, 14, 15]);
    desk.hand_out(
        0,
        &[0x5031_0900, 0, 0, 0, 0x501E_0901, 2, 3, 4],
        12,
        [
            0x501E_0901,
            2,
            3,
            4,
            0x502E_0911,
            12,
            13,
            14,
            0x5031_0900,
            0,
            0,
            0,
            9,
            9,
            9,
            9,
        ],
    );
    desk.refuse(0, 0x502E_0942, Refusal::Closed);
    desk.right
}
