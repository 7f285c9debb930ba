// Tables that no calls made: any words. Words 0 to 15 are the keys of the slots: port + 1, group and stream id, or 0. Words 16 to 31 say
// how many words of its part each uses.
ghost use Rattle.std.specs.Prelude.{◌<◌};

use arrival_desk::Desk;
use refusal::Refusal;

// All words of the table are this one.
fn filled(word: u32) -> Desk {
    let mut desk = Desk::new();
    desk.table = [word; 32];
    desk
}

// A slot gets this key and this length word.
fn set_slot(desk: &mut Desk, slot: usize, key: u32, used: u32)
    requires { slot < 16 }
{
    desk.table[slot] = key;
    desk.table[16 + slot] = used;
}

// Of equal keys the first counts, and after its end the next.
pub fn equal_keys() -> bool {
    let mut desk = Desk::new();
    desk.keep(0, 0x501E_0941);
    desk.keep(0, 0x501E_0A51);
    set_slot(&mut desk, 1, 0x1_0009, 4);
    desk.end(0, &[0x501E_0941], 0x503E_0942);
    desk.end(0, &[0x501E_0A51], 0x503E_0943);
    desk.refuse(0, 0x503E_0944, Refusal::Closed);
    desk.right
}

// 16 equal keys of port 0: a start of it is kept, a new stream is Share, one of port 1 is Full. A complete packet closes one of them.
pub fn sixteen_equal() -> bool {
    let mut desk = filled(0x1_0009);
    desk.refuse(0, 0x501E_0A41, Refusal::Share);
    desk.refuse(1, 0x501E_0941, Refusal::Full);
    desk.keep(0, 0x501E_0941);
    desk.end(0, &[0x501E_0941], 0x503E_0942);
    desk.complete(0, 0x500E_0943);
    desk.refuse(0, 0x501E_0A41, Refusal::Share);
    desk.keep(1, 0x501E_0941);
    desk.keep(1, 0x501E_0A41);
    desk.refuse(1, 0x501E_0B41, Refusal::Full);
    desk.refuse(0, 0x502E_0943, Refusal::Room);
    desk.right
}

// A stream that fills the part of 8 words, and has another length word, which is above 8 and counts as 8.
fn end_of_long(desk: &mut Desk, port: u8, key: u32, used: u32) {
    desk.keep(port, 0x501E_0941);
    desk.keep(port, 0x502E_0942);
    set_slot(desk, 0, key, used);
    desk.refuse(port, 0x502E_0943, Refusal::Room);
    desk.room = 11;
    desk.refuse(port, 0x503E_0943, Refusal::Room);
    desk.room = 12;
    desk.end(port, &[0x501E_0941, 0x502E_0942], 0x503E_0943);
}

// Length words of 9, and the largest.
pub fn long_lengths() -> bool {
    let mut desk = Desk::new();
    end_of_long(&mut desk, 0, 0x1_0009, 9);
    end_of_long(&mut desk, 1, 0x2_0009, 0xFFFF_FFFF);
    desk.right
}

// A length word of 5: a continue is Room, and 9 words are handed out. A length word of 0: a continue is the first packet.
pub fn other_lengths() -> bool {
    let mut desk = Desk::new();
    desk.keep_words(0, &[0x501E_0901, 2, 3, 4]);
    desk.keep_words(0, &[0x502E_0905, 6, 7, 8]);
    set_slot(&mut desk, 0, 0x1_0009, 5);
    desk.refuse(0, 0x502E_0941, Refusal::Room);
    desk.hand_out(
        0,
        &[0x503E_0911, 12, 13, 14],
        9,
        [
            0x501E_0901,
            2,
            3,
            4,
            0x502E_0905,
            0x503E_0911,
            12,
            13,
            14,
            9,
            9,
            9,
            9,
            9,
            9,
            9,
        ],
    );
    set_slot(&mut desk, 0, 0x2_0009, 0);
    desk.keep(1, 0x502E_0941);
    desk.end(1, &[0x502E_0941], 0x503E_0942);
    desk.right
}

// A key of no port is a slot in use: with 15 of them one stream can be open, of any port, and with 16 none.
fn one_slot(word: u32) -> bool {
    let mut desk = filled(word);
    desk.refuse(0, 0x501E_0041, Refusal::Full);
    desk.refuse(1, 0x501E_0041, Refusal::Full);
    set_slot(&mut desk, 7, 0, 0);
    desk.keep(0, 0x501E_0041);
    desk.refuse(1, 0x501E_0041, Refusal::Full);
    desk.end(0, &[0x501E_0041], 0x503E_0042);
    desk.keep(1, 0x501E_0041);
    desk.refuse(0, 0x501E_0041, Refusal::Full);
    desk.end(1, &[0x501E_0041], 0x503E_0042);
    desk.right
}

// Keys below those of port 0, and above those of port 1.
pub fn no_port() -> bool {
    [1, 0xFFFF, 0x3_0000].iter().all(|word| one_slot(*word))
}

// A table of all ones: no stream of a port, and no slot; complete packets are handed out. Cleared, it has 16 slots.
pub fn all_ones() -> bool {
    let mut desk = filled(0xFFFF_FFFF);
    desk.refuse(0, 0x501E_0941, Refusal::Full);
    desk.refuse(1, 0x5F1E_FF41, Refusal::Full);
    desk.refuse(0, 0x502E_0941, Refusal::Closed);
    desk.refuse(1, 0x5F3E_FF41, Refusal::Closed);
    desk.refuse(1, 0x5F3F_FF00, Refusal::Closed);
    desk.complete(1, 0x5F0E_FF41);
    ports::clear(&mut desk.table);
    desk.start_four(0, 0x501E_0041);
    desk.end(0, &[0x501E_0041], 0x503E_0042);
    desk.right
}
