// An answer as numbers, and why there may be none.
ghost use Rattle.std.specs.Iterator.{IsFinite};
ghost use Rattle.std.specs.Prelude.{◌≤◌, length};

use refusal::Fault;
use std::num::TryFromIntError;

// Why a call gives no answer of its own: the record is none, or the call refuses.
#[derive(Clone, Copy, Debug, PartialEq, Eq)]
pub enum Stop {
    NoRecord,
    Refused(Fault),
}

impl From<Fault> for Stop {
    fn from(fault: Fault) -> Stop {
        Stop::Refused(fault)
    }
}

impl From<TryFromIntError> for Stop {
    // A number that the call's type has no room for.
    fn from(_: TryFromIntError) -> Stop {
        Stop::NoRecord
    }
}

// The numbers of an answer, in memory of any size: one past the room is dropped. The memory is lent, and no part of an answer: copied at
// each step, it made program replay take nearly three times as many instructions.
#[derive(Drop)]
pub struct Answer<'a> {
    room: &'a mut [usize],
    count: usize,
    ghost fits: { count ≤ length room.now },
}

impl<'a> Answer<'a> {
    // An answer of no numbers.
    pub fn new(room: &'a mut [usize]) -> Answer<'a> {
        Answer { room, count: 0 }
    }

    // Answers these numbers, in place of those that it has.
    pub fn say(&mut self, numbers: &[usize]) {
        self.count = 0;
        self.put_all(numbers.iter().copied());
    }

    // Answers a refusal: its number and place.
    pub fn refuse(&mut self, fault: Fault) {
        self.say(&[usize::from(refusal::number(fault.refusal)), fault.place]);
    }

    // The numbers that it has.
    pub fn numbers(&self) -> &[usize] {
        &self.room[..self.count]
    }

    // Puts a number behind the others.
    pub fn put(&mut self, number: usize) {
        if self.count < self.room.len() {
            self.room[self.count] = number;
            self.count += 1;
        }
    }

    // Puts numbers behind the others.
    pub fn put_all<I: Iterator<Item = usize> + Drop>(&mut self, numbers: I)
        requires can { I.can_next numbers }
        requires finite { IsFinite (I.remaining numbers) }
    {
        for number in numbers {
            self.put(number);
        }
    }

    // Puts words behind the numbers.
    pub fn put_words(&mut self, words: &[u32]) {
        self.put_all(words.iter().map(|word| *word as usize));
    }
}

// Stores a byte by a call, which is lent the words: the words, or the refusal and the words.
pub fn store<F: FnOnce(&mut [u32], u8) -> Result<(), Fault>>(
    words: &mut [u32],
    value: usize,
    answer: &mut Answer<'_>,
    call: F,
) -> Result<(), Stop>
    requires { F.IsAlwaysCallable call }
{
    match call(words, u8::try_from(value)?) {
        Ok(()) => answer.say(&[0]),
        Err(fault) => answer.refuse(fault),
    }
    answer.put_words(words);
    Ok(())
}
