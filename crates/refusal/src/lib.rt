// The refusals of documents 01 and 02, by name and number, and a refusal with its place, which a call answers as its error.
#![tactic(auto)]

ghost use Rattle.std.specs.Prelude.{◌≡◌};
ghost use Rattle.refusal.specs.Number.{number_of};
ghost use Rattle.refusal.specs.Meaning.{at_start};

// Why a call refuses: the names and numbers of 01's table as 02's T-12 leaves it, and those that 02's requests add. No refusal has 19:
// T-12 took it out, and it is not used again.
#[derive(Clone, Copy, Debug, PartialEq, Eq)]
pub enum Refusal {
    Long = 1,
    Length = 2,
    Short = 3,
    Ragged = 4,
    Type = 5,
    Complete = 6,
    Begin = 7,
    Continue = 8,
    End = 9,
    Count = 10,
    Group = 11,
    Stream = 12,
    Range = 13,
    Room = 14,
    Status = 15,
    Field = 16,
    Frame = 17,
    Byte = 18,
    Overlap = 20,
    Format = 21,
    Twice = 22,
    Full = 23,
    Missing = 24,
    Ring = 25,
    Other = 26,
    Port = 29,
    Closed = 30,
    Share = 31,
}

// A refusal with its place.
#[derive(Clone, Copy, Debug, PartialEq, Eq)]
pub struct Fault {
    pub refusal: Refusal,
    pub place: usize,
}

impl From<Refusal> for Fault {
    ghost from_gives = { λ refusal fault. fault ≡ at_start refusal };

    // A refusal at place 0, where a call has no other place to name.
    fn from(refusal: Refusal) -> Fault {
        Fault { refusal, place: 0 }
    }
}

// The number of a refusal.
pub fn number(refusal: Refusal) -> u8
    ensures { result ≡ number_of refusal }
{
    refusal as u8
}
