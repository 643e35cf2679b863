// Why a call is refused. Inside the library a refusal is the error of a Result; an answer has its number.
#![tactic(auto)]

ghost use Rattle.std.specs.Prelude.{◌≡◌};
ghost use Rattle.refusals.specs.Numbers.{number_of};

// In the order of their numbers, 1 to 13.
#[derive(Clone, Copy, Debug, PartialEq, Eq)]
pub enum Refusal {
    WrongVersion,
    WrongLength,
    WrongKind,
    WrongFields,
    BadTerm,
    ZeroCount,
    RepeatedTerm,
    WrongCounters,
    NumbersSpent,
    Damaged,
    TableFull,
    ArenaFull,
    Stopped,
}

// The number that an answer gives.
impl From<Refusal> for u8 {
    ghost from_gives = { λ r n. n ≡ number_of r };

    fn from(r: Refusal) -> u8 {
        match r {
            Refusal::WrongVersion => 1,
            Refusal::WrongLength => 2,
            Refusal::WrongKind => 3,
            Refusal::WrongFields => 4,
            Refusal::BadTerm => 5,
            Refusal::ZeroCount => 6,
            Refusal::RepeatedTerm => 7,
            Refusal::WrongCounters => 8,
            Refusal::NumbersSpent => 9,
            Refusal::Damaged => 10,
            Refusal::TableFull => 11,
            Refusal::ArenaFull => 12,
            Refusal::Stopped => 13,
        }
    }
}
