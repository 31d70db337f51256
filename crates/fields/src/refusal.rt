// Why a sheet or a call is refused: by which rule, and at which place of the file.
ghost use Rattle.std.specs.Prelude.{◌≡◌};
ghost use Rattle.fields.specs.Refusals.{rule_number};

use std::error::Error;
use std::fmt;

// What breaks a rule. The numbers are those that customers are told.
#[derive(Clone, Copy, Debug, PartialEq, Eq)]
pub enum Reason {
    // A field that the file does not hold whole.
    CutOff = 1,
    UnknownTag = 2,
    OutOfOrder = 3,
    // Bytes behind the end field.
    BehindTheEnd = 4,
    WrongLength = 5,
    TooMany = 6,
    BadValue = 7,
    NotRising = 8,
    UnknownFollower = 9,
    // A gap that ends before its row's job is due.
    ShortGap = 10,
    // An interval, a horizon or an amount that may not be asked for.
    OutOfRange = 11,
    FewCells = 12,
    // A witness area that its rows do not fit.
    ShortArea = 13,
    // An amount that no sequence has within the longest time.
    NeverReached = 14,
    ShortOutput = 15,
}

impl From<Reason> for u8 {
    ghost from_gives = { λ reason number. number ≡ rule_number reason };

    fn from(reason: Reason) -> u8 {
        reason as u8
    }
}

#[derive(Clone, Copy, Debug, PartialEq, Eq)]
pub struct Refusal {
    pub reason: Reason,
    pub place: usize,
}

// What the programs print of a refusal.
impl fmt::Display for Refusal {
    ghost use Rattle.std.specs.Prelude.{Some};
    ghost use Rattle.fields.specs.Refusals.{refusal_words};

    ghost output = { λ refusal. Some (refusal_words refusal) };

    fn fmt<W: fmt::Write>(&self, f: &mut fmt::Formatter<W>) -> fmt::Result {
        write!(f, "refused {} at {}", self.number(), self.place)
    }
}

impl Error for Refusal {}

impl Refusal {
    // The number that customers are told.
    pub fn number(self) -> u8
        ensures { result ≡ rule_number self.reason }
    {
        u8::from(self.reason)
    }
}

// A refusal that is not of a place in the file has place 0.
impl From<Reason> for Refusal {
    ghost from_gives = { λ reason refusal. refusal ≡ record { reason = reason; place = 0 } };

    fn from(reason: Reason) -> Refusal {
        Refusal { reason, place: 0 }
    }
}
