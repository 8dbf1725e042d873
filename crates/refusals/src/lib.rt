// Why a call refuses its input: the rule that is broken, and the place where that rule names one.
#![tactic(auto)]

ghost use Rattle.std.specs.Prelude.{◌≡◌};
ghost use Rattle.refusals.specs.Coded.{coded, At};

// The rules. Each is known to C by its number; 6 was struck.
#[derive(Clone, Copy, Debug, PartialEq, Eq)]
pub enum Reason {
    BadForm = 1,
    BadWidth = 2,
    LongScalar = 3,
    FewPlaces = 4,
    FewMarks = 5,
    LongString = 7,
    BadDigit = 8,
    OtherWorth = 9,
    NearDigits = 10,
    ShortTape = 11,
    ZeroModulus = 12,
    LongTape = 13,
    FewMultiples = 14,
    BadWord = 15,
    Malformed = 16,
    NoInverse = 17,
    UnequalScalars = 18,
    BadGroup = 19,
    NotBelow = 20,
    UnfitFrame = 21,
    BadSet = 22,
    NoWidthFits = 23,
    ShortLine = 24,
}

impl From<Reason> for u8 {
    ghost from_gives = { λ reason number. number ≡ coded reason };

    fn from(reason: Reason) -> u8 {
        reason as u8
    }
}

// A rule that is broken, and where: place 0 for a rule that names none.
#[derive(Clone, Copy, Debug, PartialEq, Eq)]
pub struct Refusal {
    pub reason: Reason,
    pub place: u16,
}

impl From<Refusal> for Reason {
    ghost from_gives = { λ refusal reason. reason ≡ refusal.reason };

    fn from(refusal: Refusal) -> Reason {
        refusal.reason
    }
}

impl From<Reason> for Refusal {
    ghost from_gives = { At 0 };

    fn from(reason: Reason) -> Refusal {
        Refusal { reason, place: 0 }
    }
}
