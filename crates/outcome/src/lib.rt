// The numbers a clerk may see, one for each refusal, with finql's name where it has one; and a
// number's magnitude. The laws of outcomes and of lent room have no code.
#![tactic(auto)]

ghost use Rattle.std.specs.Prelude.{◌≡◌};
ghost use Rattle.outcome.specs.Refusals.{number_of};
ghost use Rattle.outcome.specs.Signs.{MagnitudePromise};

// Why there is no value; each refusal has its number of documents 01 and 02.
#[derive(Clone, Copy, Debug, PartialEq, Eq)]
pub enum Refusal {
    InvalidDate = 1,
    PeriodTooShort = 2,
    InvalidUnit = 3,
    InvalidPeriod = 4,
    NoFrequency = 5,
    CouponParseError = 6,
    DayOutOfRange = 7,
    DayTooBig = 8,
    Impossible360 = 9,
    IcmaMissingRollDate = 10,
    IcmaMissingTimePeriod = 11,
    MissingCalendar = 12,
    BadHolidayTable = 13,
    PeriodBelowOne = 14,
    NumberOutOfLimits = 15,
    TooFewPlaces = 16,
    BadCurrency = 17,
    MalformedRecord = 18,
    StartAfterEnd = 19,
}

impl Refusal {
    // Inner: the number that a clerk sees; asks for nothing.
    pub fn number(self) -> u32
        ensures { result ≡ number_of self }
    {
        self as u32
    }
}

// A number without its sign, 2,147,483,648 for the least.
pub fn magnitude(n: i32) -> u32
    ensures { MagnitudePromise n result }
{
    n.unsigned_abs()
}
