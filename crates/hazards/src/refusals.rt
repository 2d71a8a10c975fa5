// The refusals of the table with their numbers, and what is wrong with an input, one flag for each of refusals 4 to 7.
ghost use Rattle.std.specs.Prelude.{◌≡◌};
ghost use Rattle.hazards.specs.Refusals.{no_faults, range_fault_unless, is_reserved, identifier_fault_if, joined, number_of};
ghost use Rattle.hazards.specs.Refusals.{number, Numbers, refused_number};

use std::error::Error;
use std::fmt;

// A refusal of document 01's table or of document 02, with its number. specs/Refusals.antt says of each when it is met, in the order of
// checking.
#[derive(Clone, Copy, Debug, PartialEq, Eq)]
pub enum Refusal {
    InvalidState = 1,
    NoCommand = 2,
    CutShort = 3,
    BadChoice = 4,
    OutOfRange = 5,
    BadIntervals = 6,
    BadIdentifier = 7,
    ClockPresent = 8,
    ClockAbsent = 9,
    TooManyCauses = 10,
    QueueEmpty = 11,
    NothingApplied = 12,
    ReplayFails = 13,
    JournalFull = 14,
    StreamExhausted = 15,
    BadThreshold = 16,
    AnswersFull = 17,
    BadBuffers = 18,
    OutsideLimits = 23,
    NoRate = 24,
}

// A number that no refusal has.
#[derive(Clone, Copy, Debug, PartialEq, Eq)]
pub struct UnknownRefusal(pub u8);

impl Refusal {
    // The number in the table.
    pub fn number(self) -> u8
        ensures { result ≡ number self }
    {
        self as u8
    }
}

impl From<Refusal> for u8 {
    ghost from_gives = { λ refusal code. code ≡ number refusal };

    fn from(refusal: Refusal) -> u8 {
        refusal.number()
    }
}

impl TryFrom<u8> for Refusal {
    type Error = UnknownRefusal;

    ghost try_from_gives = { Numbers };

    fn try_from(code: u8) -> Result<Self, UnknownRefusal> {
        match code {
            1 => Ok(Refusal::InvalidState),
            2 => Ok(Refusal::NoCommand),
            3 => Ok(Refusal::CutShort),
            4 => Ok(Refusal::BadChoice),
            5 => Ok(Refusal::OutOfRange),
            6 => Ok(Refusal::BadIntervals),
            7 => Ok(Refusal::BadIdentifier),
            8 => Ok(Refusal::ClockPresent),
            9 => Ok(Refusal::ClockAbsent),
            10 => Ok(Refusal::TooManyCauses),
            11 => Ok(Refusal::QueueEmpty),
            12 => Ok(Refusal::NothingApplied),
            13 => Ok(Refusal::ReplayFails),
            14 => Ok(Refusal::JournalFull),
            15 => Ok(Refusal::StreamExhausted),
            16 => Ok(Refusal::BadThreshold),
            17 => Ok(Refusal::AnswersFull),
            18 => Ok(Refusal::BadBuffers),
            23 => Ok(Refusal::OutsideLimits),
            24 => Ok(Refusal::NoRate),
            _ => Err(UnknownRefusal(code)),
        }
    }
}

impl fmt::Display for Refusal {
    fn fmt<W: fmt::Write>(&self, f: &mut fmt::Formatter<W>) -> fmt::Result {
        f.write_str(match self {
            Refusal::InvalidState => "the state handed in is not valid",
            Refusal::NoCommand => "the code is not 01 to 08",
            Refusal::CutShort => "no byte, or fewer than the width",
            Refusal::BadChoice =>
                "a choice or has-byte off its list, or an unused field not zero bits",
            Refusal::OutOfRange => "a time, rate or scale out of its range",
            Refusal::BadIntervals => "count, pairs or ends of a piecewise hazard are wrong",
            Refusal::BadIdentifier => "a clock above 15 or cause FFFFFFFF hex",
            Refusal::ClockPresent => "CREATE on a present clock",
            Refusal::ClockAbsent => "a command on an absent clock",
            Refusal::TooManyCauses => "a ninth cause, or more than 8 records",
            Refusal::QueueEmpty => "DELIVER, queue empty",
            Refusal::NothingApplied => "UNDO, nothing is applied",
            Refusal::ReplayFails =>
                "the applied commands hold an UNDO, refuse or end in another state",
            Refusal::JournalFull => "the command is longer than the free part of the journal",
            Refusal::StreamExhausted => "a draw is due and the stream is used up",
            Refusal::BadThreshold => "the threshold due is not finite, is below 0 or above 1,024",
            Refusal::AnswersFull => "too few bytes are left for the answer of a command",
            Refusal::BadBuffers => "the stream is no multiple of 8 bytes, or the result is not 16",
            Refusal::OutsideLimits =>
                "a threshold not above 0 or above 1,024, or a wait not from 2^-40 to 2^40",
            Refusal::NoRate => "no f64 above 0 and at most 2^40 gives the wait",
        })
    }
}

impl fmt::Display for UnknownRefusal {
    fn fmt<W: fmt::Write>(&self, f: &mut fmt::Formatter<W>) -> fmt::Result {
        write!(f, "no refusal has the number {}", self.0)
    }
}

impl Error for Refusal {}

impl Error for UnknownRefusal {}

// The cause of a censored event, which no record may name.
// Kept: document 01 writes this number into answers and into the winner of a clock.
pub const NO_CAUSE: u32 = 0xffff_ffff;

// What is wrong with a part of an input: a flag for each of refusals 4 to 7, in this order.
// Kept: the definition Refusals.joined holds several that are met at once, before number_of tells the first of the table.
#[derive(Clone, Copy)]
pub struct Faults {
    pub choice: bool,
    pub range: bool,
    pub intervals: bool,
    pub identifier: bool,
}

// Refusal 5 alone, where a test on a float fails.
pub fn range_fault_unless(ok: bool) -> Faults
    ensures { result ≡ range_fault_unless ok }
{
    Faults {
        choice: false,
        range: !ok,
        intervals: false,
        identifier: false,
    }
}

// Whether a cause is the one that no record may name.
pub fn is_reserved(cause: u32) -> bool
    ensures { result ≡ is_reserved cause }
{
    cause == NO_CAUSE
}

// Refusal 7 alone, where a test holds.
pub fn identifier_fault_if(reserved: bool) -> Faults
    ensures { result ≡ identifier_fault_if reserved }
{
    Faults {
        choice: false,
        range: false,
        intervals: false,
        identifier: reserved,
    }
}

impl Faults {
    // Nothing is wrong.
    pub fn none() -> Faults
        ensures { result ≡ no_faults }
    {
        Faults {
            choice: false,
            range: false,
            intervals: false,
            identifier: false,
        }
    }

    // The faults of both.
    pub fn joined(self, other: Faults) -> Faults
        ensures { result ≡ joined self other }
    {
        Faults {
            choice: self.choice | other.choice,
            range: self.range | other.range,
            intervals: self.intervals | other.intervals,
            identifier: self.identifier | other.identifier,
        }
    }

    // The refusal: the first of the table that is met, if any is.
    pub fn refusal(self) -> Result<(), Refusal>
        ensures { refused_number result ≡ number_of self }
    {
        if self.choice {
            return Err(Refusal::BadChoice);
        }
        if self.range {
            return Err(Refusal::OutOfRange);
        }
        if self.intervals {
            return Err(Refusal::BadIntervals);
        }
        if self.identifier {
            return Err(Refusal::BadIdentifier);
        }
        Ok(())
    }
}
