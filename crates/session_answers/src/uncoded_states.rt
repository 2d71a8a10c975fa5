// Changes of the state of base to rows that are not coded as a state's: what they are read as would pass the rest of refusal 1.
use crate::cases::Case;
use crate::cases::Case::Invalid;
use crate::changes::Change::{Float, Word};
use clocks::layout::{
    ACTIVE, CAUSE, CHANNEL_FLOATS, CHANNELS, CLOCK_WORDS, EVENT, GENERATION, HAS_ENTITY, KIND,
    NUMBERS, POLICY, PRESENT, PRIORITY, RATE, SCHEDULE, SETTINGS, TIE, TIMES, WINNER, WINNER_CAUSE,
    WINNER_PIECE,
};
use engine::state_rows::{COUNTS, REQUEST_PRIORITY, REQUESTS};

// The second channel's rows, and the last channel's numbers: its kind is 0.
const CHANNEL: usize = CHANNELS + 1;

const CHANNEL_NUMBERS: usize = NUMBERS + CHANNEL_FLOATS;

const LAST_NUMBERS: usize = NUMBERS + CHANNEL_FLOATS * 7;

// Clock 5 is absent.
const ABSENT: usize = CLOCK_WORDS * 5;

pub const CASES: [Case; 37] = [
    // A flag of 2.
    Invalid(Word(ABSENT + SETTINGS, PRESENT, 2)),
    Invalid(Word(SETTINGS, HAS_ENTITY, 2)),
    Invalid(Word(ABSENT + SCHEDULE, EVENT, 2)),
    Invalid(Word(ABSENT + SCHEDULE, WINNER, 2)),
    Invalid(Word(SCHEDULE, ACTIVE, 2)),
    // A choice or a kind off its list.
    Invalid(Word(SETTINGS, POLICY, 2)),
    Invalid(Word(SETTINGS, TIE, 3)),
    Invalid(Word(CHANNEL, KIND, 4)),
    // A number past 2^32, and a piece past 255.
    Invalid(Word(SETTINGS, GENERATION, 0x1_0000_0000)),
    Invalid(Word(SCHEDULE, WINNER_CAUSE, 0x1_0000_0000)),
    Invalid(Word(CHANNEL, CAUSE, 0x1_0000_0002)),
    Invalid(Word(CHANNEL, PRIORITY, 0x1_0000_0000)),
    Invalid(Word(REQUESTS, REQUEST_PRIORITY, 0x1_0000_0000)),
    Invalid(Word(SCHEDULE, WINNER_PIECE, 256)),
    // A rate of kind 0 that is not +0.0.
    Invalid(Float(LAST_NUMBERS, RATE, -0.0)),
    // Each spare place of the rows of each kind.
    Invalid(Word(SCHEDULE, 6, 1)),
    Invalid(Word(SCHEDULE, 7, 1)),
    Invalid(Word(CHANNEL, 4, 1)),
    Invalid(Word(CHANNEL, 5, 1)),
    Invalid(Word(CHANNEL, 6, 1)),
    Invalid(Word(CHANNEL, 7, 1)),
    Invalid(Word(COUNTS, 4, 1)),
    Invalid(Word(COUNTS, 5, 1)),
    Invalid(Word(COUNTS, 6, 1)),
    Invalid(Word(COUNTS, 7, 1)),
    Invalid(Word(REQUESTS, 5, 1)),
    Invalid(Word(REQUESTS, 6, 1)),
    Invalid(Word(REQUESTS, 7, 1)),
    Invalid(Float(TIMES, 3, -0.0)),
    Invalid(Float(TIMES, 4, -0.0)),
    Invalid(Float(TIMES, 5, -0.0)),
    Invalid(Float(TIMES, 6, -0.0)),
    Invalid(Float(TIMES, 7, -0.0)),
    Invalid(Float(CHANNEL_NUMBERS, 4, -0.0)),
    Invalid(Float(CHANNEL_NUMBERS, 5, -0.0)),
    Invalid(Float(CHANNEL_NUMBERS, 6, -0.0)),
    Invalid(Float(CHANNEL_NUMBERS, 7, -0.0)),
];
