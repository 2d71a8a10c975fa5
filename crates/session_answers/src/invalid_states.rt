// Changes of the state of base, by every condition of refusal 1 that a state can express.
use crate::cases::Case;
use crate::cases::Case::Invalid;
use crate::changes::Change::{Float, Word};
use clocks::layout::{
    ACCUMULATED, CAUSE, CHANNEL_FLOATS, CHANNELS, COUNT, ENDS, EVENT, EVENT_INDEX, LAST_UPDATE,
    NUMBERS, PAIRS, PRESENT, RATE, RATES, SCALE, SCHEDULE, SETTINGS, START, THRESHOLD, TIMES,
    WINNER, WINNER_TIME,
};
use engine::state_rows::{
    APPLIED_LENGTH, COUNTS, POSITION, QUEUED, REQUEST_CLOCK, REQUEST_COUNT, REQUESTS,
};

// The rows of the second channel.
const CHANNEL: usize = CHANNELS + 1;

const CHANNEL_NUMBERS: usize = NUMBERS + CHANNEL_FLOATS;

const CHANNEL_ENDS: usize = ENDS + CHANNEL_FLOATS;

const CHANNEL_RATES: usize = RATES + CHANNEL_FLOATS;

pub const CASES: [Case; 25] = [
    // Of the second channel: over 8 pairs.
    Invalid(Word(CHANNEL, PAIRS, 9)),
    // A rate or an end that 5 or 6 would refuse.
    Invalid(Float(CHANNEL_RATES, 1, 1099511627777.0)),
    Invalid(Float(CHANNEL_ENDS, 1, 2.0)),
    // A float that is not finite.
    Invalid(Float(CHANNEL_NUMBERS, RATE, f64::NAN)),
    Invalid(Float(CHANNEL_NUMBERS, ACCUMULATED, f64::INFINITY)),
    Invalid(Float(CHANNEL_NUMBERS, THRESHOLD, f64::NAN)),
    Invalid(Float(CHANNEL_NUMBERS, START, f64::NEG_INFINITY)),
    // A cause that is not above the one before it.
    Invalid(Word(CHANNEL, CAUSE, 1)),
    Invalid(Word(CHANNEL, CAUSE, 0)),
    // Of the clock: over 8 channels.
    Invalid(Word(SETTINGS, COUNT, 9)),
    // A float that is not finite.
    Invalid(Float(TIMES, SCALE, f64::INFINITY)),
    Invalid(Float(TIMES, LAST_UPDATE, f64::NAN)),
    Invalid(Float(TIMES, WINNER_TIME, f64::INFINITY)),
    // A queued request that the clock does not name, or that has no winner.
    Invalid(Word(SCHEDULE, EVENT, 0)),
    Invalid(Word(SCHEDULE, EVENT_INDEX, 1)),
    Invalid(Word(SCHEDULE, WINNER, 0)),
    // Of the rest: over 16 requests.
    Invalid(Word(COUNTS, QUEUED, 17)),
    // An index not below the requests made; more of these than applied bytes.
    Invalid(Word(COUNTS, REQUEST_COUNT, 0)),
    Invalid(Word(COUNTS, REQUEST_COUNT, 369)),
    // A draw position or an applied length past the end.
    Invalid(Word(COUNTS, POSITION, 4)),
    Invalid(Word(COUNTS, APPLIED_LENGTH, 401)),
    // An index twice, since an empty place reads as index 0.
    Invalid(Word(COUNTS, QUEUED, 2)),
    // A queued request of an absent clock, or of none of the sixteen.
    Invalid(Word(REQUESTS, REQUEST_CLOCK, 1)),
    Invalid(Word(REQUESTS, REQUEST_CLOCK, 16)),
    Invalid(Word(SETTINGS, PRESENT, 0)),
];
