// Changes of the state of base to states that pass state validation and that the applied commands do not give.
use crate::cases::Case;
use crate::cases::Case::Other;
use crate::changes::Change::{Float, Word};
use clocks::layout::{
    ACCUMULATED, ACTIVE, CHANNEL_FLOATS, CHANNELS, CLOCK_WORDS, HAS_ENTITY, LAST_UPDATE, NUMBERS,
    PRESENT, PRIORITY, PROCESS, SCALE, SCHEDULE, SETTINGS, START, THRESHOLD, TIMES, WINNER_CAUSE,
    WINNER_PIECE, WINNER_TIME,
};
use engine::state_rows::{
    APPLIED_LENGTH, COUNTS, POSITION, QUEUED, REQUEST_COUNT, REQUEST_PRIORITY, REQUESTS, TICKS_LOW,
};

// The numbers of the second channel.
const CHANNEL_NUMBERS: usize = NUMBERS + CHANNEL_FLOATS;

pub const CASES: [Case; 20] = [
    // Of the second channel.
    Other(Float(CHANNEL_NUMBERS, ACCUMULATED, 1.0)),
    Other(Float(CHANNEL_NUMBERS, THRESHOLD, 3.0)),
    Other(Float(CHANNEL_NUMBERS, START, 1.0)),
    Other(Word(CHANNELS + 1, PRIORITY, 1)),
    // Of the clock, whose winner is cause 2 at time 1 in piece 0, and whose last update time is +0.0.
    Other(Word(SETTINGS, PROCESS, 1)),
    Other(Word(SETTINGS, HAS_ENTITY, 1)),
    Other(Float(TIMES, SCALE, 11.0)),
    Other(Word(SCHEDULE, WINNER_CAUSE, 1)),
    Other(Float(TIMES, WINNER_TIME, 5.0)),
    Other(Word(SCHEDULE, ACTIVE, 0)),
    Other(Float(TIMES, LAST_UPDATE, -0.0)),
    // Of the queued request, which has ticks 10 and priority 0.
    Other(Word(REQUESTS, TICKS_LOW, 41)),
    Other(Word(REQUESTS, REQUEST_PRIORITY, 1)),
    // One threshold more is drawn, one request more is made, none is queued.
    Other(Word(COUNTS, POSITION, 3)),
    Other(Word(COUNTS, REQUEST_COUNT, 2)),
    Other(Word(COUNTS, QUEUED, 0)),
    // The applied commands are a byte shorter or longer.
    Other(Word(COUNTS, APPLIED_LENGTH, 367)),
    Other(Word(COUNTS, APPLIED_LENGTH, 369)),
    // Another piece of the winner, and a clock too many.
    Other(Word(SCHEDULE, WINNER_PIECE, 1)),
    Other(Word(CLOCK_WORDS * 5 + SETTINGS, PRESENT, 1)),
];
