// Where the state of an engine lies in lent memory: sixteen clocks, then the counts, then the queue of requests.
ghost use Rattle.std.specs.Prelude.{◌≡◌, [], true, ◌+◌, ◌<◌, length, get_or};
ghost use Rattle.engine.specs.State.{counts_of};
ghost use Rattle.engine.specs.StateRows.{request_from, shared_from, coded_request};

use crate::state::{Counts, Request};
use clocks::layout::u32_from;
use clocks::ticks::Ticks;

pub const CLOCKS: usize = 16;

// The row of the counts; four places are spare.
pub const COUNTS: usize = 160;

pub const QUEUED: usize = 0;

pub const REQUEST_COUNT: usize = 1;

pub const POSITION: usize = 2;

pub const APPLIED_LENGTH: usize = 3;

// The queue's places; a row for each, of which three places are spare.
pub const PLACES: usize = 16;

pub const REQUESTS: usize = 161;

pub const REQUEST_CLOCK: usize = 0;

pub const TICKS_LOW: usize = 1;

pub const TICKS_HIGH: usize = 2;

pub const REQUEST_PRIORITY: usize = 3;

pub const REQUEST_INDEX: usize = 4;

// The rows of a state.
pub const STATE_WORDS: usize = 177;

pub const STATE_FLOATS: usize = 400;

pub fn request_at(words: &[[u64; 8]; STATE_WORDS], i: usize) -> Request
    requires { i < 16 }
    ensures { result ≡ request_from (get_or words.now (161 + i) []) }
{
    let row = words[REQUESTS + i];
    Request {
        clock: row[REQUEST_CLOCK] as usize,
        ticks: Ticks {
            low: row[TICKS_LOW],
            high: row[TICKS_HIGH],
        },
        priority: hazards::fields::i32_from(u32_from(row[REQUEST_PRIORITY])),
        index: row[REQUEST_INDEX],
    }
}

pub(crate) fn counts_in(words: &[[u64; 8]; STATE_WORDS]) -> Counts
    ensures { result ≡ counts_of (shared_from words.now) }
{
    let row = words[COUNTS];
    Counts {
        queued: row[QUEUED] as usize,
        request_count: row[REQUEST_COUNT],
        position: row[POSITION] as usize,
        applied_length: row[APPLIED_LENGTH] as usize,
    }
}

// A request's row.
pub(crate) fn request_row(r: Request) -> [u64; 8]
    ensures { (request_from result ≡ r) × (coded_request result ≡ true) }
{
    [
        r.clock as u64,
        r.ticks.low,
        r.ticks.high,
        hazards::fields::bits_of_i32(r.priority) as u64,
        r.index,
        0,
        0,
        0,
    ]
}
