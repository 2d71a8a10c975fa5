// What the rows of a state are tested for where it is handed in: that they are coded, and document 01's refusal 1.
ghost use Rattle.std.specs.Prelude.{◌≡◌, ◌&&◌, List, [], ◌+◌, ◌≤◌, ◌<◌, length, get_or};
ghost use Rattle.hazards.specs.Lists.{all};
ghost use Rattle.clocks.specs.Layout.{FloatRows, present_in};
ghost use Rattle.engine.specs.State.{queued_requests};
ghost use Rattle.engine.specs.StateRows.{part_at, request_from, shared_of, shared_from, state_from, SizedState};
ghost use Rattle.engine.specs.StateRows.{coded_counts, coded_request, coded_requests, coded_clocks, coded_state};
ghost use Rattle.engine.specs.Validation.{valid_slot, valid_request, distinct, valid_queue, valid_shared, valid_state};
ghost use Rattle.engine.specs.declared.state.Request.{Request};

use crate::state_rows::{
    APPLIED_LENGTH, CLOCKS, COUNTS, PLACES, POSITION, QUEUED, REQUEST_CLOCK, REQUEST_COUNT,
    REQUEST_INDEX, REQUEST_PRIORITY, REQUESTS, STATE_FLOATS, STATE_WORDS,
};
use clocks::layout::{
    CLOCK_FLOATS, CLOCK_WORDS, EVENT, EVENT_INDEX, PRESENT, SCHEDULE, SETTINGS, WINNER,
};
use clocks::validation::{clock_coded, valid_clock};

// Every clock, present or not.
fn clocks_coded(words: &[[u64; 8]; STATE_WORDS], floats: &[[f64; 8]; STATE_FLOATS]) -> bool
    ensures { result ≡ coded_clocks words.now floats.now }
{
    for k in 0..CLOCKS {
        let w = CLOCK_WORDS * k;
        let f = CLOCK_FLOATS * k;
        let rows = words[w..w + CLOCK_WORDS].as_array::<CLOCK_WORDS>().unwrap();
        let numbers = floats[f..f + CLOCK_FLOATS]
            .as_array::<CLOCK_FLOATS>()
            .unwrap();
        if !clock_coded(rows, numbers) {
            return false;
        }
    }
    true
}

fn counts_coded(row: &[u64; 8]) -> bool
    ensures { result ≡ coded_counts row.now }
{
    (row[4] == 0) & ((row[5] == 0) & ((row[6] == 0) & (row[7] == 0)))
}

fn request_coded(row: &[u64; 8]) -> bool
    ensures { result ≡ coded_request row.now }
{
    (row[REQUEST_PRIORITY] < 0x1_0000_0000) & ((row[5] == 0) & ((row[6] == 0) & (row[7] == 0)))
}

// Every place for a request, used or not.
fn requests_coded(words: &[[u64; 8]; STATE_WORDS]) -> bool
    ensures { result ≡ coded_requests words.now }
{
    words[REQUESTS..].iter().all(|row| request_coded(row))
}

pub(crate) fn coded_state(
    words: &[[u64; 8]; STATE_WORDS],
    floats: &[[f64; 8]; STATE_FLOATS],
) -> bool
    ensures { result ≡ coded_state words.now floats.now }
{
    let clocks = clocks_coded(words, floats);
    let counts = counts_coded(&words[COUNTS]);
    let requests = requests_coded(words);
    clocks & (counts & requests)
}

// Whether clock k is there.
fn is_present(words: &[[u64; 8]; STATE_WORDS], k: usize) -> bool
    requires { k < 16 }
    ensures { result ≡ present_in (part_at 10 k words.now) }
{
    words[CLOCK_WORDS * k + SETTINGS][PRESENT] == 1
}

// Every clock that is there.
fn valid_slots(words: &[[u64; 8]; STATE_WORDS], floats: &[[f64; 8]; STATE_FLOATS]) -> bool
    ensures { result ≡ all valid_slot (state_from words.now floats.now).slots }
{
    for k in 0..CLOCKS {
        if is_present(words, k) {
            let w = CLOCK_WORDS * k;
            let f = CLOCK_FLOATS * k;
            let rows = words[w..w + CLOCK_WORDS].as_array::<CLOCK_WORDS>().unwrap();
            let numbers = floats[f..f + CLOCK_FLOATS]
                .as_array::<CLOCK_FLOATS>()
                .unwrap();
            if !valid_clock(rows, numbers) {
                return false;
            }
        }
    }
    true
}

// The clock of request i is there, names it and holds a winner; its index is below the requests made. The floats do not matter.
fn valid_request(words: &[[u64; 8]; STATE_WORDS], i: usize) -> bool
    requires { i < 16 }
    ensures { (floats : FloatRows) → result ≡ valid_request (state_from words.now floats)
        (request_from (get_or words.now (161 + i) [])) }
{
    let at = words[REQUESTS + i][REQUEST_CLOCK] as usize;
    if at >= CLOCKS {
        return false;
    }
    let index = words[REQUESTS + i][REQUEST_INDEX];
    let b = words[CLOCK_WORDS * at + SCHEDULE];
    let made = index < words[COUNTS][REQUEST_COUNT];
    is_present(words, at)
        & ((b[EVENT] == 1) & ((b[EVENT_INDEX] == index) & ((b[WINNER] == 1) & made)))
}

fn valid_requests(words: &[[u64; 8]; STATE_WORDS]) -> bool
    requires { get_or (get_or words.now 160 []) 0 0 ≤ 16 }
    ensures { (floats : FloatRows) → result ≡ all (valid_request (state_from words.now floats))
        (queued_requests (shared_from words.now)) }
{
    let queued = words[COUNTS][QUEUED] as usize;
    for i in 0..queued {
        if !valid_request(words, i) {
            return false;
        }
    }
    true
}

// No index twice.
fn distinct_indices(words: &[[u64; 8]; STATE_WORDS]) -> bool
    requires { get_or (get_or words.now 160 []) 0 0 ≤ 16 }
    ensures { result ≡ distinct (queued_requests (shared_from words.now)) }
{
    let queued = words[COUNTS][QUEUED] as usize;
    for i in 0..queued {
        if crate::queue::is_among(words, i, words[REQUESTS + i][REQUEST_INDEX]) {
            return false;
        }
    }
    true
}

fn valid_queue(words: &[[u64; 8]; STATE_WORDS]) -> bool
    ensures { (floats : FloatRows) → result ≡ valid_queue (state_from words.now floats) }
{
    if words[COUNTS][QUEUED] > PLACES as u64 {
        return false;
    }
    let requests = valid_requests(words);
    let distinct = distinct_indices(words);
    requests & distinct
}

fn valid_counts(row: &[u64; 8], stream: &[u8], journal_length: usize) -> bool
    ensures { (queue : List Request)
        → result ≡ valid_shared stream.now journal_length (shared_of row.now queue) }
{
    let applied = row[APPLIED_LENGTH] as usize;
    let position = row[POSITION] as usize <= stream.len() / 8;
    position & ((applied <= journal_length) & (row[REQUEST_COUNT] <= applied as u64))
}

// Whether a state passes refusal 1.
pub fn valid_state(
    words: &[[u64; 8]; STATE_WORDS],
    floats: &[[f64; 8]; STATE_FLOATS],
    stream: &[u8],
    journal_length: usize,
) -> bool
    ensures { result ≡ (coded_state words.now floats.now
        && valid_state stream.now journal_length (state_from words.now floats.now)) }
{
    let coded = coded_state(words, floats);
    let slots = valid_slots(words, floats);
    let queue = valid_queue(words);
    let counts = valid_counts(&words[COUNTS], stream, journal_length);
    coded & (slots & (queue & counts))
}
