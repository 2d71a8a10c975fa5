// What a program asks of a state in lent memory: its counts, the queued requests, the clocks and their causes. Where there is no such
// thing, and in rows of other sizes, nothing is found and every field is zero.
ghost use Rattle.std.specs.Prelude.{◌≡◌, ◌&&◌, false, ltb, MatchOption};
ghost use Rattle.engine.specs.InPlace.{has_sizes};
ghost use Rattle.clocks.specs.Layout.{clock_from, present_in};
ghost use Rattle.olgaemuri.specs.Inspection.{counts_of, applied_of, applied_from, no_request, queued_request, no_clock, OwnRows};
ghost use Rattle.olgaemuri.specs.Inspection.{clock_where, clock_fields, no_cause, cause_of, cause_in, cause_fields};

use clocks::channels::HazardChannelState;
use clocks::clocks::HazardInterruptionPolicy;
use clocks::layout::{
    ACTIVE, CLOCK_FLOATS, CLOCK_WORDS, COUNT, ClockFloats, ClockWords, ENTITY_INDEX, EVENT,
    EVENT_INDEX, GENERATION, HAS_ENTITY, LAST_UPDATE, POLICY, PRESENT, PROCESS, SCALE, SCHEDULE,
    SETTINGS, TIE, TIMES, WINNER, WINNER_CAUSE, WINNER_PIECE, WINNER_TIME, byte_from, u32_from,
};
use engine::state_rows::{
    APPLIED_LENGTH, CLOCKS, COUNTS, PLACES, POSITION, QUEUED, REQUEST_COUNT, STATE_FLOATS,
    STATE_WORDS,
};
use hazards::refusals::Refusal;
use hazards::ties::TieBreaker;

#[repr(C)]
#[derive(Clone, Copy, Default)]
pub struct Counts {
    pub queued: u64,
    pub requests_made: u64,
    pub draw_position: u64,
    pub applied_length: u64,
}

// Kept: the C interface has no Option and no list: in this and the two below, what may not be there has a flag, `found`, and zeros, and a
// cause has its pairs as two arrays.
#[repr(C)]
#[derive(Clone, Copy)]
pub struct QueuedRequest {
    pub found: bool,
    pub clock: u64,
    pub priority: i32,
    pub index: u64,
    pub ticks_low: u64,
    pub ticks_high: u64,
}

#[repr(C)]
#[derive(Clone, Copy)]
pub struct ClockFields {
    pub found: bool,
    pub has_entity: bool,
    pub is_active: bool,
    pub has_event: bool,
    pub has_winner: bool,
    pub policy: u8,
    pub tie: u8,
    pub winner_piece: u8,
    pub generation: u32,
    pub winner_cause: u32,
    pub process: u64,
    pub entity_index: u64,
    pub causes: u64,
    pub event_index: u64,
    pub scale: f64,
    pub winner_time: f64,
    pub last_update: f64,
}

#[repr(C)]
#[derive(Clone, Copy)]
pub struct CauseFields {
    pub found: bool,
    pub kind: u8,
    pub cause: u32,
    pub priority: u32,
    pub pairs: u64,
    pub rate: f64,
    pub accumulated: f64,
    pub threshold: f64,
    pub interval_start: f64,
    pub ends: [f64; 8],
    pub rates: [f64; 8],
}

// Requests queued and made, draw position and length of the applied commands.
pub fn counts_of(words: &[[u64; 8]]) -> Counts
    ensures { result ≡ counts_of words.now }
{
    let Some(words) = words.as_array::<STATE_WORDS>() else {
        return Counts::default();
    };
    let row = words[COUNTS];
    Counts {
        queued: row[QUEUED],
        requests_made: row[REQUEST_COUNT],
        draw_position: row[POSITION],
        applied_length: row[APPLIED_LENGTH],
    }
}

// The length of the applied commands in a journal of so many bytes; refused by 1 where it is past the journal's end.
pub fn applied_length(words: &[[u64; 8]], journal_length: usize) -> Result<u64, Refusal>
    ensures { applied_from result ≡ applied_of words.now journal_length }
{
    let Some(words) = words.as_array::<STATE_WORDS>() else {
        return Err(Refusal::InvalidState);
    };
    let bytes = words[COUNTS][APPLIED_LENGTH];
    if bytes > journal_length as u64 {
        return Err(Refusal::InvalidState);
    }
    Ok(bytes)
}

fn no_request() -> QueuedRequest
    ensures { result ≡ no_request }
{
    QueuedRequest {
        found: false,
        clock: 0,
        priority: 0,
        index: 0,
        ticks_low: 0,
        ticks_high: 0,
    }
}

// The request at a place of the queue, in the order in which they were made.
pub fn request_fields(words: &[[u64; 8]], place: usize) -> QueuedRequest
    ensures { result ≡ queued_request words.now place }
{
    let Some(words) = words.as_array::<STATE_WORDS>() else {
        return no_request();
    };
    if place >= PLACES || place as u64 >= words[COUNTS][QUEUED] {
        return no_request();
    }
    let request = engine::state_rows::request_at(words, place);
    QueuedRequest {
        found: true,
        clock: request.clock as u64,
        priority: request.priority,
        index: request.index,
        ticks_low: request.ticks.low,
        ticks_high: request.ticks.high,
    }
}

fn no_clock() -> ClockFields
    ensures { result ≡ no_clock }
{
    ClockFields {
        found: false,
        has_entity: false,
        is_active: false,
        has_event: false,
        has_winner: false,
        policy: 0,
        tie: 0,
        winner_piece: 0,
        generation: 0,
        winner_cause: 0,
        process: 0,
        entity_index: 0,
        causes: 0,
        event_index: 0,
        scale: 0.0,
        winner_time: 0.0,
        last_update: 0.0,
    }
}

// A clock's own rows.
#[derive(Clone, Copy)]
struct ClockRows<'a> {
    words: &'a ClockWords,
    floats: &'a ClockFloats,
}

// Those of a clock, where the rows are a state's and have a place for it.
fn clock_rows<'a>(
    words: &'a [[u64; 8]],
    floats: &'a [[f64; 8]],
    clock: usize,
) -> Option<ClockRows<'a>>
    ensures { MatchOption result ((has_sizes words.now floats.now && ltb clock 16) ≡ false)
        (λ rows. OwnRows words.now floats.now clock rows.words.now rows.floats.now) }
{
    let words = words.as_array::<STATE_WORDS>()?;
    let floats = floats.as_array::<STATE_FLOATS>()?;
    if clock >= CLOCKS {
        return None;
    }
    Some(ClockRows {
        words: words[CLOCK_WORDS * clock..].first_chunk()?,
        floats: floats[CLOCK_FLOATS * clock..].first_chunk()?,
    })
}

// A clock in its own rows.
fn own_fields(words: &ClockWords, floats: &ClockFloats) -> ClockFields
    ensures { result ≡ clock_where (present_in words.now) (clock_from words.now floats.now) }
{
    let settings = words[SETTINGS];
    let schedule = words[SCHEDULE];
    let times = floats[TIMES];
    if settings[PRESENT] != 1 {
        return no_clock();
    }
    let policy = HazardInterruptionPolicy::from(byte_from(settings[POLICY]));
    let tie = TieBreaker::from(byte_from(settings[TIE]));
    ClockFields {
        found: true,
        has_entity: settings[HAS_ENTITY] == 1,
        is_active: schedule[ACTIVE] == 1,
        has_event: schedule[EVENT] == 1,
        has_winner: schedule[WINNER] == 1,
        policy: u8::from(policy),
        tie: u8::from(tie),
        winner_piece: byte_from(schedule[WINNER_PIECE]),
        generation: u32_from(settings[GENERATION]),
        winner_cause: u32_from(schedule[WINNER_CAUSE]),
        process: settings[PROCESS],
        entity_index: settings[ENTITY_INDEX],
        causes: settings[COUNT],
        event_index: schedule[EVENT_INDEX],
        scale: times[SCALE],
        winner_time: times[WINNER_TIME],
        last_update: times[LAST_UPDATE],
    }
}

// A clock, where it is present.
pub fn clock_fields<'a>(words: &'a [[u64; 8]], floats: &'a [[f64; 8]], clock: usize) -> ClockFields
    ensures { result ≡ clock_fields words.now floats.now clock }
{
    let Some(own) = clock_rows(words, floats, clock) else {
        return no_clock();
    };
    own_fields(own.words, own.floats)
}

fn no_cause() -> CauseFields
    ensures { result ≡ no_cause }
{
    CauseFields {
        found: false,
        kind: 0,
        cause: 0,
        priority: 0,
        pairs: 0,
        rate: 0.0,
        accumulated: 0.0,
        threshold: 0.0,
        interval_start: 0.0,
        ends: [0.0; 8],
        rates: [0.0; 8],
    }
}

fn channel_fields(c: HazardChannelState) -> CauseFields
    ensures { result ≡ cause_of c }
{
    let hazard = c.hazard;
    let ends = c.intervals.ends;
    let rates = c.intervals.rates;
    CauseFields {
        found: true,
        kind: hazards::rates::kind_number(hazard),
        cause: c.cause_id,
        priority: c.priority,
        pairs: c.intervals.count as u64,
        rate: hazards::rates::own_rate(hazard),
        accumulated: c.accumulated_hazard,
        threshold: c.target_threshold,
        interval_start: c.interval_start_time,
        ends,
        rates,
    }
}

// The cause at a place of a clock in its own rows.
fn own_cause(words: &ClockWords, floats: &ClockFloats, place: usize) -> CauseFields
    ensures { result ≡ cause_in (present_in words.now) (clock_from words.now floats.now) place }
{
    let settings = words[SETTINGS];
    if settings[PRESENT] != 1 {
        return no_cause();
    }
    if place >= (settings[COUNT] as usize).min(8) {
        return no_cause();
    }
    channel_fields(clocks::channels::channel_at(words, floats, place))
}

// The cause at a place of a clock, in ascending order.
pub fn cause_fields<'a>(
    words: &'a [[u64; 8]],
    floats: &'a [[f64; 8]],
    clock: usize,
    place: usize,
) -> CauseFields
    ensures { result ≡ cause_fields words.now floats.now clock place }
{
    let Some(own) = clock_rows(words, floats, clock) else {
        return no_cause();
    };
    own_cause(own.words, own.floats, place)
}
