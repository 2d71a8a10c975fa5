// reschedule, pause, resume and on_event_dispatched of hazard_clock.rs on a clock in lent memory, with what each asks of the queue. The
// piece is document 02's.
ghost use Rattle.std.specs.Prelude.{◌≡◌};
ghost use Rattle.clocks.specs.Clocks.{not_scheduled, no_winner, with_schedule};
ghost use Rattle.clocks.specs.Scheduling.{realized, final_event, scheduled_for};
ghost use Rattle.clocks.specs.Scheduling.{reschedule, pause, resume, on_event_dispatched};
ghost use Rattle.clocks.specs.RowsInternals.{censor_from, event_from, change_from, queue_change};
ghost use Rattle.clocks.specs.Layout.{Leaves, event_in, winner_in, clock_from};

use crate::clocks::{ScheduledEvent, Winner};
use crate::layout::{
    ACTIVE, ClockFloats, ClockWords, EVENT, EVENT_INDEX, LAST_UPDATE, SCALE, SCHEDULE, TIMES,
    WINNER, WINNER_CAUSE, WINNER_PIECE, WINNER_TIME, byte_from, u32_from,
};
use crate::ticks::Ticks;
use hazards::floats::not_below_zero;
use hazards::refusals::NO_CAUSE;
use hazards::ties::Candidate;

#[derive(Clone, Copy)]
pub struct RealizedEvent {
    pub winning_cause: u32,
    pub delta_time: f64,
    pub is_censored: bool,
    pub piece: u8,
}

// The event that is withdrawn, and the event that is asked for, with its ticks.
// Kept: the definition RowsInternals.QueueChange holds ticks beside an event that is not there too.
#[derive(Clone, Copy)]
pub struct QueueChange {
    pub withdrawn: ScheduledEvent,
    pub event: Option<RealizedEvent>,
    pub ticks: Ticks,
}

pub(crate) fn not_scheduled() -> ScheduledEvent
    ensures { result ≡ not_scheduled }
{
    ScheduledEvent {
        present: false,
        index: 0,
    }
}

fn no_winner() -> Winner
    ensures { result ≡ no_winner }
{
    Winner {
        present: false,
        cause_id: 0,
        time: 0.0,
        piece: 0,
    }
}

pub(crate) fn realized(
    winning_cause: u32,
    delta_time: f64,
    is_censored: bool,
    piece: u8,
) -> RealizedEvent
    ensures { event_from (Some result) ≡ realized winning_cause delta_time is_censored piece }
{
    RealizedEvent {
        winning_cause,
        delta_time,
        is_censored,
        piece,
    }
}

// Without a candidate a censor time from now on is answered.
fn censored_only(now: f64, censor: Option<f64>) -> Option<RealizedEvent>
    ensures { event_from result ≡ final_event None now (censor_from censor) }
{
    let Some(end) = censor else {
        return None;
    };
    if end >= now {
        return Some(realized(NO_CAUSE, end - now, true, 0));
    }
    None
}

// An event after the censor time is censored at it; one at the censor time is not.
pub(crate) fn final_event(
    earliest: Option<Candidate>,
    now: f64,
    censor: Option<f64>,
) -> Option<RealizedEvent>
    ensures { event_from result ≡ final_event earliest now (censor_from censor) }
{
    let Some(c) = earliest else {
        return censored_only(now, censor);
    };
    if let Some(end) = censor
        && !(c.time <= end)
    {
        let delta = not_below_zero(end - now);
        return Some(realized(NO_CAUSE, delta, true, 0));
    }
    let delta = not_below_zero(c.time - now);
    Some(realized(c.cause_id, delta, false, c.piece))
}

// The event in the row of a schedule.
fn event_in(row: &[u64; 8]) -> ScheduledEvent
    ensures { result ≡ event_in row.now }
{
    ScheduledEvent {
        present: row[EVENT] == 1,
        index: row[EVENT_INDEX],
    }
}

// The winner in the row of a schedule; its time lies among the floats.
fn winner_in(row: &[u64; 8], time: f64) -> Winner
    ensures { result ≡ winner_in row.now time }
{
    Winner {
        present: row[WINNER] == 1,
        cause_id: u32_from(row[WINNER_CAUSE]),
        time,
        piece: byte_from(row[WINNER_PIECE]),
    }
}

// Event, winner, active flag and time of the last update; the rest of the clock stays.
fn put_schedule(
    words: &mut ClockWords,
    floats: &mut ClockFloats,
    event: ScheduledEvent,
    winner: Winner,
    active: bool,
    last_update: f64,
)
    ensures { Leaves words.old floats.old words.new floats.new
        (with_schedule (clock_from words.old floats.old) event winner active last_update) }
{
    let b = words[SCHEDULE];
    let ts = floats[TIMES];
    words[SCHEDULE] = [
        u64::from(event.present),
        event.index,
        u64::from(winner.present),
        winner.cause_id as u64,
        u64::from(active),
        winner.piece as u64,
        b[6],
        b[7],
    ];
    floats[TIMES] = [
        ts[SCALE],
        winner.time,
        last_update,
        ts[3],
        ts[4],
        ts[5],
        ts[6],
        ts[7],
    ];
}

// The old event is withdrawn in any case; without a new one winner and active flag stay.
fn schedule_event(
    words: &mut ClockWords,
    floats: &mut ClockFloats,
    time: f64,
    event: Option<RealizedEvent>,
    index: u64,
) -> QueueChange
    ensures { Leaves words.old floats.old words.new floats.new
        (scheduled_for (clock_from words.old floats.old) time (event_from event) index).clock
        × (change_from result ≡ queue_change (scheduled_for (clock_from words.old floats.old) time (event_from event) index)) }
{
    let b = words[SCHEDULE];
    let ts = floats[TIMES];
    let withdrawn = event_in(&b);
    let Some(next) = event else {
        let winner = winner_in(&b, ts[WINNER_TIME]);
        put_schedule(words, floats, not_scheduled(), winner, b[ACTIVE] == 1, time);
        return QueueChange {
            withdrawn,
            event,
            ticks: Ticks { low: 0, high: 0 },
        };
    };
    let winner = Winner {
        present: true,
        cause_id: next.winning_cause,
        time: time + next.delta_time,
        piece: next.piece,
    };
    let scheduled = ScheduledEvent {
        present: true,
        index,
    };
    put_schedule(words, floats, scheduled, winner, true, time);
    let ticks = crate::ticks::ticks_at(time, next.delta_time, ts[SCALE]);
    QueueChange {
        withdrawn,
        event,
        ticks,
    }
}

// Nothing is settled. `index` is that of the next request.
pub fn reschedule(
    words: &mut ClockWords,
    floats: &mut ClockFloats,
    time: f64,
    censor: Option<f64>,
    index: u64,
) -> QueueChange
    ensures { Leaves words.old floats.old words.new floats.new
        (reschedule (clock_from words.old floats.old) time (censor_from censor) index).clock
        × (change_from result ≡ queue_change (reschedule (clock_from words.old floats.old) time (censor_from censor) index)) }
{
    let earliest = crate::clocks::compute_earliest_event(words, floats, time);
    let event = final_event(earliest, time, censor);
    schedule_event(words, floats, time, event, index)
}

// An active clock settles every channel and withdraws its event; any other is left as it is.
pub fn pause(words: &mut ClockWords, floats: &mut ClockFloats, time: f64) -> ScheduledEvent
    ensures { Leaves words.old floats.old words.new floats.new
        (pause (clock_from words.old floats.old) time).clock
        × (result ≡ (pause (clock_from words.old floats.old) time).withdrawn) }
{
    let b = words[SCHEDULE];
    if b[ACTIVE] != 1 {
        return not_scheduled();
    }
    crate::clocks::settle(words, floats, time);
    let winner = winner_in(&b, floats[TIMES][WINNER_TIME]);
    put_schedule(words, floats, not_scheduled(), winner, false, time);
    event_in(&b)
}

// Every channel starts a new interval, and the clock is rescheduled.
pub fn resume(
    words: &mut ClockWords,
    floats: &mut ClockFloats,
    time: f64,
    censor: Option<f64>,
    index: u64,
) -> QueueChange
    ensures { Leaves words.old floats.old words.new floats.new
        (resume (clock_from words.old floats.old) time (censor_from censor) index).clock
        × (change_from result ≡ queue_change (resume (clock_from words.old floats.old) time (censor_from censor) index)) }
{
    crate::clocks::restart(words, floats, time);
    reschedule(words, floats, time, censor, index)
}

// The winner is taken with its piece, and the clock is idle; a censored event has piece 0.
pub fn on_event_dispatched(
    words: &mut ClockWords,
    floats: &mut ClockFloats,
) -> Option<RealizedEvent>
    ensures { Leaves words.old floats.old words.new floats.new
        (on_event_dispatched (clock_from words.old floats.old)).clock
        × (event_from result ≡ (on_event_dispatched (clock_from words.old floats.old)).event) }
{
    let b = words[SCHEDULE];
    let ts = floats[TIMES];
    let winner = winner_in(&b, ts[WINNER_TIME]);
    let last = ts[LAST_UPDATE];
    put_schedule(words, floats, not_scheduled(), no_winner(), false, last);
    if !winner.present {
        return None;
    }
    let delta = not_below_zero(winner.time - last);
    if winner.cause_id == NO_CAUSE {
        return Some(realized(winner.cause_id, delta, true, 0));
    }
    Some(realized(winner.cause_id, delta, false, winner.piece))
}
