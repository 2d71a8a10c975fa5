// A clock's fields, read where they lie in its rows and written as a record of 1,424 bytes (host/README.md).
ghost use Rattle.std.specs.Prelude.{◌≤◌};

use crate::steps::Clock;
use clocks::channels::HazardChannelState;
use clocks::layout::{
    ACTIVE, COUNT, ENTITY_INDEX, EVENT, EVENT_INDEX, GENERATION, HAS_ENTITY, LAST_UPDATE, POLICY,
    PROCESS, SCALE, SCHEDULE, SETTINGS, TIE, TIMES, WINNER, WINNER_CAUSE, WINNER_PIECE,
    WINNER_TIME, byte_from, u32_from,
};
use hazards::fields::{put_f64, put_u8, put_u32, put_u64};
use hazards::rates::{HazardRate, Intervals, kind_number, own_rate};

pub const CLOCK_WIDTH: usize = 1452;

// Eight floats, 16 bytes apart.
fn put_floats(out: &mut [u8], at: usize, values: &[f64; 8])
    requires { at ≤ 4096 }
{
    for (i, value) in values.iter().enumerate() {
        put_f64(out, at + 16 * i, *value);
    }
}

// kind, first, count and the pairs.
fn put_hazard(out: &mut [u8], at: usize, hazard: HazardRate, intervals: Intervals)
    requires { at ≤ 3072 }
{
    put_u8(out, at, kind_number(hazard));
    put_f64(out, at + 1, own_rate(hazard));
    put_u8(out, at + 9, byte_from(intervals.count as u64));
    put_floats(out, at + 10, &intervals.ends);
    put_floats(out, at + 18, &intervals.rates);
}

fn put_channel(out: &mut [u8], at: usize, c: HazardChannelState)
    requires { at ≤ 2048 }
{
    put_u32(out, at, c.cause_id);
    put_u32(out, at + 4, c.priority);
    put_f64(out, at + 146, c.accumulated_hazard);
    put_f64(out, at + 154, c.target_threshold);
    put_f64(out, at + 162, c.interval_start_time);
    let hazard = c.hazard;
    let intervals = c.intervals;
    put_hazard(out, at + 8, hazard, intervals);
}

// Every place for a channel, used or not.
fn put_channels(out: &mut [u8], clock: &Clock) {
    for j in 0..8 {
        let channel = clocks::channels::channel_at(&clock.words, &clock.floats, j);
        put_channel(out, 32 + 170 * j, channel);
    }
}

// What CREATE gave.
fn put_settings(out: &mut [u8], a: &[u64; 8], scale: f64) {
    put_u64(out, 0, a[PROCESS]);
    put_u8(out, 8, byte_from(a[HAS_ENTITY]));
    put_u64(out, 9, a[ENTITY_INDEX]);
    put_u32(out, 17, u32_from(a[GENERATION]));
    put_u8(out, 21, byte_from(a[POLICY]));
    put_u8(out, 22, byte_from(a[TIE]));
    put_f64(out, 23, scale);
}

// The event that the clock has in the queue, its winner and its times.
fn put_schedule(out: &mut [u8], b: &[u64; 8], times: &[f64; 8]) {
    put_u8(out, 1392, byte_from(b[EVENT]));
    put_u64(out, 1393, b[EVENT_INDEX]);
    put_u8(out, 1401, byte_from(b[WINNER]));
    put_u32(out, 1402, u32_from(b[WINNER_CAUSE]));
    put_f64(out, 1406, times[WINNER_TIME]);
    put_u8(out, 1414, byte_from(b[ACTIVE]));
    put_f64(out, 1415, times[LAST_UPDATE]);
}

pub fn put_clock(out: &mut [u8], clock: &Clock) {
    let Clock { words, floats, .. } = clock;
    put_settings(out, &words[SETTINGS], floats[TIMES][SCALE]);
    put_u8(out, 31, byte_from(words[SETTINGS][COUNT]));
    put_channels(out, clock);
    put_schedule(out, &words[SCHEDULE], &floats[TIMES]);
    put_u8(out, 1423, byte_from(words[SCHEDULE][WINNER_PIECE]));
}
