// What the rows of a clock are tested for where a state is handed in: that they are coded, and document 01's refusal 1.
ghost use Rattle.std.specs.Prelude.{◌≡◌, cond, true, ◌&&◌, [], ◌+◌, ◌<◌, ltb, get_or};
ghost use Rattle.std.specs.Float.{nan};
ghost use Rattle.hazards.specs.Rates.{kinds};
ghost use Rattle.clocks.specs.Layout.{u32_from, channel_at, clock_from, coded_settings, coded_schedule, spare_zero, coded_times};
ghost use Rattle.clocks.specs.Layout.{coded_numbers, coded_channels, coded_clock};
ghost use Rattle.clocks.specs.Validation.{is_finite, valid_channel, valid_clock};

use crate::layout::{
    ACCUMULATED, ACTIVE, CAUSE, CHANNEL_FLOATS, CHANNELS, COUNT, ClockFloats, ClockWords, ENDS,
    EVENT, GENERATION, HAS_ENTITY, KIND, LAST_UPDATE, NUMBERS, PAIRS, POLICY, PRESENT, PRIORITY,
    RATE, RATES, SCALE, SCHEDULE, SETTINGS, START, THRESHOLD, TIE, TIMES, WINNER, WINNER_CAUSE,
    WINNER_PIECE, WINNER_TIME, byte_from, u32_from,
};
use hazards::floats::zero_bits;
use hazards::rates::{KINDS, Pairs};

// The first word that is no u32.
const U32_END: u64 = 0x1_0000_0000;

fn settings_coded(a: &[u64; 8]) -> bool
    ensures { result ≡ coded_settings a.now }
{
    (a[PRESENT] < 2)
        & ((a[HAS_ENTITY] < 2) & ((a[GENERATION] < U32_END) & ((a[POLICY] < 2) & (a[TIE] < 3))))
}

fn schedule_coded(b: &[u64; 8]) -> bool
    ensures { result ≡ coded_schedule b.now }
{
    let rest = (b[WINNER_PIECE] < 256) & ((b[6] == 0) & (b[7] == 0));
    (b[EVENT] < 2) & ((b[WINNER] < 2) & ((b[WINNER_CAUSE] < U32_END) & ((b[ACTIVE] < 2) & rest)))
}

// The last four floats of a row. Each is read where the one before it passed, which takes less time.
fn spare_zero(ns: &[f64; 8]) -> bool
    ensures { result ≡ spare_zero ns.now }
{
    zero_bits(ns[4]) && (zero_bits(ns[5]) && (zero_bits(ns[6]) && zero_bits(ns[7])))
}

fn times_coded(ts: &[f64; 8]) -> bool
    ensures { result ≡ coded_times ts.now }
{
    zero_bits(ts[3]) && spare_zero(ts)
}

// A channel's kind, and its numbers by their kind.
fn kind_coded(kind: u64, ns: &[f64; 8]) -> bool
    ensures { result ≡ (ltb kind kinds && coded_numbers kind ns.now) }
{
    if kind == 0 {
        if !zero_bits(ns[RATE]) {
            return false;
        }
    }
    (kind < KINDS) && spare_zero(ns)
}

// Every channel, used or not. Causes with priorities, and what is spare, are joined bit by bit over all channels and tested once.
fn channels_coded(words: &ClockWords, floats: &ClockFloats) -> bool
    ensures { result ≡ coded_channels words.now floats.now }
{
    let mut ids: u64 = 0;
    let mut spare: u64 = 0;
    for j in 0..8 {
        let ws = &words[CHANNELS + j];
        if !kind_coded(ws[KIND], &floats[NUMBERS + CHANNEL_FLOATS * j]) {
            return false;
        }
        ids = ids | (ws[CAUSE] | ws[PRIORITY]);
        spare = spare | ((ws[4] | ws[5]) | (ws[6] | ws[7]));
    }
    (ids < U32_END) & (spare == 0)
}

pub fn clock_coded(words: &ClockWords, floats: &ClockFloats) -> bool
    ensures { result ≡ coded_clock words.now floats.now }
{
    settings_coded(&words[SETTINGS])
        && (schedule_coded(&words[SCHEDULE])
            && (times_coded(&floats[TIMES]) && channels_coded(words, floats)))
}

fn all_finite(a: f64, b: f64, c: f64) -> bool
    ensures { result ≡ (is_finite a && (is_finite b && is_finite c)) }
{
    a.is_finite() & (b.is_finite() & c.is_finite())
}

// A hazard that neither 5 nor 6 would refuse, and finite floats.
fn valid_channel(words: &ClockWords, floats: &ClockFloats, j: usize) -> bool
    requires { j < 8 }
    ensures { result ≡ valid_channel (channel_at words.now floats.now j) }
{
    let ws = words[CHANNELS + j];
    let ns = floats[NUMBERS + CHANNEL_FLOATS * j];
    let hazard = hazards::rates::rate_of_kind(byte_from(ws[KIND]), ns[RATE]);
    let pairs = Pairs {
        ends: &floats[ENDS + CHANNEL_FLOATS * j],
        rates: &floats[RATES + CHANNEL_FLOATS * j],
        count: ws[PAIRS] as usize,
    };
    let range = hazards::checks::range_fault(hazard, pairs.rates, pairs.count);
    let intervals = hazards::checks::intervals_fault(hazard, pairs);
    let finite = all_finite(ns[ACCUMULATED], ns[THRESHOLD], ns[START]);
    !range & (!intervals & finite)
}

// One above the cause of channel j.
fn cause_above(words: &ClockWords, j: usize) -> u64
    requires { j < 8 }
    ensures { result ≡ u32_from (get_or (get_or words.now (2 + j) []) 0 0) + 1 }
{
    u32_from(words[CHANNELS + j][CAUSE]) as u64 + 1
}

// The winner's time is used where there is a winner.
fn valid_times(winner: bool, ts: &[f64; 8]) -> bool
    ensures { result ≡ (is_finite (get_or ts.now 0 nan)
        && (is_finite (get_or ts.now 2 nan) && cond winner (is_finite (get_or ts.now 1 nan)) true)) }
{
    if !(ts[SCALE].is_finite() & ts[LAST_UPDATE].is_finite()) {
        return false;
    }
    !winner || ts[WINNER_TIME].is_finite()
}

// A channel's cause is at least `least`, which is one above the cause before it.
pub fn valid_clock(words: &ClockWords, floats: &ClockFloats) -> bool
    ensures { result ≡ valid_clock (clock_from words.now floats.now) }
{
    let used = words[SETTINGS][COUNT] as usize;
    if used > 8 {
        return false;
    }
    let mut least: u64 = 0;
    for j in 0..used {
        let above = cause_above(words, j);
        if !(valid_channel(words, floats, j) & (least < above)) {
            return false;
        }
        least = above;
    }
    let winner = words[SCHEDULE][WINNER] == 1;
    valid_times(winner, &floats[TIMES])
}
