// The channels of a survival clock: one cause with its hazard, its threshold and what was accumulated of it; loaded from the rows of its
// clock, stored in them, and settled where it lies.
ghost use Rattle.std.specs.Prelude.{◌≡◌, ◌<◌, set};
ghost use Rattle.std.specs.Float.{binary64};
ghost use Rattle.std.specs.Float.Ieee.{add, sub};
ghost use Rattle.hazards.specs.Floats.{not_below_zero};
ghost use Rattle.hazards.specs.Rates.{lent_pairs, cumulative_hazard};
ghost use Rattle.clocks.specs.Channels.{empty_intervals, empty_channel, settled_hazard};
ghost use Rattle.clocks.specs.Clocks.{with_channels};
ghost use Rattle.clocks.specs.Layout.{Leaves, channel_at, clock_from};

use crate::layout::{
    ACCUMULATED, CAUSE, CHANNEL_FLOATS, CHANNELS, ClockFloats, ClockWords, ENDS, KIND, NUMBERS,
    PAIRS, PRIORITY, RATE, RATES, START, THRESHOLD, byte_from, u32_from,
};
use hazards::rates::{HazardRate, Intervals, Pairs};

#[derive(Clone, Copy)]
pub struct HazardChannelState {
    pub cause_id: u32,
    pub priority: u32,
    pub hazard: HazardRate,
    pub intervals: Intervals,
    pub accumulated_hazard: f64,
    pub target_threshold: f64,
    pub interval_start_time: f64,
}

// No pairs.
pub fn empty_intervals() -> Intervals
    ensures { result ≡ empty_intervals }
{
    Intervals {
        ends: [0.0; 8],
        rates: [0.0; 8],
        count: 0,
    }
}

// What an unused place holds.
pub fn empty_channel() -> HazardChannelState
    ensures { result ≡ empty_channel }
{
    let intervals = empty_intervals();
    HazardChannelState {
        cause_id: 0,
        priority: 0,
        hazard: HazardRate::Zero,
        intervals,
        accumulated_hazard: 0.0,
        target_threshold: 0.0,
        interval_start_time: 0.0,
    }
}

// The hazard of the time since an interval's start, added to what was accumulated before.
pub(crate) fn accumulated_at(
    accumulated: f64,
    hazard: HazardRate,
    pairs: Pairs<'_>,
    start: f64,
    time: f64,
) -> f64
    ensures { result ≡ add binary64 accumulated (cumulative_hazard hazard (lent_pairs pairs.entry)
        (not_below_zero (sub binary64 time start))) }
{
    let elapsed = hazards::floats::not_below_zero(time - start);
    let added = hazards::rates::cumulative_hazard(hazard, pairs, elapsed);
    accumulated + added
}

// The hazard that a channel has accumulated at a time.
pub(crate) fn settled_hazard(channel: HazardChannelState, now: f64) -> f64
    ensures { result ≡ settled_hazard channel now }
{
    let pairs = Pairs {
        ends: &channel.intervals.ends,
        rates: &channel.intervals.rates,
        count: channel.intervals.count,
    };
    accumulated_at(
        channel.accumulated_hazard,
        channel.hazard,
        pairs,
        channel.interval_start_time,
        now,
    )
}

pub fn channel_at(words: &ClockWords, floats: &ClockFloats, j: usize) -> HazardChannelState
    requires { j < 8 }
    ensures { result ≡ channel_at words.now floats.now j }
{
    let ws = words[CHANNELS + j];
    let ns = floats[NUMBERS + CHANNEL_FLOATS * j];
    let ends = floats[ENDS + CHANNEL_FLOATS * j];
    let rates = floats[RATES + CHANNEL_FLOATS * j];
    let intervals = Intervals {
        ends,
        rates,
        count: ws[PAIRS] as usize,
    };
    HazardChannelState {
        cause_id: u32_from(ws[CAUSE]),
        priority: u32_from(ws[PRIORITY]),
        hazard: hazards::rates::rate_of_kind(byte_from(ws[KIND]), ns[RATE]),
        intervals,
        accumulated_hazard: ns[ACCUMULATED],
        target_threshold: ns[THRESHOLD],
        interval_start_time: ns[START],
    }
}

pub(crate) fn put_channel(
    words: &mut ClockWords,
    floats: &mut ClockFloats,
    j: usize,
    c: HazardChannelState,
)
    requires { j < 8 }
    ensures { Leaves words.old floats.old words.new floats.new
        (with_channels (clock_from words.old floats.old)
        (set (clock_from words.old floats.old).channels j c)
        (clock_from words.old floats.old).channel_count) }
{
    let hazard = c.hazard;
    let kind = hazards::rates::kind_number(hazard) as u64;
    let rate = hazards::rates::own_rate(hazard);
    let pairs = c.intervals.count as u64;
    let ends = c.intervals.ends;
    let rates = c.intervals.rates;
    let ws = [
        c.cause_id as u64,
        c.priority as u64,
        kind,
        pairs,
        0,
        0,
        0,
        0,
    ];
    let ns = [
        c.accumulated_hazard,
        c.target_threshold,
        c.interval_start_time,
        rate,
        0.0,
        0.0,
        0.0,
        0.0,
    ];
    words[CHANNELS + j] = ws;
    floats[NUMBERS + CHANNEL_FLOATS * j] = ns;
    floats[ENDS + CHANNEL_FLOATS * j] = ends;
    floats[RATES + CHANNEL_FLOATS * j] = rates;
}

// The hazard that channel j has accumulated at a time.
pub(crate) fn settled_at(words: &ClockWords, floats: &ClockFloats, j: usize, time: f64) -> f64
    requires { j < 8 }
    ensures { result ≡ settled_hazard (channel_at words.now floats.now j) time }
{
    let ws = words[CHANNELS + j];
    let ns = floats[NUMBERS + CHANNEL_FLOATS * j];
    let pairs = Pairs {
        ends: &floats[ENDS + CHANNEL_FLOATS * j],
        rates: &floats[RATES + CHANNEL_FLOATS * j],
        count: ws[PAIRS] as usize,
    };
    let hazard = hazards::rates::rate_of_kind(byte_from(ws[KIND]), ns[RATE]);
    accumulated_at(ns[ACCUMULATED], hazard, pairs, ns[START], time)
}
