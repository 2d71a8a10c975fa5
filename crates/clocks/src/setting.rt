// set_channel of hazard_clock.rs on a clock in lent memory: adds a cause or sets it again, with its draw; a refusal changes nothing.
ghost use Rattle.std.specs.Prelude.{◌≡◌, ◌<◌, OnErr};
ghost use Rattle.clocks.specs.Layout.{FloatRows, Leaves, clock_from};
ghost use Rattle.clocks.specs.Setting.{channel_of, draws_again, set_again, set_new, set_channel};
ghost use Rattle.clocks.specs.RowsInternals.{takes_cause, channel_drawn, channel_draw};

use crate::channels::HazardChannelState;
use crate::clocks::HazardInterruptionPolicy;
use crate::layout::{COUNT, ClockFloats, ClockWords, POLICY, SETTINGS, byte_from};
use hazards::draws::StreamPosition;
use hazards::rates::{HazardRate, Intervals};
use hazards::refusals::Refusal;

// What SET says of a cause.
#[derive(Clone, Copy)]
pub struct CauseSetting {
    pub cause_id: u32,
    pub priority: u32,
    pub hazard: HazardRate,
    pub intervals: Intervals,
    pub now: f64,
}

pub(crate) fn channel_of(
    setting: CauseSetting,
    accumulated: f64,
    threshold: f64,
) -> HazardChannelState
    ensures { result ≡ channel_of setting accumulated threshold }
{
    let hazard = setting.hazard;
    let intervals = setting.intervals;
    HazardChannelState {
        cause_id: setting.cause_id,
        priority: setting.priority,
        hazard,
        intervals,
        accumulated_hazard: accumulated,
        target_threshold: threshold,
        interval_start_time: setting.now,
    }
}

pub(crate) fn draws_again(
    policy: HazardInterruptionPolicy,
    accumulated: f64,
    threshold: f64,
) -> bool
    ensures { result ≡ draws_again policy accumulated threshold }
{
    match policy {
        HazardInterruptionPolicy::Restart => true,
        HazardInterruptionPolicy::RetainResidual => accumulated >= threshold,
    }
}

// Whether the clock has a cause, or a place for it.
pub fn takes_cause(words: &ClockWords, cause: u32) -> bool
    ensures { (floats : FloatRows) → result ≡ takes_cause (clock_from words.now floats) cause }
{
    match crate::clocks::place_of_cause(words, cause) {
        Some(_) => true,
        None => words[SETTINGS][COUNT] < 8,
    }
}

// A cause that the clock has, at its place.
fn set_again(
    words: &mut ClockWords,
    floats: &mut ClockFloats,
    setting: CauseSetting,
    stream: &[u8],
    position: usize,
    at: usize,
) -> Result<usize, Refusal>
    requires { at < 8 }
    ensures { Leaves words.old floats.old words.new floats.new
        (set_again (clock_from words.old floats.old) setting stream.now position at).clock
        × (channel_drawn position result ≡ channel_draw (set_again (clock_from words.old floats.old) setting stream.now position at))
        × OnErr result ((words.new ≡ words.old) × (floats.new ≡ floats.old)) }
{
    let old = crate::channels::channel_at(words, floats, at);
    let accumulated = crate::channels::settled_hazard(old, setting.now);
    let policy = HazardInterruptionPolicy::from(byte_from(words[SETTINGS][POLICY]));
    if !draws_again(policy, accumulated, old.target_threshold) {
        let kept = channel_of(setting, accumulated, old.target_threshold);
        crate::channels::put_channel(words, floats, at, kept);
        return Ok(position);
    }
    let drawn = hazards::draws::draw_from(stream, StreamPosition { next: position })?;
    let fresh = channel_of(setting, 0.0, drawn.threshold);
    crate::channels::put_channel(words, floats, at, fresh);
    Ok(drawn.position.next)
}

// A cause that is new to the clock, put in at its place by ascending cause; a ninth is refused.
fn set_new(
    words: &mut ClockWords,
    floats: &mut ClockFloats,
    setting: CauseSetting,
    stream: &[u8],
    position: usize,
) -> Result<usize, Refusal>
    ensures { Leaves words.old floats.old words.new floats.new
        (set_new (clock_from words.old floats.old) setting stream.now position).clock
        × (channel_drawn position result ≡ channel_draw (set_new (clock_from words.old floats.old) setting stream.now position))
        × OnErr result ((words.new ≡ words.old) × (floats.new ≡ floats.old)) }
{
    if words[SETTINGS][COUNT] >= 8 {
        return Err(Refusal::TooManyCauses);
    }
    let drawn = hazards::draws::draw_from(stream, StreamPosition { next: position })?;
    let channel = channel_of(setting, 0.0, drawn.threshold);
    let at = crate::clocks::place_for_new(words, setting.cause_id);
    crate::clocks::insert_channel(words, floats, at, channel);
    Ok(drawn.position.next)
}

// The used channel with the setting's cause, if any, is set again; a cause without one is new.
pub fn set_channel(
    words: &mut ClockWords,
    floats: &mut ClockFloats,
    setting: CauseSetting,
    stream: &[u8],
    position: usize,
) -> Result<usize, Refusal>
    ensures { Leaves words.old floats.old words.new floats.new
        (set_channel (clock_from words.old floats.old) setting stream.now position).clock
        × (channel_drawn position result ≡ channel_draw (set_channel (clock_from words.old floats.old) setting stream.now position))
        × OnErr result ((words.new ≡ words.old) × (floats.new ≡ floats.old)) }
{
    match crate::clocks::place_of_cause(words, setting.cause_id) {
        Some(at) => set_again(words, floats, setting, stream, position, at),
        None => set_new(words, floats, setting, stream, position),
    }
}
