// Document 02, change 11: the constant rate at which a threshold is used up after a given wait.
ghost use Rattle.std.specs.Prelude.{◌≡◌, true, ◌≤◌};
ghost use Rattle.hazards.specs.FirstPlace.{FirstPlace, Between};
ghost use Rattle.hazards.specs.RateForWait.{within_limits, rate_answer, Answers};
ghost use Rattle.hazards.specs.RateForWaitInternals.{past_limit, used_up_within, bracket_of, exact_rate};

use crate::floats::{INVERSE_LIMIT, LIMIT, MOST_THRESHOLD};
use crate::refusals::Refusal;

// The bit pattern of 2^40, the largest rate, and the one behind it.
const LIMIT_PATTERN: u64 = 0x4270_0000_0000_0000;

const PAST_LIMIT: u64 = 0x4270_0000_0000_0001;

// A threshold above 0 and at most 1,024, a wait from 2^-40 to 2^40.
fn within_limits(threshold: f64, wait: f64) -> bool
    ensures { result ≡ within_limits threshold wait }
{
    let threshold_fits = (threshold > 0.0) & (threshold <= MOST_THRESHOLD);
    let wait_fits = (wait >= INVERSE_LIMIT) & (wait <= LIMIT);
    threshold_fits & wait_fits
}

// Whether threshold / rate is at most the wait, at the rate with this bit pattern.
fn used_up_within(threshold: f64, wait: f64, pattern: u64) -> bool
    requires { pattern ≤ past_limit }
    ensures { result ≡ used_up_within threshold wait pattern }
{
    threshold / f64::from_bits(pattern) <= wait
}

// Bit patterns from `low` to `high`.
#[derive(Clone, Copy)]
struct Bracket {
    low: u64,
    high: u64,
}

// All rates, and PAST_LIMIT for none.
fn all_rates() -> Bracket
    ensures { result ≡ bracket_of 1 past_limit }
{
    Bracket {
        low: 1,
        high: PAST_LIMIT,
    }
}

// Patterns among which the first one is: that of threshold / wait and its two neighbours where the quotients on both sides tell so, else
// all. At the ends of the range, where there is no rate on both sides, they are not asked.
fn bracket_around(threshold: f64, wait: f64) -> Bracket
    requires { within_limits threshold wait ≡ true }
    ensures { Between (used_up_within threshold wait) 1 past_limit result.low result.high }
{
    let near = f64::to_bits(threshold / wait);
    if near < 3 {
        return all_rates();
    }
    if near >= LIMIT_PATTERN {
        return all_rates();
    }
    let below = near - 2;
    let above = near + 1;
    if used_up_within(threshold, wait, below) {
        return all_rates();
    }
    if used_up_within(threshold, wait, above) {
        return Bracket {
            low: below + 1,
            high: above,
        };
    }
    all_rates()
}

// The bit pattern of the smallest rate for which threshold / rate is at most the wait, or PAST_LIMIT, by bisection: bit patterns of
// positive floats ascend with their values, and the quotient never grows as the rate grows.
// Kept: a bisection counts no index, and the library's is over slices.
fn first_pattern(threshold: f64, wait: f64) -> u64
    requires { within_limits threshold wait ≡ true }
    ensures { FirstPlace (used_up_within threshold wait) 1 past_limit result }
{
    let start = bracket_around(threshold, wait);
    let mut low = start.low;
    let mut high = start.high;
    while low < high {
        let middle = (low + high) / 2;
        if used_up_within(threshold, wait, middle) {
            high = middle;
        } else {
            low = middle + 1;
        }
    }
    low
}

// The rate with this bit pattern where threshold / rate is the wait, else 24.
fn exact_rate(threshold: f64, wait: f64, pattern: u64) -> Result<f64, Refusal>
    requires { pattern ≤ past_limit }
    ensures { rate_answer result ≡ exact_rate threshold wait pattern }
{
    let rate = f64::from_bits(pattern);
    if threshold / rate == wait {
        return Ok(rate);
    }
    Err(Refusal::NoRate)
}

// The smallest positive rate, at most 2^40, for which threshold / rate rounds to exactly the wait. 24 where there is none, 23 where
// threshold or wait is outside its limits.
pub fn rate_for_wait(threshold: f64, wait: f64) -> Result<f64, Refusal>
    ensures { Answers threshold wait (rate_answer result) }
{
    if !within_limits(threshold, wait) {
        return Err(Refusal::OutsideLimits);
    }
    let pattern = first_pattern(threshold, wait);
    if pattern == PAST_LIMIT {
        return Err(Refusal::NoRate);
    }
    exact_rate(threshold, wait, pattern)
}
