// libprobe.a: the calls of crates/probe for C, under their names and with their clauses. host/bench links it.
// Kept: the C interface needs them in a static library, which no crate can call; hazard_answers calls crates/probe.
#![tactic(auto)]

ghost use Rattle.std.specs.Prelude.{◌≡◌};
ghost use Rattle.hazards.specs.Rates.{intervals_from, hazard_at, cumulative_hazard, rate_of_kind};
ghost use Rattle.hazards.specs.Roots.{nearest_root};

use probe::Inverted;

// One checked evaluation for each point of 16 bytes (t f64, w f64), while there are points and room; the number of them.
#[unsafe(no_mangle)]
pub extern "C" fn probe_evaluate(op: u8, hazard: &[u8], points: &[u8], out: &mut [u8]) -> u64 {
    probe::probe_evaluate(op, hazard, points, out)
}

// A checked evaluation on numbers; a NaN where it is refused or there is no wait.
#[unsafe(no_mangle)]
pub extern "C" fn probe_evaluate_numbers<'a>(
    op: u8,
    kind: u8,
    first: f64,
    count: u8,
    ends: &'a [f64; 8],
    rates: &'a [f64; 8],
    t: f64,
    w: f64,
) -> f64 {
    probe::probe_evaluate_numbers(op, kind, first, count, ends, rates, t, w)
}

// The three evaluations on numbers, without checks.
#[unsafe(no_mangle)]
pub extern "C" fn probe_hazard_at<'a>(
    kind: u8,
    first: f64,
    count: u64,
    ends: &'a [f64; 8],
    rates: &'a [f64; 8],
    t: f64,
) -> f64
    ensures { result ≡ hazard_at (rate_of_kind kind first) (intervals_from ends.now rates.now count) t }
{
    probe::probe_hazard_at(kind, first, count, ends, rates, t)
}

#[unsafe(no_mangle)]
pub extern "C" fn probe_cumulative_hazard<'a>(
    kind: u8,
    first: f64,
    count: u64,
    ends: &'a [f64; 8],
    rates: &'a [f64; 8],
    t: f64,
) -> f64
    ensures { result ≡ cumulative_hazard (rate_of_kind kind first) (intervals_from ends.now rates.now count) t }
{
    probe::probe_cumulative_hazard(kind, first, count, ends, rates, t)
}

// A NaN where there is no wait.
#[unsafe(no_mangle)]
pub extern "C" fn probe_invert_cumulative_hazard<'a>(
    kind: u8,
    first: f64,
    count: u64,
    ends: &'a [f64; 8],
    rates: &'a [f64; 8],
    t_start: f64,
    target_w: f64,
) -> Inverted {
    probe::probe_invert_cumulative_hazard(kind, first, count, ends, rates, t_start, target_w)
}

// The f64 nearest to the root of x.
#[unsafe(no_mangle)]
pub extern "C" fn probe_nearest_root(x: f64) -> f64
    ensures { result ≡ nearest_root x }
{
    probe::probe_nearest_root(x)
}

// One sample for each position of 8 bytes, while there are positions and room; the number of them. A request is n u8, the
// settings, 8 causes.
#[unsafe(no_mangle)]
pub extern "C" fn probe_sample(
    request: &[u8],
    stream: &[u8],
    positions: &[u8],
    out: &mut [u8],
) -> u64 {
    probe::probe_sample(request, stream, positions, out)
}
