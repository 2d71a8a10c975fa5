// Hazard rates of competing_risks.rs: the hazard, the cumulative hazard and its inverse, each float operation rounded once. Kind 4,
// Weibull with shape 2, and the piece that a wait ends in are document 02's.
ghost use Rattle.std.specs.Prelude.{◌≡◌, ◌≤◌, ◌&&◌, min, []};
ghost use Rattle.std.specs.Float.Ieee.{lt, le};
ghost use Rattle.hazards.specs.Floats.{z};
ghost use Rattle.hazards.specs.Rates.{rate_of_kind, kind_number, own_rate};
ghost use Rattle.hazards.specs.Rates.{lent_pairs, used_pairs, uses_pairs, piecewise_hazard, piecewise_cumulative, first_after};
ghost use Rattle.hazards.specs.Rates.{weibull_hazard, weibull_cumulative, weibull_wait};
ghost use Rattle.hazards.specs.Rates.{ends_in, wait_from, piecewise_wait, constant_wait, hazard_at, cumulative_hazard};
ghost use Rattle.hazards.specs.Rates.{invert_cumulative_hazard};

use crate::floats::{is_finite_wait, not_below_zero};
use crate::roots::nearest_root;

// A hazard with its first field: the rate of Constant, eta of Gompertz (with b = 0), the trailing rate of PiecewiseConstant, the scale of
// Weibull (with shape 2).
#[derive(Clone, Copy)]
pub enum HazardRate {
    Zero,
    Constant(f64),
    Gompertz(f64),
    Piecewise(f64),
    Weibull(f64),
}

// The pairs of a piecewise hazard, of which the first `count` are used.
// Kept: document 01 has eight ends and eight rates, and the definition Checks.pairs_fault refuses a count above 8.
#[derive(Clone, Copy)]
pub struct Intervals {
    pub ends: [f64; 8],
    pub rates: [f64; 8],
    pub count: usize,
}

// The pairs of a hazard, lent where they lie: a clock's rows hold ends and rates apart.
// Kept beside Intervals, which owns them: lent, their 128 bytes are not copied.
#[derive(Clone, Copy)]
pub struct Pairs<'a> {
    pub ends: &'a [f64; 8],
    pub rates: &'a [f64; 8],
    pub count: usize,
}

// A wait, and the piece of the rate curve that it ends in.
#[derive(Clone, Copy)]
pub struct Wait {
    pub time: f64,
    pub piece: usize,
}

impl Wait {
    // A wait that ends in no piece, told with piece 0.
    fn without_piece(time: f64) -> Wait
        ensures { result ≡ record { time = time; piece = 0 } }
    {
        Wait { time, piece: 0 }
    }
}

// How many kinds there are.
pub const KINDS: u64 = 5;

// The hazard of a kind and its first field; a kind off the list is refused by 4 before this is asked.
// Kept: a kind and its first field are two values, and From of a pair of them would say no more plainly which is which.
pub fn rate_of_kind(kind: u8, first: f64) -> HazardRate
    ensures { result ≡ rate_of_kind kind first }
{
    match kind {
        0 => HazardRate::Zero,
        1 => HazardRate::Constant(first),
        2 => HazardRate::Gompertz(first),
        3 => HazardRate::Piecewise(first),
        _ => HazardRate::Weibull(first),
    }
}

// A hazard's kind.
// Kept: its variants have fields, so no `as u8` gives their numbers, and an impl From would hold the same match.
pub fn kind_number(hazard: HazardRate) -> u8
    ensures { result ≡ kind_number hazard }
{
    match hazard {
        HazardRate::Zero => 0,
        HazardRate::Constant(_) => 1,
        HazardRate::Gompertz(_) => 2,
        HazardRate::Piecewise(_) => 3,
        HazardRate::Weibull(_) => 4,
    }
}

// The hazard's first field: its own rate or scale, +0.0 for Zero.
// Kept: the definition Rates.own_rate gives each variant its field, and this match says the same.
pub fn own_rate(hazard: HazardRate) -> f64
    ensures { result ≡ own_rate hazard }
{
    match hazard {
        HazardRate::Zero => 0.0,
        HazardRate::Constant(rate) => rate,
        HazardRate::Gompertz(eta) => eta,
        HazardRate::Piecewise(trailing) => trailing,
        HazardRate::Weibull(scale) => scale,
    }
}

// Whether a hazard uses pairs at all.
pub(crate) fn uses_pairs(hazard: HazardRate) -> bool
    ensures { result ≡ uses_pairs hazard }
{
    matches!(hazard, HazardRate::Piecewise(_))
}

impl<'a> Pairs<'a> {
    // How many are used: the first `count`, at most all eight.
    pub(crate) fn used(self) -> usize
        ensures { result ≡ min self.entry.count 8 }
    {
        self.count.min(8)
    }

    fn hazard(self, trailing: f64, t: f64) -> f64
        ensures { result ≡ piecewise_hazard (used_pairs (lent_pairs self.entry)) trailing t }
    {
        let used = self.used();
        for i in 0..used {
            if t < self.ends[i] {
                return not_below_zero(self.rates[i]);
            }
        }
        not_below_zero(trailing)
    }

    fn cumulative(self, trailing: f64, t: f64) -> f64
        ensures { result ≡ piecewise_cumulative (used_pairs (lent_pairs self.entry)) trailing t z z }
    {
        let used = self.used();
        let mut cum = 0.0;
        let mut cur_t = 0.0;
        for i in 0..used {
            let end_t = self.ends[i];
            let rate = not_below_zero(self.rates[i]);
            if t <= end_t {
                return cum + rate * (t - cur_t);
            }
            cum = cum + rate * (end_t - cur_t);
            cur_t = end_t;
        }
        cum + not_below_zero(trailing) * (t - cur_t)
    }

    // The index of the first used pair that does not end at or before t, or one past the used pairs.
    fn interval_after(self, t: f64) -> usize
        ensures within { result ≤ min self.entry.count 8 }
        ensures first { result ≡ first_after t (used_pairs (lent_pairs self.entry)) }
    {
        let used = self.used();
        for i in 0..used {
            if !(t >= self.ends[i]) {
                return i;
            }
        }
        used
    }

    fn wait(self, trailing: f64, start: f64, w: f64) -> Option<Wait>
        ensures { result ≡ piecewise_wait (used_pairs (lent_pairs self.entry)) trailing start w }
    {
        let used = self.used();
        let first = self.interval_after(start);
        let mut cur_t = start;
        let mut remaining_w = w;
        for i in first..used {
            let end_t = self.ends[i];
            let rate = not_below_zero(self.rates[i]);
            let capacity_w = rate * (end_t - cur_t);
            if within_capacity(rate, remaining_w, capacity_w) {
                return ends_in(i, cur_t + remaining_w / rate - start);
            }
            remaining_w = remaining_w - capacity_w;
            cur_t = end_t;
        }
        trailing_wait(used, trailing, start, cur_t, remaining_w)
    }
}

// With q the age in scales, the hazard is (2 / scale) * q.
fn weibull_hazard(scale: f64, t: f64) -> f64
    ensures { result ≡ weibull_hazard scale t }
{
    if scale <= 0.0 {
        0.0
    } else {
        2.0 / scale * (t / scale)
    }
}

// The hazard at time t, 0 before time 0.
pub fn hazard_at(hazard: HazardRate, pairs: Pairs<'_>, t: f64) -> f64
    ensures { result ≡ hazard_at hazard (lent_pairs pairs.entry) t }
{
    if t < 0.0 {
        return 0.0;
    }
    match hazard {
        HazardRate::Zero => 0.0,
        HazardRate::Constant(rate) => not_below_zero(rate),
        HazardRate::Gompertz(eta) => if eta <= 0.0 { 0.0 } else { eta },
        HazardRate::Piecewise(trailing) => pairs.hazard(trailing, t),
        HazardRate::Weibull(scale) => weibull_hazard(scale, not_below_zero(t)),
    }
}

// With q the age in scales, the hazard accumulated is q * q.
fn weibull_cumulative(scale: f64, t: f64) -> f64
    ensures { result ≡ weibull_cumulative scale t }
{
    if scale <= 0.0 {
        return 0.0;
    }
    let q = t / scale;
    q * q
}

// The hazard accumulated from 0 to t.
pub fn cumulative_hazard(hazard: HazardRate, pairs: Pairs<'_>, t: f64) -> f64
    ensures { result ≡ cumulative_hazard hazard (lent_pairs pairs.entry) t }
{
    if t <= 0.0 {
        return 0.0;
    }
    match hazard {
        HazardRate::Zero => 0.0,
        HazardRate::Constant(rate) => not_below_zero(rate) * t,
        HazardRate::Gompertz(eta) => if eta <= 0.0 { 0.0 } else { eta * t },
        HazardRate::Piecewise(trailing) => pairs.cumulative(trailing, t),
        HazardRate::Weibull(scale) => weibull_cumulative(scale, t),
    }
}

fn within_capacity(rate: f64, w: f64, capacity: f64) -> bool
    ensures { result ≡ (lt z rate && le w capacity) }
{
    rate > 0.0 && w <= capacity
}

// A wait that ends in a piece; one that is not finite ends in none, and is told with piece 0.
fn ends_in(piece: usize, wait: f64) -> Option<Wait>
    ensures { result ≡ ends_in piece wait }
{
    if is_finite_wait(wait) {
        Some(Wait { time: wait, piece })
    } else {
        Some(Wait::without_piece(wait))
    }
}

// The wait at the trailing rate, from cur_t on; `piece` is the number of pairs.
fn trailing_wait(piece: usize, trailing: f64, start: f64, cur_t: f64, w: f64) -> Option<Wait>
    ensures { result ≡ wait_from piece [] trailing start cur_t w }
{
    let rate = not_below_zero(trailing);
    if rate <= 0.0 {
        None
    } else {
        ends_in(piece, cur_t + w / rate - start)
    }
}

// The wait until w has accumulated at one rate.
pub(crate) fn constant_wait(rate: f64, w: f64) -> Option<Wait>
    ensures { result ≡ constant_wait rate w }
{
    if rate <= 0.0 {
        None
    } else {
        Some(Wait::without_piece(w / rate))
    }
}

// The age at which the hazard accumulated is w more than at the start, less the start.
fn weibull_wait(scale: f64, start: f64, w: f64) -> Option<Wait>
    ensures { result ≡ weibull_wait scale start w }
{
    if scale <= 0.0 {
        return None;
    }
    let s = nearest_root(weibull_cumulative(scale, start) + w);
    Some(Wait::without_piece(not_below_zero(scale * s - start)))
}

// The wait from an age on until the hazard accumulated reaches w.
#[inline(always)]
pub fn invert_cumulative_hazard(
    hazard: HazardRate,
    pairs: Pairs<'_>,
    t_start: f64,
    target_w: f64,
) -> Option<Wait>
    ensures { result
        ≡ invert_cumulative_hazard hazard (lent_pairs pairs.entry) t_start target_w }
{
    if target_w <= 0.0 {
        return Some(Wait::without_piece(0.0));
    }
    match hazard {
        HazardRate::Zero => None,
        HazardRate::Constant(rate) => constant_wait(not_below_zero(rate), target_w),
        HazardRate::Gompertz(eta) => constant_wait(eta, target_w),
        HazardRate::Piecewise(trailing) => pairs.wait(trailing, not_below_zero(t_start), target_w),
        HazardRate::Weibull(scale) => weibull_wait(scale, not_below_zero(t_start), target_w),
    }
}
