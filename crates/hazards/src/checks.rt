// What refusals 4 to 6 say of a hazard, and the fields of a hazard as in SET with the hazard that they stand for.
ghost use Rattle.std.specs.Prelude.{◌≡◌, not, ◌&&◌, ◌||◌, List, eqb, ltb, Float};
ghost use Rattle.std.specs.Float.Ieee.{lt, le};
ghost use Rattle.hazards.specs.Floats.{z, limit, zero_bits, in_range};
ghost use Rattle.hazards.specs.Lists.{all};
ghost use Rattle.hazards.specs.Rates.{kinds, intervals_from, lent_pairs, used_pairs};
ghost use Rattle.hazards.specs.Checks.{scale_fault, range_fault, pairs_from, zero_pair, ascending, unused_fault, pairs_fault, intervals_fault, hazard_of};
ghost use Rattle.hazards.specs.Checks.{intervals_of, lent_fields, hazard_faults};

use crate::floats::{INVERSE_LIMIT, LIMIT, in_range, zero_bits};
use crate::rates::{HazardRate, Intervals, KINDS, Pairs, rate_of_kind};
use crate::refusals::Faults;

// The fields of a hazard as in SET.
// Kept: the definition Checks.choice_fault refuses a kind off its list, and pairs_fault a count above 8.
#[derive(Clone, Copy)]
pub struct HazardFields {
    pub kind: u8,
    pub first: f64,
    pub count: u8,
    pub ends: [f64; 8],
    pub rates: [f64; 8],
}

// The fields of a hazard as in SET, its pairs lent where they lie.
// Kept: the definition Checks.choice_fault refuses a kind off its list; lent beside HazardFields, so that 128 bytes are not copied.
#[derive(Clone, Copy)]
pub struct LentHazard<'a> {
    pub kind: u8,
    pub first: f64,
    pub pairs: Pairs<'a>,
}

// The rates of the used pairs are in range, whatever their ends.
// Kept: the check does not tell the length of an array behind a reference in a struct's field, so the rates are handed in.
fn rates_in_range(rates: &[f64; 8], count: usize) -> bool
    ensures { (ends : List Float)
        → result ≡ all (λ q. in_range q.rate) (used_pairs (intervals_from ends rates.now count)) }
{
    rates[..count.min(8)].iter().all(|&rate| in_range(rate))
}

// An end above the one before it and at most 2^40.
fn ascends(before: f64, end: f64) -> bool
    ensures { result ≡ (lt before end && le end limit) }
{
    before < end && end <= LIMIT
}

// The ends of the used pairs ascend from above 0 to at most 2^40.
fn ends_ascend(pairs: Pairs<'_>) -> bool
    ensures { result ≡ ascending z (used_pairs (lent_pairs pairs.entry)) }
{
    let used = pairs.used();
    let mut before = 0.0;
    for i in 0..used {
        let end = pairs.ends[i];
        if !ascends(before, end) {
            return false;
        }
        before = end;
    }
    true
}

// All bits of a pair are zero.
fn zero_pair(end: f64, rate: f64) -> bool
    ensures { result ≡ (zero_bits end && zero_bits rate) }
{
    let end_zero = zero_bits(end);
    let rate_zero = zero_bits(rate);
    end_zero & rate_zero
}

// All bits of the pairs from index `from` on are zero.
fn unused_are_zero(pairs: Pairs<'_>, from: usize) -> bool
    ensures { result ≡ all zero_pair (pairs_from (lent_pairs pairs.entry) from) }
{
    let mut zero = true;
    for i in from..8 {
        zero = zero & zero_pair(pairs.ends[i], pairs.rates[i]);
    }
    zero
}

// Refusal 5 of a piecewise hazard.
fn piecewise_range_fault(trailing: f64, rates: &[f64; 8], count: usize) -> bool
    ensures { (ends : List Float)
        → result ≡ range_fault (HazardRate.Piecewise trailing) (intervals_from ends rates.now count) }
{
    let own = in_range(trailing);
    let used = rates_in_range(rates, count);
    !(own & used)
}

// Refusal 5 of a scale: out of range, or above 0 and below 2^-40.
fn scale_fault(scale: f64) -> bool
    ensures { result ≡ scale_fault scale }
{
    let out_of_range = !in_range(scale);
    let too_small = (scale > 0.0) & (scale < INVERSE_LIMIT);
    out_of_range | too_small
}

// Refusal 5 of a hazard, whatever its ends.
pub fn range_fault(hazard: HazardRate, rates: &[f64; 8], count: usize) -> bool
    ensures { (ends : List Float) → result ≡ range_fault hazard (intervals_from ends rates.now count) }
{
    match hazard {
        HazardRate::Zero => false,
        HazardRate::Constant(rate) => !in_range(rate),
        HazardRate::Gompertz(eta) => !in_range(eta),
        HazardRate::Piecewise(trailing) => piecewise_range_fault(trailing, rates, count),
        HazardRate::Weibull(scale) => scale_fault(scale),
    }
}

// Refusal 6 of a hazard that uses no pairs.
#[inline(always)]
pub(crate) fn unused_fault(pairs: Pairs<'_>) -> bool
    ensures { result ≡ unused_fault (lent_pairs pairs.entry) }
{
    let none = pairs.count == 0;
    let zero = unused_are_zero(pairs, 0);
    !(none & zero)
}

// Refusal 6 of a piecewise hazard.
fn pairs_fault(pairs: Pairs<'_>) -> bool
    ensures { result ≡ pairs_fault (lent_pairs pairs.entry) }
{
    if pairs.count > 8 {
        return true;
    }
    let zero = unused_are_zero(pairs, pairs.count);
    let ascend = ends_ascend(pairs);
    !(zero & ascend)
}

// Refusal 6 of a hazard.
pub fn intervals_fault(hazard: HazardRate, pairs: Pairs<'_>) -> bool
    ensures { result ≡ intervals_fault hazard (lent_pairs pairs.entry) }
{
    match hazard {
        HazardRate::Zero => unused_fault(pairs),
        HazardRate::Constant(_) => unused_fault(pairs),
        HazardRate::Gompertz(_) => unused_fault(pairs),
        HazardRate::Piecewise(_) => pairs_fault(pairs),
        HazardRate::Weibull(_) => unused_fault(pairs),
    }
}

// Refusal 4 of a hazard's fields.
pub(crate) fn choice_fault(kind: u8, first: f64) -> bool
    ensures { result ≡ (not (ltb kind kinds) || (eqb kind 0 && not (zero_bits first))) }
{
    if kind as u64 >= KINDS {
        return true;
    }
    if kind != 0 {
        return false;
    }
    !zero_bits(first)
}

impl<'a> LentHazard<'a> {
    // The hazard that the fields stand for.
    pub fn hazard(self) -> HazardRate
        ensures { result ≡ hazard_of (lent_fields self.entry) }
    {
        rate_of_kind(self.kind, self.first)
    }

    // Refusals 4 to 6 of these fields.
    #[inline(always)]
    pub fn faults(self) -> Faults
        ensures { result ≡ hazard_faults (lent_fields self.entry) }
    {
        let hazard = self.hazard();
        Faults {
            choice: choice_fault(self.kind, self.first),
            range: range_fault(hazard, self.pairs.rates, self.pairs.count),
            intervals: intervals_fault(hazard, self.pairs),
            identifier: false,
        }
    }
}

impl HazardFields {
    // The hazard that the fields stand for.
    pub fn hazard(self) -> HazardRate
        ensures { result ≡ hazard_of self }
    {
        self.lent().hazard()
    }

    // The pairs, used or not, with their count.
    pub fn intervals(self) -> Intervals
        ensures { result ≡ intervals_of self }
    {
        let ends = self.ends;
        let rates = self.rates;
        Intervals {
            ends,
            rates,
            count: usize::from(self.count),
        }
    }

    // These fields, lent.
    pub fn lent(&self) -> LentHazard<'_>
        ensures { lent_fields result ≡ self.now }
    {
        let count = usize::from(self.count);
        let pairs = Pairs {
            ends: &self.ends,
            rates: &self.rates,
            count,
        };
        LentHazard {
            kind: self.kind,
            first: self.first,
            pairs,
        }
    }

    // Refusals 4 to 6 of these fields.
    pub fn faults(self) -> Faults
        ensures { result ≡ hazard_faults self }
    {
        self.lent().faults()
    }
}
