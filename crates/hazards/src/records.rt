// What is found of one record of the sampler: its faults, and its wait.
ghost use Rattle.std.specs.Prelude.{◌≡◌, false};
ghost use Rattle.hazards.specs.Refusals.{joined, identifier_fault_if, is_reserved};
ghost use Rattle.hazards.specs.Rates.{uses_pairs};
ghost use Rattle.hazards.specs.Checks.{lent_fields, hazard_faults, hazard_of};
ghost use Rattle.hazards.specs.SamplerInternals.{examined_record};

use crate::checks::LentHazard;
use crate::rates::{Pairs, Wait};
use crate::refusals::Faults;
use crate::sampler::CompetingCause;

// A record's faults, and its wait whether or not it has any.
#[derive(Clone, Copy)]
pub struct Examined {
    pub faults: Faults,
    pub wait: Option<Wait>,
}

// The faults of a record, given those of its hazard's fields.
fn with_identifier(fields: Faults, cause_id: u32) -> Faults
    ensures { result ≡ joined fields (identifier_fault_if (is_reserved cause_id)) }
{
    let reserved = crate::refusals::is_reserved(cause_id);
    fields.joined(crate::refusals::identifier_fault_if(reserved))
}

// The faults of a hazard that uses no pairs.
fn single_rate_faults(fields: LentHazard<'_>) -> Faults
    requires { uses_pairs (hazard_of (lent_fields fields)) ≡ false }
    ensures { result ≡ hazard_faults (lent_fields fields.entry) }
{
    Faults {
        choice: crate::checks::choice_fault(fields.kind, fields.first),
        range: crate::checks::range_fault(fields.hazard(), fields.pairs.rates, 0),
        intervals: crate::checks::unused_fault(fields.pairs),
        identifier: false,
    }
}

// A record whose hazard uses no pairs, with none counted: they are read at fixed places only, to see that they are zero.
// Kept beside examined_with_pairs, which would answer the same: this way enters no loop over pairs (docs/DECISIONS.md, Sampler).
fn examined_single_rate(cause: &CompetingCause, age: f64, w: f64) -> Examined
    requires { uses_pairs (hazard_of cause.now.hazard) ≡ false }
    ensures { result ≡ examined_record cause.now age w }
{
    let fields = cause.hazard.lent();
    let faults = with_identifier(single_rate_faults(fields), cause.cause_id);
    let none = Pairs {
        count: 0,
        ..fields.pairs
    };
    let wait = crate::rates::invert_cumulative_hazard(fields.hazard(), none, age, w);
    Examined { faults, wait }
}

// A record of any hazard, and the one way for a hazard that uses pairs.
fn examined_with_pairs(cause: &CompetingCause, age: f64, w: f64) -> Examined
    ensures { result ≡ examined_record cause.now age w }
{
    let fields = cause.hazard.lent();
    let faults = with_identifier(fields.faults(), cause.cause_id);
    let wait = crate::rates::invert_cumulative_hazard(fields.hazard(), fields.pairs, age, w);
    Examined { faults, wait }
}

// What is found of a record, whatever its hazard.
pub(crate) fn examined_record(cause: &CompetingCause, age: f64, w: f64) -> Examined
    ensures { result ≡ examined_record cause.now age w }
{
    if crate::rates::uses_pairs(cause.hazard.hazard()) {
        return examined_with_pairs(cause, age, w);
    }
    examined_single_rate(cause, age, w)
}
