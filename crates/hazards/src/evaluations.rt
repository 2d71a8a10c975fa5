// The three evaluations as public calls on a hazard that is lent: refused by 4, 5 or 6, or the value.
ghost use Rattle.std.specs.Prelude.{◌≡◌};
ghost use Rattle.hazards.specs.Checks.{lent_fields};
ghost use Rattle.hazards.specs.Evaluations.{evaluation_refusal, evaluation_of, evaluated_hazard_at, evaluated_cumulative_hazard};
ghost use Rattle.hazards.specs.Evaluations.{inversion_of, evaluated_inversion};
ghost use Rattle.hazards.specs.Refusals.{refused_number};

use crate::checks::LentHazard;
use crate::rates::Wait;
use crate::refusals::Refusal;

// 4 on the hazard, 5 on hazard, time and w, then 6.
#[inline(always)]
fn evaluation_refusal(hazard: LentHazard<'_>, in_limits: bool) -> Result<(), Refusal>
    ensures { refused_number result ≡ evaluation_refusal (lent_fields hazard.entry) in_limits }
{
    hazard
        .faults()
        .joined(crate::refusals::range_fault_unless(in_limits))
        .refusal()
}

// hazard_at: the hazard at time t.
// Kept beside evaluate_cumulative_hazard: of both only a call is left, and one function would take it as a closure.
pub fn evaluate_hazard_at(hazard: LentHazard<'_>, t: f64) -> Result<f64, Refusal>
    ensures { evaluation_of result ≡ evaluated_hazard_at (lent_fields hazard.entry) t }
{
    let in_limits = crate::floats::in_range(t);
    evaluation_refusal(hazard, in_limits)?;
    Ok(crate::rates::hazard_at(hazard.hazard(), hazard.pairs, t))
}

// cumulative_hazard: the hazard accumulated from 0 to t.
pub fn evaluate_cumulative_hazard(hazard: LentHazard<'_>, t: f64) -> Result<f64, Refusal>
    ensures { evaluation_of result ≡ evaluated_cumulative_hazard (lent_fields hazard.entry) t }
{
    evaluation_refusal(hazard, crate::floats::in_range(t))?;
    Ok(crate::rates::cumulative_hazard(hazard.hazard(), hazard.pairs, t))
}

// invert_cumulative_hazard: the wait from t_start on until target_w more has accumulated, and the piece that it ends in; an infinite wait
// is one too.
#[inline(always)]
pub fn evaluate_inversion(
    hazard: LentHazard<'_>,
    t_start: f64,
    target_w: f64,
) -> Result<Option<Wait>, Refusal>
    ensures { inversion_of result ≡ evaluated_inversion (lent_fields hazard.entry) t_start target_w }
{
    let start = crate::floats::in_range(t_start);
    let w = crate::floats::in_range(target_w);
    evaluation_refusal(hazard, start & w)?;
    let found = crate::rates::invert_cumulative_hazard(
        hazard.hazard(),
        hazard.pairs,
        t_start,
        target_w,
    );
    Ok(found)
}
