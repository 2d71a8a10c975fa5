// The hazards crate's calls over records of bytes, for the fixed lists, the comparison with the Rust and the benchmark.
// A hazard is 138 bytes: kind, first f64, count, then 8 pairs (end f64, rate f64), the fields of SET without its time. A cause is
// 146 bytes: cause u32, priority u32, hazard.
#![tactic(auto)]

ghost use Rattle.std.specs.Prelude.{◌≤◌, length, ◌≡◌, IfOk, IfErr, IfSome, IfNone};
ghost use Rattle.hazards.specs.Floats.{z};
ghost use Rattle.hazards.specs.Rates.{intervals_from, hazard_at, cumulative_hazard, rate_of_kind};
ghost use Rattle.hazards.specs.Refusals.{number};
ghost use Rattle.hazards.specs.Roots.{nearest_root};

use hazards::answers::ANSWER_WIDTH;
use hazards::checks::{HazardFields, LentHazard};
use hazards::draws::StreamPosition;
use hazards::fields::{f64_at, put_f64, put_u64, u8_at, u32_at, u64_at};
use hazards::rates::{Pairs, Wait};
use hazards::refusals::Refusal;
use hazards::sampler::{CompetingCause, SampleSettings, Sampled, sample_next};

// The eight floats that stand 16 bytes apart.
pub fn floats_at(bytes: &[u8], at: usize) -> [f64; 8]
    requires { at ≤ 131072 }
{
    std::array::from_fn(|i| f64_at(bytes, at + 16 * i))
}

pub fn hazard_fields(bytes: &[u8], at: usize) -> HazardFields
    requires { at ≤ 65536 }
{
    let ends = floats_at(bytes, at + 10);
    let rates = floats_at(bytes, at + 18);
    HazardFields {
        kind: u8_at(bytes, at),
        first: f64_at(bytes, at + 1),
        count: u8_at(bytes, at + 9),
        ends,
        rates,
    }
}

// The bytes of a cause.
const CAUSE_WIDTH: usize = 146;

fn cause_at(bytes: &[u8], at: usize) -> CompetingCause
    requires { at ≤ 32768 }
{
    let hazard = hazard_fields(bytes, at + 8);
    CompetingCause {
        cause_id: u32_at(bytes, at),
        priority: u32_at(bytes, at + 4),
        hazard,
    }
}

pub fn causes_at(bytes: &[u8], at: usize) -> [CompetingCause; 8]
    requires { at ≤ 16384 }
{
    std::array::from_fn(|i| cause_at(bytes, at + CAUSE_WIDTH * i))
}

// tie u8, age f64, has-censor u8, censor f64.
pub fn settings_at(bytes: &[u8], at: usize) -> SampleSettings
    requires { at ≤ 16384 }
{
    SampleSettings {
        tie: u8_at(bytes, at),
        current_age: f64_at(bytes, at + 1),
        has_censor: u8_at(bytes, at + 9),
        censor_age: f64_at(bytes, at + 10),
    }
}

// What is found of an evaluation that is not refused: a value or a wait; the piece of a hazard and a cumulative hazard is 0.
#[derive(Clone, Copy)]
pub struct Evaluated {
    pub value: f64,
    pub piece: usize,
}

// 0 hazard_at, 1 cumulative_hazard, else invert_cumulative_hazard.
// Kept: lists and the C interface give the operation as a byte.
pub fn evaluate(
    op: u8,
    hazard: LentHazard<'_>,
    t: f64,
    w: f64,
) -> Result<Option<Evaluated>, Refusal> {
    if op > 1 {
        let found = hazards::evaluations::evaluate_inversion(hazard, t, w)?;
        return Ok(found.map(|wait: Wait| Evaluated {
            value: wait.time,
            piece: wait.piece,
        }));
    }
    let value = if op == 0 {
        hazards::evaluations::evaluate_hazard_at(hazard, t)?
    } else {
        hazards::evaluations::evaluate_cumulative_hazard(hazard, t)?
    };
    Ok(Some(Evaluated { value, piece: 0 }))
}

// The byte `found` in its place in the first word.
const FOUND: u64 = 256;

// number u8, found u8, six zero bytes, value f64, piece u64.
pub const EVALUATION_WIDTH: usize = 24;

// What is written of an evaluation: the first word, the value and the piece.
#[derive(Clone, Copy)]
struct Parts {
    head: u64,
    value: f64,
    piece: usize,
}

// A refusal has its number, and zero elsewhere; no wait is all zero.
fn told(evaluation: Result<Option<Evaluated>, Refusal>) -> Parts
    ensures refused { IfErr evaluation (λ refusal. result ≡ record { head = number refusal; value = z; piece = 0 }) }
    ensures none { IfOk evaluation (λ found. IfNone found (result ≡ record { head = 0; value = z; piece = 0 })) }
    ensures found { IfOk evaluation (λ found. IfSome found
        (λ e. result ≡ record { head = 256; value = e.value; piece = e.piece })) }
{
    let (head, value, piece) = match evaluation {
        Err(refusal) => (u64::from(refusal.number()), 0.0, 0),
        Ok(None) => (0, 0.0, 0),
        Ok(Some(found)) => (FOUND, found.value, found.piece),
    };
    Parts { head, value, piece }
}

pub fn put_evaluation(out: &mut [u8], at: usize, evaluation: Result<Option<Evaluated>, Refusal>)
    requires { at ≤ 0x7fff_ffff_ffff_ffff }
    ensures { length out.new ≡ length out.old }
{
    let told = told(evaluation);
    put_u64(out, at, told.head);
    put_f64(out, at + 8, told.value);
    put_u64(out, at + 16, told.piece as u64);
}

// The bytes of a point, and of a position.
const POINT_WIDTH: usize = 16;

const POSITION_WIDTH: usize = 8;

// One checked evaluation for each point of 16 bytes (t f64, w f64), while there are points and room; the number of them.
pub fn probe_evaluate(op: u8, hazard: &[u8], points: &[u8], out: &mut [u8]) -> u64 {
    let fields = hazard_fields(hazard, 0);
    let count = (points.len() / POINT_WIDTH).min(out.len() / EVALUATION_WIDTH);
    let points = points.chunks_exact(POINT_WIDTH);
    for (point, told) in points.zip(out.chunks_exact_mut(EVALUATION_WIDTH)) {
        let evaluation = evaluate(op, fields.lent(), f64_at(point, 0), f64_at(point, 8));
        put_evaluation(told, 0, evaluation);
    }
    count as u64
}

// A checked evaluation on numbers; a NaN where it is refused or there is no wait.
// Kept: the C interface takes a hazard's numbers one by one, here and in the three evaluations below.
pub fn probe_evaluate_numbers<'a>(
    op: u8,
    kind: u8,
    first: f64,
    count: u8,
    ends: &'a [f64; 8],
    rates: &'a [f64; 8],
    t: f64,
    w: f64,
) -> f64 {
    let pairs = Pairs {
        ends,
        rates,
        count: usize::from(count),
    };
    let hazard = LentHazard { kind, first, pairs };
    match evaluate(op, hazard, t, w) {
        Ok(Some(found)) => found.value,
        _ => 0.0 / 0.0,
    }
}

// The three evaluations on numbers, without checks.
pub fn probe_hazard_at<'a>(
    kind: u8,
    first: f64,
    count: u64,
    ends: &'a [f64; 8],
    rates: &'a [f64; 8],
    t: f64,
) -> f64
    ensures { result ≡ hazard_at (rate_of_kind kind first) (intervals_from ends.now rates.now count) t }
{
    let hazard = hazards::rates::rate_of_kind(kind, first);
    let pairs = Pairs {
        ends,
        rates,
        count: count as usize,
    };
    hazards::rates::hazard_at(hazard, pairs, t)
}

pub fn probe_cumulative_hazard<'a>(
    kind: u8,
    first: f64,
    count: u64,
    ends: &'a [f64; 8],
    rates: &'a [f64; 8],
    t: f64,
) -> f64
    ensures { result ≡ cumulative_hazard (rate_of_kind kind first) (intervals_from ends.now rates.now count) t }
{
    let hazard = hazards::rates::rate_of_kind(kind, first);
    let pairs = Pairs {
        ends,
        rates,
        count: count as usize,
    };
    hazards::rates::cumulative_hazard(hazard, pairs, t)
}

// A wait, and the piece that it ends in.
#[repr(C)]
#[derive(Clone, Copy)]
pub struct Inverted {
    pub wait: f64,
    pub piece: u64,
}

// A NaN where there is no wait.
pub fn probe_invert_cumulative_hazard<'a>(
    kind: u8,
    first: f64,
    count: u64,
    ends: &'a [f64; 8],
    rates: &'a [f64; 8],
    t_start: f64,
    target_w: f64,
) -> Inverted {
    let hazard = hazards::rates::rate_of_kind(kind, first);
    let pairs = Pairs {
        ends,
        rates,
        count: count as usize,
    };
    match hazards::rates::invert_cumulative_hazard(hazard, pairs, t_start, target_w) {
        Some(Wait { time, piece }) => Inverted {
            wait: time,
            piece: piece as u64,
        },
        None => Inverted {
            wait: 0.0 / 0.0,
            piece: 0,
        },
    }
}

// The f64 nearest to the root of x.
pub fn probe_nearest_root(x: f64) -> f64
    ensures { result ≡ nearest_root x }
{
    hazards::roots::nearest_root(x)
}

// An answer, then the position after it.
pub const SAMPLED_WIDTH: usize = ANSWER_WIDTH + 8;

fn put_sampled(out: &mut [u8], at: usize, sampled: Sampled)
    requires { at ≤ 0x7fff_ffff_ffff_ffff }
    ensures { length out.new ≡ length out.old }
{
    hazards::answers::put_answer(out, at, sampled.answer);
    put_u64(out, at + ANSWER_WIDTH, sampled.position.next as u64);
}

// One sample for each position of 8 bytes, while there are positions and room; the number of them. A request is n u8, the
// settings, 8 causes.
pub fn probe_sample(request: &[u8], stream: &[u8], positions: &[u8], out: &mut [u8]) -> u64 {
    let n = u8_at(request, 0) as usize;
    let settings = settings_at(request, 1);
    let causes = causes_at(request, 19);
    let count = (positions.len() / POSITION_WIDTH).min(out.len() / SAMPLED_WIDTH);
    let positions = positions.chunks_exact(POSITION_WIDTH);
    for (position, told) in positions.zip(out.chunks_exact_mut(SAMPLED_WIDTH)) {
        let next = u64_at(position, 0) as usize;
        let position = StreamPosition { next };
        put_sampled(told, 0, sample_next(&causes, n, settings, stream, position));
    }
    count as u64
}
