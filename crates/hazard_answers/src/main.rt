// Replays the fixed lists of the unchanged Rust's answers to evaluations and samples, and of a model's rates for a wait, and says how many
// there are and how many differ. The lists' layouts, and how they were made, are in host/README.md.
#![tactic(auto)]

ghost use Rattle.std.specs.Prelude.{◌≡◌};
ghost use Rattle.hazards.specs.RateForWait.{rate_answer};

use answer_lists::count::Count;
use answer_lists::lists::replay;
use hazards::answers::ANSWER_WIDTH;
use hazards::draws::StreamPosition;
use hazards::fields::{f64_at, put_f64, put_u64, u8_at, u64_at};
use hazards::rate_for_wait::rate_for_wait;
use hazards::refusals::Refusal;
use probe::{EVALUATION_WIDTH, SAMPLED_WIDTH};
use std::fs::File;
use std::io;

// The bytes of an evaluation's case, and of a rate's.
const EVALUATION_CASE: usize = 173;

const RATE_CASE: usize = 25;

// operation u8, hazard of 138 bytes, t f64, w f64; expected: number u8, found u8, value f64, piece u64.
fn evaluation_agrees(case: &[u8]) -> bool {
    let fields = probe::hazard_fields(case, 1);
    let op = u8_at(case, 0);
    let t = f64_at(case, 139);
    let w = f64_at(case, 147);
    let evaluation = probe::evaluate(op, fields.lent(), t, w);
    let mut out = [0u8; EVALUATION_WIDTH];
    probe::put_evaluation(&mut out, 0, evaluation);
    u8_at(&out, 0) == u8_at(case, 155)
        && u8_at(&out, 1) == u8_at(case, 156)
        && u64_at(&out, 8) == u64_at(case, 157)
        && u64_at(&out, 16) == u64_at(case, 165)
}

// The thresholds of a case: how many there are at 27, then twelve places for them.
fn stream_of(case: &[u8]) -> &[u8] {
    let entries = u8_at(case, 27) as usize;
    case.get(28..28 + 8 * entries).unwrap_or_default()
}

// Where a sample's expected answer stands, and the bytes of a case.
const EXPECTED: usize = 1292;

const SAMPLE_CASE: usize = EXPECTED + SAMPLED_WIDTH;

// n u8, tie u8, age f64, has-censor u8, censor f64, position u64, thresholds, 8 records of 146 bytes; expected: answer, position u64.
fn sample_agrees(case: &[u8]) -> bool {
    let settings = probe::settings_at(case, 1);
    let causes = probe::causes_at(case, 124);
    let n = u8_at(case, 0) as usize;
    let position = StreamPosition {
        next: u64_at(case, 19) as usize,
    };
    let sampled = hazards::sampler::sample_next(&causes, n, settings, stream_of(case), position);
    let mut out = [0u8; SAMPLED_WIDTH];
    hazards::answers::put_answer(&mut out, 0, sampled.answer);
    put_u64(&mut out, ANSWER_WIDTH, sampled.position.next as u64);
    case.get(EXPECTED..SAMPLE_CASE) == Some(&out)
}

// The number of what was found, and the rate: 0.0 beside a refusal.
fn number_and_rate(found: Result<f64, Refusal>) -> (u8, f64)
    ensures { result ≡ ((rate_answer found).number, (rate_answer found).rate) }
{
    match found {
        Ok(rate) => (0, rate),
        Err(refusal) => (refusal.number(), 0.0),
    }
}

// threshold f64, wait f64; expected: number u8, rate f64.
fn rate_agrees(case: &[u8]) -> bool {
    let (number, rate) = number_and_rate(rate_for_wait(f64_at(case, 0), f64_at(case, 8)));
    let mut out = [0u8; 8];
    put_f64(&mut out, 0, rate);
    number == u8_at(case, 16) && u64_at(&out, 0) == u64_at(case, 17)
}

fn print_count(rt: &impl Print, label: &str, count: Count) -> io::Result<()> {
    println!(rt;
        "{label}: {} cases, {} differ",
        count.cases, count.differing
    )
}

fn main(rt: HostRuntime) -> io::Result<()> {
    let mut evaluations = File::open(&rt, "evaluations.bin")?;
    let count = replay::<EVALUATION_CASE, _, _>(&mut evaluations, evaluation_agrees)?;
    print_count(&rt, "evaluations", count)?;
    let mut samples = File::open(&rt, "samples.bin")?;
    let count = replay::<SAMPLE_CASE, _, _>(&mut samples, sample_agrees)?;
    print_count(&rt, "samples", count)?;
    let mut rates = File::open(&rt, "rates.bin")?;
    let count = replay::<RATE_CASE, _, _>(&mut rates, rate_agrees)?;
    print_count(&rt, "rates", count)
}
