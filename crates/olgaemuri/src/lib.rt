// What C links by crates/olgaemuri_c, under names that no other library has: the batch run, an engine that stays open in lent memory, what
// a program asks of its state, and the rate for a wait.
// Kept: the C interface returns a refusal as its number, 0 where nothing is refused.
// Definitions: specs/, and those of the engine (crates/engine/specs/Run.antt, InPlace.antt) and of hazards (RateForWait.antt).
#![tactic(auto)]

pub mod inspection;

ghost use Rattle.std.specs.Prelude.{◌≡◌, true, false, ◌<◌, ◌≤◌, length};
ghost use Rattle.hazards.specs.Answers.{answer_width};
ghost use Rattle.hazards.specs.RateForWait.{Answers, answered};
ghost use Rattle.hazards.specs.Refusals.{invalid_state};
ghost use Rattle.engine.specs.InPlace.{has_sizes, Opens, Refuses};
ghost use Rattle.engine.specs.Refusals.{answers_full};
ghost use Rattle.engine.specs.Run.{run_of, ran};
ghost use Rattle.olgaemuri.specs.Calls.{Answered};
ghost use Rattle.olgaemuri.specs.Inspection.{counts_of, applied_of, applied, queued_request, clock_fields, cause_fields};

use hazards::refusals::Refusal;
use inspection::{CauseFields, ClockFields, Counts, QueuedRequest};

// The batch run (document 01: run call): returns 18, the 2, 3 or 17 that ended it, or 0.
pub fn olgaemuri_run(
    commands: &[u8],
    stream: &[u8],
    journal: &mut [u8],
    answers: &mut [u8],
    res: &mut [u8],
) -> u8
    ensures { ran result journal.new answers.new res.new
        ≡ run_of commands.now stream.now journal.old answers.old res.old }
{
    match engine::run::run(commands, stream, journal, answers, res) {
        Ok(()) => 0,
        Err(refusal) => refusal.number(),
    }
}

// Opens an engine in the rows, with an empty journal: returns 0, or 1 where the rows have other sizes, and then nothing is changed.
pub fn olgaemuri_open<'a>(
    words: &'a mut [[u64; 8]],
    floats: &'a mut [[f64; 8]],
    journal: &'a mut [u8],
) -> u8
    ensures { (has_sizes words.old floats.old ≡ true
        → Opens words.new floats.new journal.old journal.new result)
        × (has_sizes words.old floats.old ≡ false
        → (result ≡ invalid_state) × Refuses words.old floats.old journal.old words.new
        floats.new journal.new) }
{
    match engine::opening::open(words, floats, journal) {
        Ok(()) => 0,
        Err(refusal) => refusal.number(),
    }
}

// One input (document 01: the command door) on the engine in the rows; its answer's bytes, and its number. 17, with nothing done, where
// the answer has no room.
pub fn olgaemuri_execute<'a>(
    words: &'a mut [[u64; 8]],
    floats: &'a mut [[f64; 8]],
    stream: &'a [u8],
    journal: &'a mut [u8],
    input: &'a [u8],
    answer: &'a mut [u8],
) -> u8
    ensures { (answer_width ≤ length answer.old
        → Answered stream.now words.old floats.old journal.old input.now
        answer.old words.new floats.new journal.new answer.new result)
        × (length answer.old < answer_width
        → (result ≡ answers_full) × (answer.new ≡ answer.old)
        × Refuses words.old floats.old journal.old words.new floats.new
        journal.new) }
{
    if answer.len() < hazards::answers::ANSWER_WIDTH {
        return Refusal::AnswersFull.number();
    }
    let given = engine::execute::execute(words, floats, stream, journal, input);
    hazards::answers::put_answer(answer, 0, given);
    given.number
}

// The length of the applied commands, which are the first bytes of a journal of so many: returns 0; or 1, with length 0, where they are
// past its end.
pub fn olgaemuri_applied<'a>(
    words: &'a [[u64; 8]],
    journal_length: usize,
    length: &'a mut u64,
) -> u8
    ensures { applied result length.new ≡ applied_of words.now journal_length }
{
    let applied = inspection::applied_length(words, journal_length);
    *length = applied.unwrap_or(0);
    applied.err().map_or(0, u8::from)
}

// Requests queued and made, draw position and length of the applied commands.
pub fn olgaemuri_counts(words: &[[u64; 8]]) -> Counts
    ensures { result ≡ counts_of words.now }
{
    inspection::counts_of(words)
}

// The request at a place of the queue, in the order in which they were made.
pub fn olgaemuri_request(words: &[[u64; 8]], place: usize) -> QueuedRequest
    ensures { result ≡ queued_request words.now place }
{
    inspection::request_fields(words, place)
}

// A clock, where it is present.
pub fn olgaemuri_clock<'a>(
    words: &'a [[u64; 8]],
    floats: &'a [[f64; 8]],
    clock: usize,
) -> ClockFields
    ensures { result ≡ clock_fields words.now floats.now clock }
{
    inspection::clock_fields(words, floats, clock)
}

// The cause at a place of a clock, in ascending order.
pub fn olgaemuri_cause<'a>(
    words: &'a [[u64; 8]],
    floats: &'a [[f64; 8]],
    clock: usize,
    place: usize,
) -> CauseFields
    ensures { result ≡ cause_fields words.now floats.now clock place }
{
    inspection::cause_fields(words, floats, clock, place)
}

// The constant rate that gives a wait (document 02, change 11): returns 23, 24 or 0, and writes the rate, 0.0 where there is none.
pub fn olgaemuri_rate_for_wait(threshold: f64, wait: f64, rate: &mut f64) -> u8
    ensures { Answers threshold wait (answered result rate.new) }
{
    match hazards::rate_for_wait::rate_for_wait(threshold, wait) {
        Ok(found) => {
            *rate = found;
            0
        }
        Err(refusal) => {
            *rate = 0.0;
            refusal.number()
        }
    }
}
