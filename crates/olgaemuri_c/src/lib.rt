// libolgaemuri.a: the calls of crates/olgaemuri for C, under their names and with their clauses.
// Kept: the C interface needs them in a static library, which no crate can call; a program in Rattle calls crates/olgaemuri.
#![tactic(auto)]

ghost use Rattle.std.specs.Prelude.{◌≡◌, true, false, ◌<◌, ◌≤◌, length};
ghost use Rattle.hazards.specs.Answers.{answer_width};
ghost use Rattle.hazards.specs.RateForWait.{Answers, answered};
ghost use Rattle.hazards.specs.Refusals.{invalid_state};
ghost use Rattle.engine.specs.InPlace.{has_sizes, Opens, Refuses};
ghost use Rattle.engine.specs.Refusals.{answers_full};
ghost use Rattle.engine.specs.Run.{run_of, ran};
ghost use Rattle.olgaemuri.specs.Calls.{Answered};
ghost use Rattle.olgaemuri.specs.Inspection.{counts_of, applied_of, applied, queued_request, clock_fields, cause_fields};

use olgaemuri::inspection::{CauseFields, ClockFields, Counts, QueuedRequest};

// The batch run (document 01: run call): returns 18, the 2, 3 or 17 that ended it, or 0.
#[unsafe(no_mangle)]
pub extern "C" fn olgaemuri_run(
    commands: &[u8],
    stream: &[u8],
    journal: &mut [u8],
    answers: &mut [u8],
    res: &mut [u8],
) -> u8
    ensures { ran result journal.new answers.new res.new
        ≡ run_of commands.now stream.now journal.old answers.old res.old }
{
    olgaemuri::olgaemuri_run(commands, stream, journal, answers, res)
}

// Opens an engine in the rows, with an empty journal: returns 0, or 1 where the rows have other sizes, and then nothing is changed.
#[unsafe(no_mangle)]
pub extern "C" fn olgaemuri_open<'a>(
    words: &'a mut [[u64; 8]],
    floats: &'a mut [[f64; 8]],
    journal: &'a mut [u8],
) -> u8
    ensures { (has_sizes words.old floats.old ≡ true
        → Opens words.new floats.new journal.old journal.new result)
        × (has_sizes words.old floats.old ≡ false
        → (result ≡ invalid_state) × Refuses words.old floats.old journal.old words.new
        floats.new journal.new) }
{
    olgaemuri::olgaemuri_open(words, floats, journal)
}

// One input (document 01: the command door) on the engine in the rows; its answer's bytes, and its number. 17, with nothing done, where
// the answer has no room.
#[unsafe(no_mangle)]
pub extern "C" fn olgaemuri_execute<'a>(
    words: &'a mut [[u64; 8]],
    floats: &'a mut [[f64; 8]],
    stream: &'a [u8],
    journal: &'a mut [u8],
    input: &'a [u8],
    answer: &'a mut [u8],
) -> u8
    ensures { (answer_width ≤ length answer.old
        → Answered stream.now words.old floats.old journal.old input.now
        answer.old words.new floats.new journal.new answer.new result)
        × (length answer.old < answer_width
        → (result ≡ answers_full) × (answer.new ≡ answer.old)
        × Refuses words.old floats.old journal.old words.new floats.new
        journal.new) }
{
    olgaemuri::olgaemuri_execute(words, floats, stream, journal, input, answer)
}

// The length of the applied commands, which are the first bytes of a journal of so many: returns 0; or 1, with length 0, where they are
// past its end.
#[unsafe(no_mangle)]
pub extern "C" fn olgaemuri_applied<'a>(
    words: &'a [[u64; 8]],
    journal_length: usize,
    length: &'a mut u64,
) -> u8
    ensures { applied result length.new ≡ applied_of words.now journal_length }
{
    olgaemuri::olgaemuri_applied(words, journal_length, length)
}

// Requests queued and made, draw position and length of the applied commands.
#[unsafe(no_mangle)]
pub extern "C" fn olgaemuri_counts(words: &[[u64; 8]]) -> Counts
    ensures { result ≡ counts_of words.now }
{
    olgaemuri::olgaemuri_counts(words)
}

// The request at a place of the queue, in the order in which they were made.
#[unsafe(no_mangle)]
pub extern "C" fn olgaemuri_request(words: &[[u64; 8]], place: usize) -> QueuedRequest
    ensures { result ≡ queued_request words.now place }
{
    olgaemuri::olgaemuri_request(words, place)
}

// A clock, where it is present.
#[unsafe(no_mangle)]
pub extern "C" fn olgaemuri_clock<'a>(
    words: &'a [[u64; 8]],
    floats: &'a [[f64; 8]],
    clock: usize,
) -> ClockFields
    ensures { result ≡ clock_fields words.now floats.now clock }
{
    olgaemuri::olgaemuri_clock(words, floats, clock)
}

// The cause at a place of a clock, in ascending order.
#[unsafe(no_mangle)]
pub extern "C" fn olgaemuri_cause<'a>(
    words: &'a [[u64; 8]],
    floats: &'a [[f64; 8]],
    clock: usize,
    place: usize,
) -> CauseFields
    ensures { result ≡ cause_fields words.now floats.now clock place }
{
    olgaemuri::olgaemuri_cause(words, floats, clock, place)
}

// The constant rate that gives a wait (document 02, change 11): returns 23, 24 or 0, and writes the rate, 0.0 where there is none.
#[unsafe(no_mangle)]
pub extern "C" fn olgaemuri_rate_for_wait(threshold: f64, wait: f64, rate: &mut f64) -> u8
    ensures { Answers threshold wait (answered result rate.new) }
{
    olgaemuri::olgaemuri_rate_for_wait(threshold, wait, rate)
}
