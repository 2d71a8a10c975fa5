// What each command but UNDO does to the state, in place, and the refusals that it meets, in the table's order. A refusal comes before the
// first store, so it changes nothing.
ghost use Rattle.std.specs.Prelude.{◌≡◌, IfOk, cond, true, ◌+◌, ◌<◌, ◌^◌, eqb, leb, length};
ghost use Rattle.hazards.specs.Refusals.{number_of};
ghost use Rattle.engine.specs.Refusals.{clock_absent, journal_full, refused_number, answer_from};
ghost use Rattle.engine.specs.State.{with_request, with_applied_bytes, slot_at, queued_requests, with_position};
ghost use Rattle.engine.specs.Execution.{is_withdrawn, withdraw, request_of, event_answer, clock_of_request, target, stored};
ghost use Rattle.engine.specs.Execution.{perform_create, perform_set, perform_remove, perform_reschedule};
ghost use Rattle.engine.specs.Execution.{perform_resume, perform_pause, perform_deliver, perform};
ghost use Rattle.engine.specs.ExecutionInternals.{Countable, Ready, IsCommand, Tries, TakenBack, requeued};
ghost use Rattle.clocks.specs.Layout.{FloatRows};
ghost use Rattle.clocks.specs.RowsInternals.{event_from, change_from};
ghost use Rattle.engine.specs.Commands.{clock_of};
ghost use Rattle.engine.specs.Queue.{next_request};
ghost use Rattle.engine.specs.StateRows.{shared_from, state_from, LeavesShared};

use crate::clock_calls::{
    create_in, dispatch_in, pause_in, remove_in, reschedule_in, resume_in, set_in, takes_cause,
};
use crate::commands::{
    CAUSE_FIELD, CLOCK_FIELD, Command, DELIVER, NOW_FIELD, PRIORITY_FIELD, byte_at,
};
use crate::kept_rows::KEPT_WORDS;
use crate::state::{Counts, Request};
use crate::state_rows::{
    APPLIED_LENGTH, COUNTS, REQUEST_COUNT, STATE_FLOATS, STATE_WORDS, counts_in,
};
use clocks::clocks::ScheduledEvent;
use clocks::layout::{CLOCK_FLOATS, CLOCK_WORDS, PRESENT};
use clocks::scheduling::{QueueChange, RealizedEvent};
use clocks::ticks::Ticks;
use hazards::answers::{Answer, event_of, no_event};
use hazards::fields::{f64_at, u32_at};
use hazards::refusals::{Faults, Refusal};

// The answer of an event, or of none; whether one was withdrawn, and the ticks.
pub(crate) fn event_answer(event: Option<RealizedEvent>, withdrawn: bool, ticks: Ticks) -> Answer
    ensures { result ≡ event_answer (event_from event) withdrawn ticks }
{
    let answer = match event {
        Some(e) => event_of(e.winning_cause, e.delta_time, e.is_censored, e.piece),
        None => no_event(0),
    };
    Answer {
        withdrawn,
        ticks_low: ticks.low,
        ticks_high: ticks.high,
        ..answer
    }
}

// Refusal 14, where the journal's free part is shorter than a command of `width` bytes.
fn need_room(
    words: &[[u64; 8]; STATE_WORDS],
    width: usize,
    journal_length: usize,
) -> Result<(), Refusal>
    ensures { refused_number result ≡ cond (leb ((shared_from words.now).applied_length + width) journal_length) 0 journal_full }
{
    let applied = words[COUNTS][APPLIED_LENGTH] as usize;
    if applied > journal_length {
        return Err(Refusal::JournalFull);
    }
    if width > journal_length - applied {
        return Err(Refusal::JournalFull);
    }
    Ok(())
}

// The clock that a command names, where neither 4 to 7 nor then 9 is met.
fn named_clock(
    words: &[[u64; 8]; STATE_WORDS],
    command: &[u8],
    faults: Faults,
) -> Result<usize, Refusal>
    requires { number_of faults ≡ 0 → clock_of command.now < 16 }
    ensures { ((floats : FloatRows)
        → refused_number result ≡ cond (eqb (number_of faults) 0)
        (cond (slot_at (state_from words.now floats) (clock_of command.now)).present 0 clock_absent)
        (number_of faults))
        × IfOk result (λ clock. clock ≡ clock_of command.now) }
{
    faults.refusal()?;
    let clock = byte_at(command, CLOCK_FIELD) as usize;
    if words[CLOCK_WORDS * clock][PRESENT] != 1 {
        return Err(Refusal::ClockAbsent);
    }
    Ok(clock)
}

// The command counts as applied.
fn count_applied(words: &mut [[u64; 8]; STATE_WORDS], width: usize)
    requires { (shared_from words.old).applied_length + width < 2 ^ 64 }
    ensures { LeavesShared words.old words.new (with_applied_bytes width (shared_from words.old)) }
{
    let counts = counts_in(words);
    let more = Counts {
        applied_length: counts.applied_length + width,
        ..counts
    };
    crate::queue::put_counts(words, more);
}

// The draw position after a SET.
fn put_position(words: &mut [[u64; 8]; STATE_WORDS], position: usize)
    ensures { LeavesShared words.old words.new (with_position (shared_from words.old) position) }
{
    let counts = Counts {
        position,
        ..counts_in(words)
    };
    crate::queue::put_counts(words, counts);
}

fn perform_create(
    words: &mut [[u64; 8]; STATE_WORDS],
    floats: &mut [[f64; 8]; STATE_FLOATS],
    journal_length: usize,
    command: &[u8],
) -> Result<Answer, Refusal>
    requires { Ready words.old floats.old }
    ensures { Tries words.old floats.old
        (stored (state_from words.old floats.old) (clock_of command.now)
        (perform_create journal_length (slot_at (state_from words.old floats.old) (clock_of command.now))
        (shared_from words.old) command.now))
        words.new floats.new result }
{
    crate::commands::create_faults(command).refusal()?;
    let clock = byte_at(command, CLOCK_FIELD) as usize;
    if words[CLOCK_WORDS * clock][PRESENT] == 1 {
        return Err(Refusal::ClockPresent);
    }
    need_room(words, command.len(), journal_length)?;
    create_in(words, floats, clock, command);
    count_applied(words, command.len());
    Ok(no_event(0))
}

fn perform_remove(
    words: &mut [[u64; 8]; STATE_WORDS],
    floats: &mut [[f64; 8]; STATE_FLOATS],
    journal_length: usize,
    command: &[u8],
) -> Result<Answer, Refusal>
    requires { Ready words.old floats.old }
    ensures { Tries words.old floats.old
        (stored (state_from words.old floats.old) (clock_of command.now)
        (perform_remove journal_length (slot_at (state_from words.old floats.old) (clock_of command.now))
        (shared_from words.old) command.now))
        words.new floats.new result }
{
    let clock = named_clock(words, command, crate::commands::cause_faults(command))?;
    need_room(words, command.len(), journal_length)?;
    let cause = u32_at(command, CAUSE_FIELD);
    remove_in(words, floats, clock, cause);
    count_applied(words, command.len());
    Ok(no_event(0))
}

// 10, then 14, then 15 or 16.
fn perform_set(
    words: &mut [[u64; 8]; STATE_WORDS],
    floats: &mut [[f64; 8]; STATE_FLOATS],
    stream: &[u8],
    journal_length: usize,
    command: &[u8],
) -> Result<Answer, Refusal>
    requires { Ready words.old floats.old }
    ensures { Tries words.old floats.old
        (stored (state_from words.old floats.old) (clock_of command.now)
        (perform_set stream.now journal_length
        (slot_at (state_from words.old floats.old) (clock_of command.now))
        (shared_from words.old) command.now))
        words.new floats.new result }
{
    let read = crate::commands::set_command(command);
    let clock = named_clock(words, command, read.faults)?;
    let setting = read.setting;
    if !takes_cause(words, clock, setting.cause_id) {
        return Err(Refusal::TooManyCauses);
    }
    need_room(words, command.len(), journal_length)?;
    let position = set_in(words, floats, clock, setting, stream)?;
    put_position(words, position);
    count_applied(words, command.len());
    Ok(no_event(0))
}

// A scheduled event that is queued is withdrawn; whether there was one.
fn withdraw(words: &mut [[u64; 8]; STATE_WORDS], event: ScheduledEvent) -> bool
    ensures { LeavesShared words.old words.new (withdraw (shared_from words.old) event)
        × (result ≡ is_withdrawn (shared_from words.old) event) }
{
    if !event.present {
        return false;
    }
    if !crate::queue::is_queued(words, event.index) {
        return false;
    }
    crate::queue::take_out(words, event.index);
    true
}

fn perform_pause(
    words: &mut [[u64; 8]; STATE_WORDS],
    floats: &mut [[f64; 8]; STATE_FLOATS],
    journal_length: usize,
    command: &[u8],
) -> Result<Answer, Refusal>
    requires { Ready words.old floats.old }
    ensures { Tries words.old floats.old
        (stored (state_from words.old floats.old) (clock_of command.now)
        (perform_pause journal_length (slot_at (state_from words.old floats.old) (clock_of command.now))
        (shared_from words.old) command.now))
        words.new floats.new result }
{
    let clock = named_clock(words, command, crate::commands::pause_faults(command))?;
    need_room(words, command.len(), journal_length)?;
    let time = f64_at(command, NOW_FIELD);
    let event = pause_in(words, floats, clock, time);
    let mut answer = no_event(0);
    answer.withdrawn = withdraw(words, event);
    count_applied(words, command.len());
    Ok(answer)
}

// An event is queued, where there is one.
fn enqueue(words: &mut [[u64; 8]; STATE_WORDS], command: &[u8], change: QueueChange)
    requires { Countable (shared_from words.old) }
    ensures { LeavesShared words.old words.new
        (cond (event_from change.event).present
        (with_request (shared_from words.old)
        (request_of (shared_from words.old) command.now change.ticks))
        (shared_from words.old)) }
{
    if change.event.is_none() {
        return;
    }
    let ticks = change.ticks;
    let request = Request {
        clock: byte_at(command, CLOCK_FIELD) as usize,
        ticks,
        priority: hazards::fields::i32_at(command, PRIORITY_FIELD),
        index: words[COUNTS][REQUEST_COUNT],
    };
    crate::queue::put_in(words, request);
}

// A rescheduled clock's old event is withdrawn and its new one queued; the command counts as applied.
fn requeue(words: &mut [[u64; 8]; STATE_WORDS], command: &[u8], change: QueueChange) -> Answer
    requires { Countable (shared_from words.old) × ((shared_from words.old).applied_length + length command.now < 2 ^ 64) }
    ensures { LeavesShared words.old words.new
        (with_applied_bytes (length command.now)
        (requeued (shared_from words.old) command.now (change_from change)))
        × (result ≡ event_answer (event_from change.event) (is_withdrawn (shared_from words.old) change.withdrawn) change.ticks) }
{
    let old = change.withdrawn;
    let event = change.event;
    let withdrawn = withdraw(words, old);
    enqueue(words, command, change);
    count_applied(words, command.len());
    event_answer(event, withdrawn, change.ticks)
}

// Kept: two functions of the same four steps; one over the step would say by F.pre and F.post of the lent rows what each says by name.
fn perform_reschedule(
    words: &mut [[u64; 8]; STATE_WORDS],
    floats: &mut [[f64; 8]; STATE_FLOATS],
    journal_length: usize,
    command: &[u8],
) -> Result<Answer, Refusal>
    requires { Ready words.old floats.old }
    ensures { Tries words.old floats.old
        (stored (state_from words.old floats.old) (clock_of command.now)
        (perform_reschedule journal_length (slot_at (state_from words.old floats.old) (clock_of command.now))
        (shared_from words.old) command.now))
        words.new floats.new result }
{
    let clock = named_clock(words, command, crate::commands::reschedule_faults(command))?;
    need_room(words, command.len(), journal_length)?;
    let time = f64_at(command, NOW_FIELD);
    let censor = crate::commands::censor_time(command);
    let change = reschedule_in(words, floats, clock, time, censor);
    Ok(requeue(words, command, change))
}

fn perform_resume(
    words: &mut [[u64; 8]; STATE_WORDS],
    floats: &mut [[f64; 8]; STATE_FLOATS],
    journal_length: usize,
    command: &[u8],
) -> Result<Answer, Refusal>
    requires { Ready words.old floats.old }
    ensures { Tries words.old floats.old
        (stored (state_from words.old floats.old) (clock_of command.now)
        (perform_resume journal_length (slot_at (state_from words.old floats.old) (clock_of command.now))
        (shared_from words.old) command.now))
        words.new floats.new result }
{
    let clock = named_clock(words, command, crate::commands::reschedule_faults(command))?;
    need_room(words, command.len(), journal_length)?;
    let time = f64_at(command, NOW_FIELD);
    let censor = crate::commands::censor_time(command);
    let change = resume_in(words, floats, clock, time, censor);
    Ok(requeue(words, command, change))
}

// The earliest request is taken out, and its clock dispatches its event; only the ticks are the request's.
fn perform_deliver(
    words: &mut [[u64; 8]; STATE_WORDS],
    floats: &mut [[f64; 8]; STATE_FLOATS],
    journal_length: usize,
    command: &[u8],
) -> Result<Answer, Refusal>
    requires { Ready words.old floats.old }
    ensures { Tries words.old floats.old
        (stored (state_from words.old floats.old)
        (clock_of_request (next_request (queued_requests (shared_from words.old))))
        (perform_deliver journal_length (slot_at (state_from words.old floats.old)
        (clock_of_request (next_request (queued_requests (shared_from words.old)))))
        (shared_from words.old) command.now))
        words.new floats.new result }
{
    let Some(request) = crate::queue::next_request(words) else {
        return Err(Refusal::QueueEmpty);
    };
    need_room(words, command.len(), journal_length)?;
    let event = dispatch_in(words, floats, request.clock);
    crate::queue::take_out(words, request.index);
    count_applied(words, command.len());
    Ok(event_answer(event, false, request.ticks))
}

// A command but UNDO.
pub(crate) fn perform(
    words: &mut [[u64; 8]; STATE_WORDS],
    floats: &mut [[f64; 8]; STATE_FLOATS],
    stream: &[u8],
    journal_length: usize,
    command: &[u8],
) -> Result<Answer, Refusal>
    requires { Ready words.old floats.old × IsCommand command.now }
    ensures { Tries words.old floats.old
        (perform stream.now journal_length (state_from words.old floats.old) command.now)
        words.new floats.new result }
{
    match Command::try_from(byte_at(command, 0)).unwrap() {
        Command::Create => perform_create(words, floats, journal_length, command),
        Command::Set => perform_set(words, floats, stream, journal_length, command),
        Command::Remove => perform_remove(words, floats, journal_length, command),
        Command::Reschedule => perform_reschedule(words, floats, journal_length, command),
        Command::Pause => perform_pause(words, floats, journal_length, command),
        Command::Resume => perform_resume(words, floats, journal_length, command),
        Command::Deliver => perform_deliver(words, floats, journal_length, command),
        Command::Undo => unreachable!(),
    }
}

// The clock that a command is about, for DELIVER that of the next request.
fn target(words: &[[u64; 8]; STATE_WORDS], command: &[u8]) -> usize
    ensures { result ≡ target (shared_from words.now) command.now }
{
    if byte_at(command, 0) == DELIVER {
        return match crate::queue::next_request(words) {
            Some(request) => request.clock,
            None => 0,
        };
    }
    byte_at(command, CLOCK_FIELD) as usize
}

// The same among the sixteen: 15 where it is none of them, and the command is refused then.
pub(crate) fn near_target(words: &[[u64; 8]; STATE_WORDS], command: &[u8]) -> usize
    ensures { (result < 16) × (target (shared_from words.now) command.now < 16
        → result ≡ target (shared_from words.now) command.now) }
{
    target(words, command).min(15)
}

// The answer to a command that is taken back at once: what it changed is as it was.
pub(crate) fn perform_reverted(
    words: &mut [[u64; 8]; STATE_WORDS],
    floats: &mut [[f64; 8]; STATE_FLOATS],
    stream: &[u8],
    journal_length: usize,
    command: &[u8],
) -> Result<Answer, Refusal>
    requires { Ready words.old floats.old × IsCommand command.now }
    ensures { TakenBack words.old floats.old
        (perform stream.now journal_length (state_from words.old floats.old) command.now)
        words.new floats.new (answer_from result) × IfOk result (λ answer. answer.number ≡ 0) }
{
    let mut kept: [[u64; 8]; KEPT_WORDS] = [[0; 8]; KEPT_WORDS];
    let mut kept_floats: [[f64; 8]; CLOCK_FLOATS] = [[0.0; 8]; CLOCK_FLOATS];
    let clock = near_target(words, command);
    crate::kept_rows::keep(words, floats, clock, &mut kept, &mut kept_floats);
    let answer = perform(words, floats, stream, journal_length, command)?;
    crate::kept_rows::put_back(words, floats, clock, &kept, &kept_floats);
    Ok(answer)
}
