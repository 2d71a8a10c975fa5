// The replay of applied commands from opening, and UNDO. What the last command changes is kept beside the state.
ghost use Rattle.std.specs.Prelude.{◌≡◌, IfSome, List, ℕ, ◌≤◌, ◌<◌, ◌^◌, length, take};
ghost use Rattle.engine.specs.State.{EngineState};
ghost use Rattle.engine.specs.Replay.{cleared, undo};
ghost use Rattle.engine.specs.Instance.{engine_of};
ghost use Rattle.engine.specs.ReplayInternals.{width_in, whole_width, ends, replay_all, state_if, end_state, kept_end};
ghost use Rattle.engine.specs.Answers.{after};
ghost use Rattle.engine.specs.Refusals.{answer_from};
ghost use Rattle.engine.specs.StateRows.{shared_from, state_from, SizedState, CodedState};
ghost use Rattle.engine.specs.KeptRows.{SizedKept, CodedKept};
ghost use Rattle.engine.specs.InPlace.{Executes};

use crate::commands::Command;
use crate::copying::copy_over;
use crate::execution::perform;
use crate::kept_rows::KEPT_WORDS;
use crate::state_rows::{APPLIED_LENGTH, COUNTS, STATE_FLOATS, STATE_WORDS};
use clocks::layout::CLOCK_FLOATS;
use hazards::answers::{Answer, no_event};
use hazards::refusals::Refusal;

// The whole command at the front of the bytes, where there is one and it is no UNDO.
pub(crate) fn whole_command(bytes: &[u8]) -> Option<Command>
    ensures { width_in result ≡ whole_width bytes.now }
{
    match crate::commands::front_command(bytes).ok()? {
        Command::Undo => None,
        command => Some(command),
    }
}

// The place of the last of some applied commands; 0 where there is none.
pub(crate) fn last_command(bytes: &[u8]) -> usize
    ensures { (result ≤ length bytes.now)
        × ((stream : List ℕ) (n : ℕ) (s before : EngineState) (last : ℕ)
        → replay_all (engine_of stream n) bytes.now ≡ ends s before last → result ≡ last) }
{
    let mut place: usize = 0;
    let mut at: usize = 0;
    while let Ok(command) = crate::commands::front_command(&bytes[at..]) {
        place = at;
        at += command.width();
    }
    place
}

// Takes the last applied command out of the journal: its bytes are cleared. Gives its place, the length of the applied commands after it.
pub(crate) fn revert(journal: &mut [u8], applied: usize) -> usize
    requires { applied ≤ length journal.old }
    ensures { ((stream : List ℕ) (n : ℕ) (s before : EngineState) (last : ℕ)
        → replay_all (engine_of stream n) (take applied journal.old) ≡ ends s before last → result ≡ last)
        × ((stream : List ℕ) → journal.new
        ≡ cleared (engine_of stream (length journal.old)) journal.old result applied) }
{
    let place = last_command(&journal[..applied]);
    crate::journal::clear(&mut journal[place..], applied - place);
    place
}

// The last command of a replay: its place in the bytes and its clock.
#[derive(Clone, Copy)]
pub struct LastCommand {
    pub place: usize,
    pub clock: usize,
}

// The state after commands, one after another from opening; none where one of them is refused or an UNDO.
pub(crate) fn replay(
    words: &mut [[u64; 8]; STATE_WORDS],
    floats: &mut [[f64; 8]; STATE_FLOATS],
    stream: &[u8],
    journal_length: usize,
    bytes: &[u8],
) -> Option<()>
    requires { journal_length < 2 ^ 63 }
    ensures { (state_if result (state_from words.new floats.new)
        ≡ end_state stream.now journal_length
        (replay_all (engine_of stream.now journal_length) bytes.now))
        × CodedState words.new floats.new }
{
    crate::opening::open_state(words, floats);
    let mut at: usize = 0;
    // Kept: a cursor over commands of different widths, which a failure ends before the end of the bytes.
    while at < bytes.len() {
        let command = whole_command(&bytes[at..])?;
        let end = at + command.width();
        perform(words, floats, stream, journal_length, &bytes[at..end]).ok()?;
        at = end;
    }
    Some(())
}

// The same, with what the last command changes kept as it was before it.
fn replay_to_last(
    words: &mut [[u64; 8]; STATE_WORDS],
    floats: &mut [[f64; 8]; STATE_FLOATS],
    kept: &mut [[u64; 8]; KEPT_WORDS],
    kept_floats: &mut [[f64; 8]; CLOCK_FLOATS],
    stream: &[u8],
    journal_length: usize,
    bytes: &[u8],
) -> Option<LastCommand>
    requires { (journal_length < 2 ^ 63) × (0 < length bytes.now) }
    ensures { (kept_end stream.now journal_length result words.new floats.new kept.new
        kept_floats.new ≡ replay_all (engine_of stream.now journal_length) bytes.now)
        × IfSome result (λ last. (last.place ≤ length bytes.now) × (last.clock < 16)
        × CodedState words.new floats.new × CodedKept kept.new kept_floats.new) }
{
    let place = last_command(bytes);
    replay(words, floats, stream, journal_length, &bytes[..place])?;
    let command = &bytes[place..];
    if whole_command(command)?.width() != command.len() {
        return None;
    }
    let clock = crate::execution::near_target(words, command);
    crate::kept_rows::keep(words, floats, clock, kept, kept_floats);
    perform(words, floats, stream, journal_length, command).ok()?;
    Some(LastCommand { place, clock })
}

// UNDO (document 01: strikes the last standing command), by a replay of the applied commands; refused by 12 or 13. What is left is the
// state of the replay with the last command taken back: the comparison holds all NaNs alike, so that the caller's rows may be others.
pub(crate) fn undo(
    words: &mut [[u64; 8]; STATE_WORDS],
    floats: &mut [[f64; 8]; STATE_FLOATS],
    stream: &[u8],
    journal: &mut [u8],
) -> Result<Answer, Refusal>
    requires { CodedState words.old floats.old × ((shared_from words.old).applied_length ≤ length journal.old) }
    ensures { Executes words.old floats.old
        (after stream.now (length journal.old)
        (undo (engine_of stream.now (length journal.old))
        (state_from words.old floats.old) journal.old))
        words.new floats.new journal.new (answer_from result) }
{
    let applied = words[COUNTS][APPLIED_LENGTH] as usize;
    if applied == 0 {
        return Err(Refusal::NothingApplied);
    }
    let mut end: [[u64; 8]; STATE_WORDS] = [[0; 8]; STATE_WORDS];
    let mut end_floats: [[f64; 8]; STATE_FLOATS] = [[0.0; 8]; STATE_FLOATS];
    let mut kept: [[u64; 8]; KEPT_WORDS] = [[0; 8]; KEPT_WORDS];
    let mut kept_floats: [[f64; 8]; CLOCK_FLOATS] = [[0.0; 8]; CLOCK_FLOATS];
    let Some(last) = replay_to_last(
        &mut end,
        &mut end_floats,
        &mut kept,
        &mut kept_floats,
        stream,
        journal.len(),
        &journal[..applied],
    ) else {
        return Err(Refusal::ReplayFails);
    };
    if !crate::comparison::same_state(&end, &end_floats, words, floats) {
        return Err(Refusal::ReplayFails);
    }
    crate::kept_rows::put_back(&mut end, &mut end_floats, last.clock, &kept, &kept_floats);
    copy_over(words, &end);
    copy_over(floats, &end_floats);
    let place = last.place;
    crate::journal::clear(&mut journal[place..], applied - place);
    Ok(no_event(0))
}
