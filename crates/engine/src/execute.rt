// Executing one input on a state in lent memory: a command, UNDO, or bytes that are no command (document 01: the command door).
ghost use Rattle.std.specs.Prelude.{◌≡◌, true, ◌&&◌, ◌<◌, length};
ghost use Rattle.engine.specs.Execute.{act};
ghost use Rattle.engine.specs.Engine.{carry_out};
ghost use Rattle.engine.specs.ExecutionInternals.{IsCommand};
ghost use Rattle.engine.specs.Instance.{engine_of};
ghost use Rattle.engine.specs.Answers.{after};
ghost use Rattle.engine.specs.Refusals.{answer_from};
ghost use Rattle.engine.specs.Validation.{valid_state};
ghost use Rattle.engine.specs.StateRows.{state_from, SizedState};
ghost use Rattle.engine.specs.InPlace.{is_state, Executes, ExecutesInput};

use crate::commands::Command;
use crate::refusals::answer_from;
use crate::state_rows::{APPLIED_LENGTH, COUNTS, STATE_FLOATS, STATE_WORDS};
use hazards::answers::Answer;
use hazards::refusals::Refusal;

// Whether the rows are a state that passes refusal 1.
fn is_valid(words: &[[u64; 8]], floats: &[[f64; 8]], stream: &[u8], journal_length: usize) -> bool
    ensures { result ≡ (is_state words.now floats.now
        && valid_state stream.now journal_length (state_from words.now floats.now)) }
{
    if words.len() != STATE_WORDS {
        return false;
    }
    if floats.len() != STATE_FLOATS {
        return false;
    }
    let rows = words.as_array::<STATE_WORDS>().unwrap();
    let numbers = floats.as_array::<STATE_FLOATS>().unwrap();
    crate::validation::valid_state(rows, numbers, stream, journal_length)
}

// A command but UNDO, cut to its width; where it is accepted it is copied into the journal's free part.
fn perform_command(
    words: &mut [[u64; 8]; STATE_WORDS],
    floats: &mut [[f64; 8]; STATE_FLOATS],
    stream: &[u8],
    journal: &mut [u8],
    command: &[u8],
) -> Result<Answer, Refusal>
    requires { (valid_state stream.now (length journal.old) (state_from words.old floats.old) ≡ true) × IsCommand command.now }
    ensures { Executes words.old floats.old
        (after stream.now (length journal.old)
        (act (engine_of stream.now (length journal.old)) (state_from words.old floats.old)
        journal.old (carry_out command.now)))
        words.new floats.new journal.new (answer_from result) }
{
    let free = words[COUNTS][APPLIED_LENGTH] as usize;
    let answer = crate::execution::perform(words, floats, stream, journal.len(), command)?;
    crate::journal::copy_into(&mut journal[free..], command);
    Ok(answer)
}

// One input on a state and its journal, which are changed in place: its answer, or the refusal that it meets.
fn execute_input(
    words: &mut [[u64; 8]],
    floats: &mut [[f64; 8]],
    stream: &[u8],
    journal: &mut [u8],
    input: &[u8],
) -> Result<Answer, Refusal>
    ensures { ExecutesInput stream.now words.old floats.old journal.old
        input.now words.new floats.new journal.new (answer_from result) }
{
    if !is_valid(words, floats, stream, journal.len()) {
        return Err(Refusal::InvalidState);
    }
    let rows = words.as_mut_array::<STATE_WORDS>().unwrap();
    let numbers = floats.as_mut_array::<STATE_FLOATS>().unwrap();
    match crate::commands::front_command(input)? {
        Command::Undo => crate::replay::undo(rows, numbers, stream, journal),
        command => perform_command(rows, numbers, stream, journal, &input[..command.width()]),
    }
}

// One input (document 01: the command door) on a state and its journal, which are changed in place: how it is answered.
pub fn execute<'a>(
    words: &'a mut [[u64; 8]],
    floats: &'a mut [[f64; 8]],
    stream: &'a [u8],
    journal: &'a mut [u8],
    input: &'a [u8],
) -> Answer
    ensures { ExecutesInput stream.now words.old floats.old journal.old
        input.now words.new floats.new journal.new result }
{
    answer_from(execute_input(words, floats, stream, journal, input))
}
