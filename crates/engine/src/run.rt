// The batch run (document 01: run call): it opens an engine and answers command after command. The state stays in two arrays of its own.
ghost use Rattle.std.specs.Prelude.{◌≡◌, IsOk, cond, ◌&&◌, ◌++◌, ◌+◌, ◌*◌, ◌%◌, ◌<◌, ◌≤◌, eqb, length, replicate};
ghost use Rattle.hazards.specs.Fields.{bytes_of};
ghost use Rattle.hazards.specs.Answers.{answer_width, no_event};
ghost use Rattle.engine.specs.Refusals.{nothing_applied, refused_number, answer_from};
ghost use Rattle.engine.specs.Run.{run_of, ran};
ghost use Rattle.engine.specs.StateRows.{shared_from, SizedState};
ghost use Rattle.engine.specs.ExecutionInternals.{Ready, IsCommand};
ghost use Rattle.engine.specs.RunInternals.{stop, stop_at, journal_and_answers, answer_at, is_undone, AnswersCommand, AnswersUndone};
ghost use Rattle.engine.specs.RunInternals.{Ongoing, HasInput, AnswersInput, opened_run};

use crate::commands::Command;
use crate::execution::{perform, perform_reverted};
use crate::refusals::answer_from;
use crate::replay::replay;
use crate::state_rows::{APPLIED_LENGTH, COUNTS, STATE_FLOATS, STATE_WORDS};
use hazards::answers::{ANSWER_WIDTH, Answer, no_event, put_answer};
use hazards::refusals::Refusal;

// Room for a command's answer and that of an UNDO after it.
const TWO_ANSWERS: usize = 2 * ANSWER_WIDTH;

// A run between two inputs: the length of the applied commands, whether the state is stale, that is, may not be the one that they give,
// and the commands answered and bytes read so far.
#[derive(Clone, Copy)]
struct Progress {
    applied: usize,
    stale: bool,
    answered: usize,
    read: usize,
}

// Whether the stream is whole thresholds and the result has its bytes.
fn are_usable(stream: &[u8], res: &[u8]) -> bool
    ensures { result ≡ (eqb (length stream.now % 8) 0 && eqb (length res.now) 16) }
{
    stream.len() % 8 == 0 && res.len() == 16
}

// Commands answered and bytes read.
fn finish(res: &mut [u8], answered: usize, read: usize)
    requires { length res.old ≡ 16 }
    ensures { res.new ≡ bytes_of 8 answered ++ bytes_of 8 read }
{
    hazards::fields::put_u64(res, 0, answered as u64);
    hazards::fields::put_u64(res, 8, read as u64);
}

// What ends the run before an input is executed: 17 where its answer has no room, or 2 or 3, which is answered and counted; else nothing
// is written.
fn end_run(
    input: &[u8],
    answers: &mut [u8],
    res: &mut [u8],
    answered: usize,
    read: usize,
) -> Result<(), Refusal>
    requires { (answer_width * answered ≤ length answers.old) × (length res.old ≡ 16) }
    ensures { stop (refused_number result) answers.new res.new
        ≡ stop_at input.now answers.old res.old answered read }
{
    let place = ANSWER_WIDTH * answered;
    if answers.len() - place < ANSWER_WIDTH {
        finish(res, answered, read);
        return Err(Refusal::AnswersFull);
    }
    if let Err(refusal) = crate::commands::front_command(input) {
        put_answer(answers, place, no_event(refusal.number()));
        finish(res, answered + 1, read);
        return Err(refusal);
    }
    Ok(())
}

// The answer to a command at its place: a refusal's number alone, or the answer of an accepted command, which is copied into the
// journal's free part.
fn answer_at(
    outcome: Result<Answer, Refusal>,
    free: usize,
    journal: &mut [u8],
    answers: &mut [u8],
    place: usize,
    command: &[u8],
)
    requires { IsOk outcome → free + length command.now ≤ length journal.old }
    ensures { journal_and_answers journal.new answers.new
        ≡ answer_at (refused_number outcome) (answer_from outcome) free journal.old answers.old place command.now }
{
    match outcome {
        Ok(answer) => {
            crate::journal::copy_into(&mut journal[free..], command);
            put_answer(answers, place, answer);
        }
        Err(refusal) => put_answer(answers, place, no_event(refusal.number())),
    }
}

// A command but UNDO: performed, answered, and copied into the journal where it is accepted. The length of the applied commands after it.
fn answer_command(
    words: &mut [[u64; 8]; STATE_WORDS],
    floats: &mut [[f64; 8]; STATE_FLOATS],
    stream: &[u8],
    journal: &mut [u8],
    answers: &mut [u8],
    place: usize,
    command: &[u8],
) -> usize
    requires { Ready words.old floats.old × IsCommand command.now × ((shared_from words.old).applied_length ≤ length journal.old) }
    ensures { AnswersCommand stream.now words.old floats.old journal.old
        answers.old place command.now words.new floats.new journal.new
        answers.new result }
{
    let applied = words[COUNTS][APPLIED_LENGTH] as usize;
    let outcome = perform(words, floats, stream, journal.len(), command);
    answer_at(outcome, applied, journal, answers, place, command);
    words[COUNTS][APPLIED_LENGTH] as usize
}

// Whether the next input is an UNDO whose answer has room beside the command's.
fn is_undone(rest: &[u8], answers: &[u8], place: usize) -> bool
    requires { place + answer_width ≤ length answers.now }
    ensures { result ≡ is_undone rest.now (length answers.now) place }
{
    let undo = rest.first() == Some(&crate::commands::UNDO);
    undo && answers.len() - place >= TWO_ANSWERS
}

// A command that the next input, an UNDO, reverts where it is accepted: both are answered then, and nothing is replayed, since state and
// journal stay as they were. Tells whether it is accepted.
fn answer_undone(
    words: &mut [[u64; 8]; STATE_WORDS],
    floats: &mut [[f64; 8]; STATE_FLOATS],
    stream: &[u8],
    journal_length: usize,
    answers: &mut [u8],
    place: usize,
    command: &[u8],
) -> bool
    requires { Ready words.old floats.old × IsCommand command.now × (place + (answer_width + answer_width) ≤ length answers.old) }
    ensures { AnswersUndone stream.now journal_length words.old floats.old
        answers.old place command.now words.new floats.new answers.new result }
{
    match perform_reverted(words, floats, stream, journal_length, command) {
        Ok(answer) => {
            put_answer(answers, place, answer);
            put_answer(answers, place + ANSWER_WIDTH, no_event(0));
            true
        }
        Err(refusal) => {
            put_answer(answers, place, no_event(refusal.number()));
            false
        }
    }
}

// UNDO is refused where nothing is applied; a reached state meets no other refusal.
fn undone(applied: usize) -> Result<Answer, Refusal>
    ensures { answer_from result ≡ no_event (cond (eqb applied 0) nothing_applied 0) }
{
    if applied == 0 {
        return Err(Refusal::NothingApplied);
    }
    Ok(no_event(0))
}

// The next input, a whole command whose answer has room: answered, and with it an UNDO that reverts it at once. UNDO changes the journal
// alone; the state is stale after it until a command needs it, when the applied commands are replayed.
fn answer_input(
    words: &mut [[u64; 8]; STATE_WORDS],
    floats: &mut [[f64; 8]; STATE_FLOATS],
    commands: &[u8],
    stream: &[u8],
    journal: &mut [u8],
    answers: &mut [u8],
    p: Progress,
) -> Progress
    requires { Ongoing commands.now stream.now words.old floats.old journal.old answers.old p × HasInput commands.now answers.old p }
    ensures { (before : Ongoing commands.now stream.now words.old floats.old
        journal.old answers.old p)
        → AnswersInput commands.now stream.now before.state journal.old answers.old p
        words.new floats.new journal.new answers.new result }
{
    let place = ANSWER_WIDTH * p.answered;
    let at = p.read;
    let input = Command::try_from(commands[at]).unwrap();
    let end = at + input.width();
    let applied = p.applied;
    let mut next = Progress {
        applied,
        stale: false,
        answered: p.answered + 1,
        read: end,
    };
    if let Command::Undo = input {
        put_answer(answers, place, answer_from(undone(applied)));
        next.applied = crate::replay::revert(journal, applied);
        next.stale = true;
        return next;
    }
    let size = journal.len();
    if p.stale {
        replay(words, floats, stream, size, &journal[..applied]);
    }
    let command = &commands[at..end];
    if is_undone(&commands[end..], answers, place) {
        if answer_undone(words, floats, stream, size, answers, place, command) {
            next.answered = next.answered + 1;
            next.read = end + 1;
        }
        return next;
    }
    next.applied = answer_command(words, floats, stream, journal, answers, place, command);
    next
}

// The commands, one after another, from opening. A state that is reached from opening needs no validation.
fn run_commands(
    commands: &[u8],
    stream: &[u8],
    journal: &mut [u8],
    answers: &mut [u8],
    res: &mut [u8],
) -> Result<(), Refusal>
    requires { (journal.old ≡ replicate (length journal.old) 0) × (length res.old ≡ 16) }
    ensures { ran (refused_number result) journal.new answers.new res.new
        ≡ opened_run commands.now stream.now (length journal.old) answers.old }
{
    let mut words: [[u64; 8]; STATE_WORDS] = [[0; 8]; STATE_WORDS];
    let mut floats: [[f64; 8]; STATE_FLOATS] = [[0.0; 8]; STATE_FLOATS];
    crate::opening::open_state(&mut words, &mut floats);
    let mut p = Progress {
        applied: 0,
        stale: false,
        answered: 0,
        read: 0,
    };
    // Kept: a cursor over commands of different widths, of which a turn may answer two.
    while p.read < commands.len() {
        let at = p.read;
        end_run(&commands[at..], answers, res, p.answered, at)?;
        p = answer_input(
            &mut words,
            &mut floats,
            commands,
            stream,
            journal,
            answers,
            p,
        );
    }
    finish(res, p.answered, p.read);
    Ok(())
}

// The batch run (document 01: run call): refused by 18, or by the 2, 3 or 17 that ended it.
pub fn run(
    commands: &[u8],
    stream: &[u8],
    journal: &mut [u8],
    answers: &mut [u8],
    res: &mut [u8],
) -> Result<(), Refusal>
    ensures { ran (refused_number result) journal.new answers.new res.new
        ≡ run_of commands.now stream.now journal.old answers.old res.old }
{
    if !are_usable(stream, res) {
        return Err(Refusal::BadBuffers);
    }
    let length = journal.len();
    crate::journal::clear(journal, length);
    run_commands(commands, stream, journal, answers, res)
}
