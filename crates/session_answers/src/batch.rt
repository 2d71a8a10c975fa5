// A session through the batch run: the returned number and every byte of answers, journal and result.
ghost use Rattle.std.specs.Prelude.{◌≤◌};

use crate::commands::answered;
use crate::parts::within;
use crate::report::print_session;
use crate::sessions::Session;
use crate::tally::Tally;
use engine::run::run;
use hazards::answers::ANSWER_WIDTH;
use hazards::fields::u8_at;
use hazards::refusals::Refusal;
use std::io;

// The refusals of a run: those of its answers, and 17 and 18, which are no answer to a command.
fn count_refusals(answers: &[u8], answered: usize, number: u8, tally: &mut Tally)
    requires { answered ≤ 128 }
{
    if number >= Refusal::AnswersFull.number() {
        tally.count_number(number);
    }
    for i in 0..answered {
        tally.count_number(u8_at(answers, ANSWER_WIDTH * i));
    }
}

// Before the call the buffers hold A5, 5A and C3 hex, as they did for the Rust.
pub fn play(rt: &impl Print, session: Session<'_>, tally: &mut Tally) -> io::Result<()> {
    let mut answers = [0xa5u8; 4096];
    let mut journal = [0x5au8; 4096];
    let mut outcome = [0xc3u8; 4096];
    let answer_length = within(session.answers.len(), &answers);
    let journal_length = within(session.journal.len(), &journal);
    let outcome_length = within(session.outcome.len(), &outcome);
    let answers = &mut answers[..answer_length];
    let journal = &mut journal[..journal_length];
    let outcome = &mut outcome[..outcome_length];
    let number = run(session.commands, session.stream, journal, answers, outcome).map_or_else(
        u8::from,
        |()| 0,
    );
    let agrees = number == session.number
        && *answers == *session.answers
        && *journal == *session.journal
        && *outcome == *session.outcome;
    count_refusals(answers, answered(outcome, number), number, tally);
    tally.sessions = tally.sessions.with(agrees);
    if !agrees {
        print_session(rt, tally.sessions.cases)?;
    }
    Ok(())
}
