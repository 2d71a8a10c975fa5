// A session command by command from opening: every answer, and the whole journal after the last.
ghost use Rattle.std.specs.Prelude.{◌≤◌};

use crate::commands::{after_first, answered};
use crate::parts::within;
use crate::report::{print_command, print_journal};
use crate::sessions::Session;
use crate::tally::Tally;
use engine::state_rows::{STATE_FLOATS, STATE_WORDS};
use hazards::answers::{ANSWER_WIDTH, Answer, put_answer};
use hazards::refusals::Refusal;
use std::io;

// The answer to command i, as the run's answers have it.
fn answer_agrees(answer: Answer, answers: &[u8], i: usize) -> bool
    requires { i ≤ 128 }
{
    let mut out = [0u8; ANSWER_WIDTH];
    put_answer(&mut out, 0, answer);
    let start = ANSWER_WIDTH * i;
    answers.get(start..start + ANSWER_WIDTH) == Some(&out)
}

// Each input is the rest of the commands: bytes past a command's width are ignored.
fn play_commands(
    rt: &impl Print,
    session: Session<'_>,
    journal: &mut [u8],
    tally: &mut Tally,
) -> io::Result<()> {
    let mut words = [[0u64; 8]; STATE_WORDS];
    let mut floats = [[0.0; 8]; STATE_FLOATS];
    let _ = engine::opening::open(&mut words, &mut floats, journal);
    let mut input = session.commands;
    for i in 0..answered(session.outcome, session.number) {
        let stream = session.stream;
        let answer = engine::execute::execute(&mut words, &mut floats, stream, journal, input);
        let agrees = answer_agrees(answer, session.answers, i);
        if !agrees {
            print_command(rt, tally.sessions.cases, i as u64 + 1)?;
        }
        tally.commands = tally.commands.with(agrees);
        input = after_first(input);
    }
    Ok(())
}

// A run that 18 ended has answered nothing, and its journal was never opened.
pub fn play(rt: &impl Print, session: Session<'_>, tally: &mut Tally) -> io::Result<()> {
    if session.number == Refusal::BadBuffers.number() {
        return Ok(());
    }
    let mut space = [0x5au8; 4096];
    let length = within(session.journal.len(), &space);
    let journal = &mut space[..length];
    play_commands(rt, session, journal, tally)?;
    if *journal != *session.journal {
        print_journal(rt, tally.sessions.cases)?;
        tally.commands = tally.commands.with(false);
    }
    Ok(())
}
