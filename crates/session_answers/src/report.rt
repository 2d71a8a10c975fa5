// What the program writes: each difference as it is met, then the counts.
use crate::tally::{REFUSALS, Tally};
use crate::tampered::Verdicts;
use std::io;

pub fn print_session(rt: &impl Print, session: u64) -> io::Result<()> {
    println!(rt; "session {session}: the batch run differs")
}

pub fn print_command(rt: &impl Print, session: u64, command: u64) -> io::Result<()> {
    println!(rt; "session {session}, command {command}: the answer differs")
}

pub fn print_journal(rt: &impl Print, session: u64) -> io::Result<()> {
    println!(rt; "session {session}: the journal differs after the last command")
}

pub fn print_tampered(rt: &impl Print, case: u64, number: u64) -> io::Result<()> {
    println!(rt; "case {case} is not refused by {number} with everything left as it was")
}

pub fn print_untampered(rt: &impl Print, number: u64) -> io::Result<()> {
    println!(rt; "UNDO of a state that is not tampered with is refused by {number}")
}

fn print_refusals(rt: &impl Print, refusals: [u64; REFUSALS]) -> io::Result<()> {
    for number in 1..REFUSALS {
        println!(rt; "refused by {number}: {}", refusals[number])?;
    }
    Ok(())
}

pub fn print_tally(rt: &impl Print, tally: Tally) -> io::Result<()> {
    println!(rt;
        "batch run: {} sessions, {} differ",
        tally.sessions.cases, tally.sessions.differing
    )?;
    println!(rt;
        "one by one: {} commands, {} differ",
        tally.commands.cases, tally.commands.differing
    )?;
    print_refusals(rt, tally.refusals)
}

pub fn print_verdicts(rt: &impl Print, verdicts: Verdicts) -> io::Result<()> {
    println!(rt;
        "tampered states: {} refused by 1, {} UNDOs by 13, {} wrong",
        verdicts.invalid, verdicts.not_replayable, verdicts.wrong
    )
}
