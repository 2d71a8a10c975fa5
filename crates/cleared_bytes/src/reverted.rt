// A command of each kind taken back by UNDO, the last first: of the journal only that command's bytes are cleared, which begin anywhere and
// are 1, 6, 10, 23, 33 or 156; the commands before it stay, and so do the bytes behind it.
use crate::session;
use answer_lists::count::Count;
use engine::commands::UNDO;
use engine::execute::execute;
use engine::state_rows::{STATE_FLOATS, STATE_WORDS};
use std::io;

// The session's bytes up to a place, then zero up to its end, then A5 hex.
fn journal_after(applied: usize) -> [u8; 300] {
    let mut journal = [0xa5u8; 300];
    journal[..252].copy_from_slice(&session::commands());
    if let Some(reverted) = journal.get_mut(applied..252) {
        reverted.fill(0);
    }
    journal
}

// The state after the whole session, in the rows.
fn play(words: &mut [[u64; 8]], floats: &mut [[f64; 8]], stream: &[u8]) {
    let commands = session::commands();
    let mut journal = [0x5au8; 300];
    let _ = engine::opening::open(words, floats, &mut journal);
    for place in session::PLACES {
        let input = commands.get(place..).unwrap_or_default();
        execute(words, floats, stream, &mut journal, input);
    }
}

pub fn try_all(rt: &impl Print) -> io::Result<Count> {
    let stream = session::stream();
    let mut words = [[0u64; 8]; STATE_WORDS];
    let mut floats = [[0.0; 8]; STATE_FLOATS];
    play(&mut words, &mut floats, &stream);
    let mut journal = journal_after(252);
    let mut count = Count::default();
    for (left, place) in session::PLACES.iter().enumerate().rev() {
        let answer = execute(&mut words, &mut floats, &stream, &mut journal, &[UNDO]);
        let right = answer.number == 0 && journal == journal_after(*place);
        if !right {
            crate::report::print_command(rt, left as u64)?;
        }
        count = count.with(right);
    }
    Ok(count)
}
