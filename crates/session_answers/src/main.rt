// Replays the fixed list of whole sessions with what the unchanged Rust answered and left, through the batch run and command by command;
// then gives inputs to states that were tampered with. The list's layout, and how it was made, are in host/README.md.
#![tactic(auto)]

mod base;
mod batch;
mod cases;
mod changes;
mod commands;
mod invalid_states;
mod lent;
mod older_rule;
mod other_journals;
mod other_states;
mod parts;
mod report;
mod same_rows;
mod sessions;
mod stepwise;
mod tally;
mod tampered;
mod uncoded_states;

use std::fs::File;
use std::io;

fn main(rt: HostRuntime) -> io::Result<()> {
    let mut list = File::open(&rt, "sessions.bin")?;
    report::print_tally(&rt, sessions::replay(&rt, &mut list)?)?;
    report::print_verdicts(&rt, tampered::try_all(&rt)?)
}
