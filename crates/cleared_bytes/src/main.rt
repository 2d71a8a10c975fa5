// Clears bytes between bytes that stay, by `journal::clear` and by UNDO, and holds every byte of the buffer to what is due.
#![tactic(auto)]

mod cleared;
mod report;
mod reverted;
mod session;

use std::io;

fn main(rt: HostRuntime) -> io::Result<()> {
    report::print_count(&rt, "cleared", "parts", cleared::try_all(&rt)?)?;
    report::print_count(&rt, "reverted", "commands", reverted::try_all(&rt)?)
}
