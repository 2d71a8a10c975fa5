// The commands in a session's bytes, and how many of them were answered.
ghost use Rattle.std.specs.Prelude.{◌≤◌};

use engine::commands::{byte_at, width};
use hazards::fields::u64_at;
use hazards::refusals::Refusal;

// No session of the list has more commands.
const MOST: u64 = 128;

// The bytes after the command at the front; none past the end.
pub fn after_first(commands: &[u8]) -> &[u8] {
    commands
        .get(width(byte_at(commands, 0))..)
        .unwrap_or_default()
}

// How many commands a run has answered, by its result; none where 18 left the result unwritten.
pub fn answered(res: &[u8], number: u8) -> usize
    ensures { result ≤ 128 }
{
    if number == Refusal::BadBuffers.number() {
        return 0;
    }
    u64_at(res, 0).min(MOST) as usize
}
