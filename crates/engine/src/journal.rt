// The journal's bytes: a command copied into the free part, bytes cleared, and the part that the applied commands fill.
ghost use Rattle.std.specs.Prelude.{◌≡◌, ◌*◌, ◌≤◌, length};
ghost use Rattle.engine.specs.Journal.{copied_into, cleared_front, part_of, applied_part};

use crate::copying::copy_over;
use hazards::refusals::Refusal;

// The command over the first bytes of the free part; one that is longer changes nothing.
pub fn copy_into(free: &mut [u8], command: &[u8])
    ensures { free.new ≡ copied_into free.old command.now }
{
    if command.len() <= free.len() {
        copy_over(&mut free[..command.len()], command);
    }
}

// Zero over the first `eights` times eight bytes, eight in each turn.
// Kept: document 02, change 3, asks for eight bytes in each turn; as_chunks_mut says nothing of what the slice ends as.
fn clear_eights(bytes: &mut [u8], eights: usize)
    requires { eights * 8 ≤ length bytes.old }
    ensures { bytes.new ≡ cleared_front bytes.old (eights * 8) }
{
    for turn in 0..eights {
        let i = turn * 8;
        bytes[i] = 0;
        bytes[i + 1] = 0;
        bytes[i + 2] = 0;
        bytes[i + 3] = 0;
        bytes[i + 4] = 0;
        bytes[i + 5] = 0;
        bytes[i + 6] = 0;
        bytes[i + 7] = 0;
    }
}

// Zero over the first `count` bytes, over all where there are fewer: eight in each turn, then the bytes left over one by one.
pub fn clear(bytes: &mut [u8], count: usize)
    ensures { bytes.new ≡ cleared_front bytes.old count }
{
    let end = count.min(bytes.len());
    let eights = end / 8;
    clear_eights(bytes, eights);
    bytes[eights * 8..end].fill(0);
}

// The applied commands (document 01: standing commands), as that part of the caller's journal; refused by 1 where their length is past
// the journal's end.
pub fn applied_commands(applied_length: usize, journal: &[u8]) -> Result<&[u8], Refusal>
    ensures { part_of result ≡ applied_part journal.now applied_length }
{
    if applied_length <= journal.len() {
        Ok(&journal[..applied_length])
    } else {
        Err(Refusal::InvalidState)
    }
}
