// The sessions of the list, one after another: six lengths and numbers, commands, stream, then the expected answers, journal and result.
use crate::parts::within;
use crate::tally::Tally;
use crate::{batch, stepwise};
use answer_lists::lists::{read_case, read_full};
use hazards::fields::{u8_at, u32_at};
use std::io;
use std::io::Read;

// The list is not read further than so many sessions.
const MOST_SESSIONS: u64 = 100000;

// What a session is given, and what the Rust answered, left and returned.
// Kept: the list holds what a run returned as a number.
#[derive(Clone, Copy)]
pub struct Session<'a> {
    pub commands: &'a [u8],
    pub stream: &'a [u8],
    pub answers: &'a [u8],
    pub journal: &'a [u8],
    pub outcome: &'a [u8],
    pub number: u8,
}

// The next bytes of the list, as many as are told at a place of the head, but no more than there is room for.
fn read_part<'b>(
    list: &mut impl Read,
    space: &'b mut [u8],
    head: &[u8],
    at: usize,
) -> io::Result<&'b [u8]> {
    let count = within(u32_at(head, at) as usize, space);
    let part = &mut space[..count];
    read_full(list, part)?;
    Ok(part)
}

// Reads one session's buffers, none of which is longer than 4,096 bytes, and plays it both ways.
fn play(rt: &impl Print, list: &mut impl Read, head: &[u8], tally: &mut Tally) -> io::Result<()> {
    let mut commands = [0u8; 4096];
    let mut stream = [0u8; 4096];
    let mut answers = [0u8; 4096];
    let mut journal = [0u8; 4096];
    let mut outcome = [0u8; 4096];
    let commands = read_part(list, &mut commands, head, 0)?;
    let stream = read_part(list, &mut stream, head, 4)?;
    let answers = read_part(list, &mut answers, head, 12)?;
    let journal = read_part(list, &mut journal, head, 8)?;
    let outcome = read_part(list, &mut outcome, head, 16)?;
    let session = Session {
        commands,
        stream,
        answers,
        journal,
        outcome,
        number: u8_at(head, 20),
    };
    batch::play(rt, session, tally)?;
    stepwise::play(rt, session, tally)
}

pub fn replay(rt: &impl Print, list: &mut impl Read) -> io::Result<Tally> {
    let mut tally = Tally::new();
    for _ in 0..MOST_SESSIONS {
        let Some(head) = read_case::<24, _>(list)? else {
            break;
        };
        play(rt, list, &head, &mut tally)?;
    }
    Ok(tally)
}
