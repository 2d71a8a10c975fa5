// A step's answer, draw position and clock, compared with the expected ones.
use crate::clock_record::{CLOCK_WIDTH, put_clock};
use crate::steps::{Clock, Played};
use hazards::answers::{ANSWER_WIDTH, put_answer};
use hazards::fields::put_u64;

// Where a step's expected answer and draw position stand, then its clock, and the bytes of a step.
const ANSWER_PLACE: usize = 172;

const CLOCK_PLACE: usize = ANSWER_PLACE + ANSWER_WIDTH + 8;

pub const STEP_WIDTH: usize = CLOCK_PLACE + CLOCK_WIDTH;

// The answer and the draw position after a step.
fn answer_agrees(played: Played, case: &[u8]) -> bool {
    let mut out = [0u8; ANSWER_WIDTH + 8];
    put_answer(&mut out, 0, played.answer);
    put_u64(&mut out, ANSWER_WIDTH, played.position as u64);
    case.get(ANSWER_PLACE..CLOCK_PLACE) == Some(&out)
}

// The clock after a step, as the list has it.
fn clock_agrees(clock: &Clock, case: &[u8]) -> bool {
    let mut out = [0u8; CLOCK_WIDTH];
    put_clock(&mut out, clock);
    case.get(CLOCK_PLACE..STEP_WIDTH) == Some(&out)
}

pub fn agrees(clock: &Clock, played: Played, case: &[u8]) -> bool {
    answer_agrees(played, case) && clock_agrees(clock, case)
}
