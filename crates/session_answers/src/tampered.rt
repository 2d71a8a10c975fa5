// States and journals that were tampered with: refusal 1 by every condition of its row and by rows that are no state, whatever the input,
// and refusal 13 of UNDO. Each refusal has to leave state and journal as they were.
use crate::cases::{ALL, Case};
use crate::lent::{Lent, STATE_SIZES};
use crate::report::{print_tampered, print_untampered};
use crate::{base, older_rule};
use engine::commands::UNDO;
use hazards::answers::{ANSWER_WIDTH, Answer, put_answer};
use hazards::refusals::Refusal;
use std::io;

// How many cases were tried, how many were refused by 1 and by 13, and how much is wrong.
#[derive(Clone, Copy)]
pub struct Verdicts {
    tried: u64,
    pub invalid: u64,
    pub not_replayable: u64,
    pub wrong: u64,
}

impl Verdicts {
    fn try_case(&mut self, rt: &impl Print, case: Case) -> io::Result<()> {
        let due = case.due();
        let count = if !is_refused_as_due(case) {
            print_tampered(rt, self.tried, u64::from(due.number()))?;
            &mut self.wrong
        } else if due == Refusal::InvalidState {
            &mut self.invalid
        } else {
            &mut self.not_replayable
        };
        *count = count.saturating_add(1);
        self.tried = self.tried.saturating_add(1);
        Ok(())
    }

    fn try_each(&mut self, rt: &impl Print, cases: &[Case]) -> io::Result<()> {
        for case in cases {
            self.try_case(rt, *case)?;
        }
        Ok(())
    }
}

// The refusal's number, and zero elsewhere in the answer.
fn is_refusal(answer: Answer, refusal: Refusal) -> bool {
    let mut given = [0u8; ANSWER_WIDTH];
    put_answer(&mut given, 0, answer);
    let mut expected = [0u8; ANSWER_WIDTH];
    expected[0] = refusal.number();
    given == expected
}

// Whether an input is answered by a refusal and changes nothing.
fn is_refused(case: Case, input: &[u8], refusal: Refusal) -> bool {
    let before = case.lent();
    let mut lent = before;
    let answer = lent.execute(case.sizes(), &base::stream(), input);
    is_refusal(answer, refusal) && lent.is_same(&before)
}

// By the refusal that is due: 1 whatever the input, that is no bytes, no command, REMOVE, DELIVER or UNDO; 13 for UNDO.
fn is_refused_as_due(case: Case) -> bool {
    let due = case.due();
    if due != Refusal::InvalidState {
        return is_refused(case, &[UNDO], due);
    }
    let inputs: [&[u8]; 5] = [b"", b"\x00", b"\x03\x00\x01\x00\x00\x00", b"\x07", b"\x08"];
    inputs.iter().all(|input| is_refused(case, input, due))
}

fn is_undone(rt: &impl Print, mut lent: Lent) -> io::Result<bool> {
    let answer = lent.execute(STATE_SIZES, &base::stream(), &[UNDO]);
    if answer.number != 0 {
        print_untampered(rt, answer.number as u64)?;
    }
    Ok(answer.number == 0)
}

// Without tampering UNDO is accepted, so that a refusal comes from the change.
fn try_untampered(rt: &impl Print) -> io::Result<Verdicts> {
    let one_clock = is_undone(rt, base::played())?;
    let two_clocks = is_undone(rt, older_rule::played())?;
    Ok(Verdicts {
        tried: 0,
        invalid: 0,
        not_replayable: 0,
        wrong: !(one_clock && two_clocks) as u64,
    })
}

pub fn try_all(rt: &impl Print) -> io::Result<Verdicts> {
    let mut verdicts = try_untampered(rt)?;
    for cases in ALL {
        verdicts.try_each(rt, cases)?;
    }
    Ok(verdicts)
}
