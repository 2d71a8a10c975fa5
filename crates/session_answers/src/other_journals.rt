// Changes of the journal of base, so that its applied bytes do not give the state.
use crate::cases::Case;
use crate::cases::Case::{Journal, UndoAppended};
use crate::changes::Change::Word;
use crate::lent::Lent;
use engine::commands::{CREATE, RESCHEDULE, UNDO};
use engine::state_rows::{APPLIED_LENGTH, COUNTS};
use hazards::fields::put_u8;

pub const CASES: [Case; 7] = [
    // An UNDO among the applied bytes, at the front and at the last command.
    Journal(0, UNDO),
    Journal(345, UNDO),
    // No command; a CREATE that 4 refuses; a second CREATE, which 8 refuses; another priority in the last command.
    Journal(0, 0),
    Journal(10, 9),
    Journal(33, CREATE),
    Journal(364, 1),
    // An UNDO after the command that it would revert.
    UndoAppended,
];

// RESCHEDULE again and UNDO after it, from 368 on: together they would give the present state.
pub fn append_undo(lent: &mut Lent) {
    put_u8(&mut lent.journal, 368, RESCHEDULE);
    put_u8(&mut lent.journal, 391, UNDO);
    lent.change(Word(COUNTS, APPLIED_LENGTH, 392));
}
