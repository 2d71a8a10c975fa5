// The tampered states and journals: first those that state validation refuses, then those that UNDO refuses by 13.
use crate::changes::Change;
use crate::lent::{Lent, STATE_SIZES};
use crate::{base, invalid_states, older_rule, other_journals, other_states, uncoded_states};
use engine::state_rows::{STATE_FLOATS, STATE_WORDS};
use hazards::fields::put_u8;
use hazards::refusals::Refusal;

#[derive(Clone, Copy)]
pub enum Case {
    // Refused by 1: a change of the state, and so many rows of words and of floats.
    Invalid(Change),
    Sizes(usize, usize),
    // By 13: a change of the state, a byte of the journal, an UNDO more, and the older rule's delivery.
    Other(Change),
    Journal(usize, u8),
    UndoAppended,
    OlderRule,
}

// A row fewer and a row more of each kind.
pub const SIZES: [Case; 4] = [
    Case::Sizes(STATE_WORDS - 1, STATE_FLOATS),
    Case::Sizes(STATE_WORDS + 1, STATE_FLOATS),
    Case::Sizes(STATE_WORDS, STATE_FLOATS - 1),
    Case::Sizes(STATE_WORDS, STATE_FLOATS + 1),
];

// All of them, in the order of their numbers.
pub const ALL: [&[Case]; 6] = [
    &invalid_states::CASES,
    &uncoded_states::CASES,
    &SIZES,
    &other_states::CASES,
    &other_journals::CASES,
    &[Case::OlderRule],
];

impl Case {
    // The refusal that is due.
    pub fn due(self) -> Refusal {
        match self {
            Case::Invalid(_) | Case::Sizes(..) => Refusal::InvalidState,
            _ => Refusal::ReplayFails,
        }
    }

    // How many rows of words and of floats are lent.
    pub fn sizes(self) -> (usize, usize) {
        match self {
            Case::Sizes(words, floats) => (words, floats),
            _ => STATE_SIZES,
        }
    }

    // The state and the journal of base, tampered with; where another size is lent they stay as they are.
    pub fn lent(self) -> Lent {
        let mut lent = base::played();
        match self {
            Case::Invalid(change) | Case::Other(change) => lent.change(change),
            Case::Sizes(..) => {}
            Case::Journal(place, byte) => put_u8(&mut lent.journal, place, byte),
            Case::UndoAppended => other_journals::append_undo(&mut lent),
            Case::OlderRule => return older_rule::tampered(),
        }
        lent
    }
}
