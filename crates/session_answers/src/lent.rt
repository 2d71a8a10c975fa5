// The memory that is lent to an engine, as a whole.
use crate::changes::Change;
use crate::commands::after_first;
use crate::same_rows::same_floats;
use engine::execute::execute;
use engine::opening::open;
use engine::state_rows::{STATE_FLOATS, STATE_WORDS};
use hazards::answers::{Answer, no_event};

// How many rows of words and of floats a state has.
pub const STATE_SIZES: (usize, usize) = (STATE_WORDS, STATE_FLOATS);

// A state lies in the front rows: there is a row more of each kind.
#[derive(Clone, Copy)]
pub struct Lent {
    pub words: [[u64; 8]; STATE_WORDS + 1],
    pub floats: [[f64; 8]; STATE_FLOATS + 1],
    pub journal: [u8; 400],
}

impl Lent {
    // The state that the first commands of a journal give from opening, so many of them, and this journal.
    pub fn after(journal: [u8; 400], stream: &[u8], count: usize) -> Lent {
        let mut lent = Lent {
            words: [[0; 8]; STATE_WORDS + 1],
            floats: [[0.0; 8]; STATE_FLOATS + 1],
            journal: [0x5a; 400],
        };
        let words = &mut lent.words[..STATE_WORDS];
        let floats = &mut lent.floats[..STATE_FLOATS];
        let _ = open(words, floats, &mut lent.journal);
        let mut input = journal.as_slice();
        for _ in 0..count {
            lent.execute(STATE_SIZES, stream, input);
            input = after_first(input);
        }
        lent.journal = journal;
        lent
    }

    // An input on so many of the rows.
    pub fn execute(&mut self, sizes: (usize, usize), stream: &[u8], input: &[u8]) -> Answer {
        let words = self.words.get_mut(..sizes.0);
        let floats = self.floats.get_mut(..sizes.1);
        let (Some(words), Some(floats)) = (words, floats) else {
            return no_event(0);
        };
        execute(words, floats, stream, &mut self.journal, input)
    }

    pub fn change(&mut self, change: Change) {
        match change {
            Change::Word(row, place, word) => put(&mut self.words, row, place, word),
            Change::Float(row, place, float) => put(&mut self.floats, row, place, float),
        }
    }

    pub fn is_same(&self, other: &Lent) -> bool {
        self.words == other.words
            && same_floats(&self.floats, &other.floats)
            && self.journal == other.journal
    }
}

// A row or a place that is not there stays so.
fn put<T: Copy>(rows: &mut [[T; 8]], row: usize, place: usize, value: T) {
    if let Some(number) = rows.get_mut(row).and_then(|row| row.get_mut(place)) {
        *number = value;
    }
}
