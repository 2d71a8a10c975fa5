// What was counted: sessions and commands, those that differ, and the refusals of the batch run by their number.
use answer_lists::count::Count;

// Refusals 1 to 18, each at its number.
pub const REFUSALS: usize = 19;

#[derive(Clone, Copy)]
pub struct Tally {
    pub sessions: Count,
    pub commands: Count,
    pub refusals: [u64; REFUSALS],
}

impl Tally {
    pub fn new() -> Tally {
        Tally {
            sessions: Count::default(),
            commands: Count::default(),
            refusals: [0; REFUSALS],
        }
    }

    // A number of document 01's table, 1 to 18; another one is not counted.
    pub fn count_number(&mut self, number: u8) {
        if let Some(count) = self.refusals.get_mut(number as usize) {
            *count = count.saturating_add(1);
        }
    }
}
