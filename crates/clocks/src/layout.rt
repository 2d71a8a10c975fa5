// Where a clock lies in lent memory: rows of eight words and rows of eight floats, every place by its name.
ghost use Rattle.std.specs.Prelude.{◌≡◌};
ghost use Rattle.clocks.specs.Layout.{u32_from, byte_from};

// The rows of a clock.
pub const CLOCK_WORDS: usize = 10;

pub const CLOCK_FLOATS: usize = 25;

// Kept: a struct of the two lent arrays would be taken apart at each call, and every clause names both.
pub type ClockWords = [[u64; 8]; CLOCK_WORDS];

pub type ClockFloats = [[f64; 8]; CLOCK_FLOATS];

// Words: the row of what CREATE sets, and the number of channels used.
pub const SETTINGS: usize = 0;

pub const PRESENT: usize = 0;

pub const PROCESS: usize = 1;

pub const HAS_ENTITY: usize = 2;

pub const ENTITY_INDEX: usize = 3;

pub const GENERATION: usize = 4;

pub const POLICY: usize = 5;

pub const TIE: usize = 6;

pub const COUNT: usize = 7;

// The row of the schedule; two places are spare.
pub const SCHEDULE: usize = 1;

pub const EVENT: usize = 0;

pub const EVENT_INDEX: usize = 1;

pub const WINNER: usize = 2;

pub const WINNER_CAUSE: usize = 3;

pub const ACTIVE: usize = 4;

pub const WINNER_PIECE: usize = 5;

// A row for each channel; four places are spare.
pub const CHANNELS: usize = 2;

pub const CAUSE: usize = 0;

pub const PRIORITY: usize = 1;

pub const KIND: usize = 2;

pub const PAIRS: usize = 3;

// Floats: the row of the clock's own; five places are spare.
pub const TIMES: usize = 0;

pub const SCALE: usize = 0;

pub const WINNER_TIME: usize = 1;

pub const LAST_UPDATE: usize = 2;

// Three rows for each channel: its numbers, of which four places are spare, and the ends and the rates of its pairs.
pub const NUMBERS: usize = 1;

pub const ENDS: usize = 2;

pub const RATES: usize = 3;

pub const CHANNEL_FLOATS: usize = 3;

pub const ACCUMULATED: usize = 0;

pub const THRESHOLD: usize = 1;

pub const START: usize = 2;

pub const RATE: usize = 3;

// A word cut to 32 bits.
// Kept: the definition Layout.u32_from cuts, where `as` may lose nothing and TryFrom refuses.
pub fn u32_from(word: u64) -> u32
    ensures { result ≡ u32_from word }
{
    (word % 0x1_0000_0000) as u32
}

// A word cut to a byte: a kind's number, a choice's, or a piece.
// Kept: the definition Layout.byte_from cuts, as u32_from does.
pub fn byte_from(word: u64) -> u8
    ensures { result ≡ byte_from word }
{
    (word % 256) as u8
}
