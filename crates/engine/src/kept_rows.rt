// A clock and the shared state kept aside, and put back: what a command on that clock changes.
ghost use Rattle.std.specs.Prelude.{◌≡◌, ◌<◌};
ghost use Rattle.engine.specs.State.{slot_at, with_slot};
ghost use Rattle.engine.specs.StateRows.{shared_from, state_from, SizedState, CodedState};
ghost use Rattle.engine.specs.KeptRows.{kept_slot, kept_shared, SizedKept, CodedKept};

use crate::copying::copy_over;
use crate::state_rows::{COUNTS, STATE_FLOATS, STATE_WORDS};
use clocks::layout::{CLOCK_FLOATS, CLOCK_WORDS};

// The rows that are kept: the clock's, and those after the clocks.
pub const KEPT_WORDS: usize = 27;

// A clock and the shared state are copied into the rows that keep them.
pub(crate) fn keep(
    words: &[[u64; 8]; STATE_WORDS],
    floats: &[[f64; 8]; STATE_FLOATS],
    clock: usize,
    kept: &mut [[u64; 8]; KEPT_WORDS],
    kept_floats: &mut [[f64; 8]; CLOCK_FLOATS],
)
    requires { clock < 16 }
    ensures { (kept_slot kept.new kept_floats.new
        ≡ slot_at (state_from words.now floats.now) clock)
        × (kept_shared kept.new ≡ shared_from words.now)
        × (CodedState words.now floats.now → CodedKept kept.new kept_floats.new) }
{
    let w = CLOCK_WORDS * clock;
    let f = CLOCK_FLOATS * clock;
    copy_over(&mut kept[..CLOCK_WORDS], &words[w..w + CLOCK_WORDS]);
    copy_over(
        &mut kept[CLOCK_WORDS..KEPT_WORDS],
        &words[COUNTS..STATE_WORDS],
    );
    copy_over(kept_floats, &floats[f..f + CLOCK_FLOATS]);
}

// The clock and the shared state that are kept come back to their places.
pub(crate) fn put_back(
    words: &mut [[u64; 8]; STATE_WORDS],
    floats: &mut [[f64; 8]; STATE_FLOATS],
    clock: usize,
    kept: &[[u64; 8]; KEPT_WORDS],
    kept_floats: &[[f64; 8]; CLOCK_FLOATS],
)
    requires { clock < 16 }
    ensures { (state_from words.new floats.new
        ≡ with_slot (state_from words.old floats.old) clock
        (kept_slot kept.now kept_floats.now) (kept_shared kept.now))
        × (CodedState words.old floats.old → CodedKept kept.now kept_floats.now
        → CodedState words.new floats.new) }
{
    let w = CLOCK_WORDS * clock;
    let f = CLOCK_FLOATS * clock;
    copy_over(&mut words[w..w + CLOCK_WORDS], &kept[..CLOCK_WORDS]);
    copy_over(
        &mut words[COUNTS..STATE_WORDS],
        &kept[CLOCK_WORDS..KEPT_WORDS],
    );
    copy_over(&mut floats[f..f + CLOCK_FLOATS], kept_floats);
}
