// Opening an engine in lent memory: nothing exists, and the journal is filled with zero.
ghost use Rattle.std.specs.Prelude.{◌≡◌, true, false, length, replicate};
ghost use Rattle.hazards.specs.Floats.{z};
ghost use Rattle.hazards.specs.Refusals.{invalid_state, refused_number};
ghost use Rattle.engine.specs.Opening.{opened_state};
ghost use Rattle.engine.specs.StateRows.{state_from, SizedState, CodedState};
ghost use Rattle.engine.specs.InPlace.{has_sizes, Opens, Refuses};
ghost use Rattle.engine.specs.OpeningInternals.{OpenedFloats};

use crate::state_rows::{CLOCKS, STATE_FLOATS, STATE_WORDS};
use clocks::layout::{CLOCK_FLOATS, TIMES};
use hazards::refusals::Refusal;

// The scale of a clock that is not there is 1.
fn put_scales(floats: &mut [[f64; 8]; STATE_FLOATS])
    requires { floats.old ≡ replicate 400 (replicate 8 z) }
    ensures { OpenedFloats 16 floats.new }
{
    for k in 0..CLOCKS {
        floats[CLOCK_FLOATS * k + TIMES] = [1.0, 0.0, 0.0, 0.0, 0.0, 0.0, 0.0, 0.0];
    }
}

// At opening nothing exists.
pub(crate) fn open_state(words: &mut [[u64; 8]; STATE_WORDS], floats: &mut [[f64; 8]; STATE_FLOATS])
    ensures { (state_from words.new floats.new ≡ opened_state)
        × CodedState words.new floats.new }
{
    words.fill([0; 8]);
    floats.fill([0.0; 8]);
    put_scales(floats);
}

// An engine is opened in the rows; where they have other sizes nothing is changed.
pub fn open(
    words: &mut [[u64; 8]],
    floats: &mut [[f64; 8]],
    journal: &mut [u8],
) -> Result<(), Refusal>
    ensures { (has_sizes words.old floats.old ≡ true
        → Opens words.new floats.new journal.old journal.new (refused_number result))
        × (has_sizes words.old floats.old ≡ false
        → (refused_number result ≡ invalid_state) × Refuses words.old floats.old journal.old words.new
        floats.new journal.new) }
{
    let Some(words) = words.as_mut_array::<STATE_WORDS>() else {
        return Err(Refusal::InvalidState);
    };
    let Some(floats) = floats.as_mut_array::<STATE_FLOATS>() else {
        return Err(Refusal::InvalidState);
    };
    open_state(words, floats);
    let length = journal.len();
    crate::journal::clear(journal, length);
    Ok(())
}
