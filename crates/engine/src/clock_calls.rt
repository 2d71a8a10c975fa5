// The calls of clocks on the rows of one clock of a state; the other clocks and the rest stay as they are.
ghost use Rattle.std.specs.Prelude.{◌≡◌, OnErr, true, ◌<◌, length};
ghost use Rattle.clocks.specs.Clocks.{remove_channel};
ghost use Rattle.clocks.specs.Layout.{FloatRows, Sized, Coded, Leaves, clock_from, present_in};
ghost use Rattle.clocks.specs.RowsInternals.{takes_cause, channel_draw, channel_drawn, queue_change, censor_from, change_from, event_from};
ghost use Rattle.clocks.specs.Scheduling as scheduling;
ghost use Rattle.clocks.specs.Setting.{set_channel};
ghost use Rattle.engine.specs.Commands.{created_clock};
ghost use Rattle.engine.specs.Execution.{holding};
ghost use Rattle.engine.specs.State.{slot_at, with_slot};
ghost use Rattle.engine.specs.StateRows.{shared_from, state_from, CodedState, SizedState, LeavesClock};

use crate::commands::{
    ENTITY_INDEX_FIELD, GENERATION_FIELD, HAS_ENTITY_FIELD, POLICY_FIELD, PROCESS_FIELD,
    SCALE_FIELD, TIE_FIELD, byte_at,
};
use crate::state_rows::{COUNTS, POSITION, REQUEST_COUNT, STATE_FLOATS, STATE_WORDS};
use clocks::clocks::{EntityId, HazardInterruptionPolicy, ScheduledEvent};
use clocks::layout::{CLOCK_FLOATS, CLOCK_WORDS};
use clocks::scheduling::{QueueChange, RealizedEvent};
use clocks::setting::CauseSetting;
use hazards::fields::{f64_at, u32_at, u64_at};
use hazards::refusals::Refusal;
use hazards::ties::TieBreaker;

// Kept: a loan of the whole of a slice as an array is told back to the check, one of a part of it is not; so the calls on a clock's rows
// are functions of their own, which take them as slices.
// Kept: a function for each method: each says by the method's own definition what it leaves, which one over the method would say by
// F.pre and F.post of two lent slices.

// The clock that a CREATE makes, in a clock's rows.
fn create_clock(words: &mut [[u64; 8]], floats: &mut [[f64; 8]], command: &[u8])
    requires { Sized words.old floats.old }
    ensures { (clock_from words.new floats.new ≡ created_clock command.now)
        × (present_in words.new ≡ true) × Coded words.new floats.new }
{
    let named = EntityId {
        index: u64_at(command, ENTITY_INDEX_FIELD),
        generation: u32_at(command, GENERATION_FIELD),
    };
    let entity = (byte_at(command, HAS_ENTITY_FIELD) == 1).then_some(named);
    let policy = HazardInterruptionPolicy::from(byte_at(command, POLICY_FIELD));
    let tie = TieBreaker::from(byte_at(command, TIE_FIELD));
    let rows = words.as_mut_array::<CLOCK_WORDS>().unwrap();
    let numbers = floats.as_mut_array::<CLOCK_FLOATS>().unwrap();
    clocks::clocks::create(
        rows,
        numbers,
        u64_at(command, PROCESS_FIELD),
        entity,
        policy,
        tie,
        f64_at(command, SCALE_FIELD),
    );
}

// A CREATE on the rows of a clock.
pub(crate) fn create_in(
    words: &mut [[u64; 8]; STATE_WORDS],
    floats: &mut [[f64; 8]; STATE_FLOATS],
    clock: usize,
    command: &[u8],
)
    requires { clock < 16 }
    ensures { (state_from words.new floats.new
        ≡ with_slot (state_from words.old floats.old) clock (holding (created_clock command.now))
        (shared_from words.old))
        × (shared_from words.new ≡ shared_from words.old)
        × (CodedState words.old floats.old → CodedState words.new floats.new) }
{
    let w = CLOCK_WORDS * clock;
    let f = CLOCK_FLOATS * clock;
    create_clock(
        &mut words[w..w + CLOCK_WORDS],
        &mut floats[f..f + CLOCK_FLOATS],
        command,
    );
}

// Each method on a clock's own rows, lent as slices: from here on the functions that end in _rows.
fn remove_rows(words: &mut [[u64; 8]], floats: &mut [[f64; 8]], cause: u32)
    requires { Sized words.old floats.old }
    ensures { Leaves words.old floats.old words.new floats.new
        (remove_channel (clock_from words.old floats.old) cause) }
{
    let rows = words.as_mut_array::<CLOCK_WORDS>().unwrap();
    let numbers = floats.as_mut_array::<CLOCK_FLOATS>().unwrap();
    clocks::clocks::remove_channel(rows, numbers, cause);
}

// remove_channel on the rows of a clock.
pub(crate) fn remove_in(
    words: &mut [[u64; 8]; STATE_WORDS],
    floats: &mut [[f64; 8]; STATE_FLOATS],
    clock: usize,
    cause: u32,
)
    requires { clock < 16 }
    ensures { LeavesClock words.old floats.old clock words.new floats.new
        (remove_channel (slot_at (state_from words.old floats.old) clock).clock cause) }
{
    let w = CLOCK_WORDS * clock;
    let f = CLOCK_FLOATS * clock;
    remove_rows(
        &mut words[w..w + CLOCK_WORDS],
        &mut floats[f..f + CLOCK_FLOATS],
        cause,
    );
}

// Whether a clock has a cause, or a place for it.
pub(crate) fn takes_cause(words: &[[u64; 8]; STATE_WORDS], clock: usize, cause: u32) -> bool
    requires { clock < 16 }
    ensures { (floats : FloatRows)
        → result ≡ takes_cause (slot_at (state_from words.now floats) clock).clock cause }
{
    let w = CLOCK_WORDS * clock;
    let rows = words[w..w + CLOCK_WORDS].as_array::<CLOCK_WORDS>();
    clocks::setting::takes_cause(rows.unwrap(), cause)
}

fn set_rows(
    words: &mut [[u64; 8]],
    floats: &mut [[f64; 8]],
    setting: CauseSetting,
    stream: &[u8],
    position: usize,
) -> Result<usize, Refusal>
    requires { Sized words.old floats.old }
    ensures { Leaves words.old floats.old words.new floats.new
        (set_channel (clock_from words.old floats.old) setting stream.now position).clock
        × (channel_drawn position result ≡ channel_draw (set_channel (clock_from words.old floats.old) setting stream.now position))
        × OnErr result ((words.new ≡ words.old) × (floats.new ≡ floats.old)) }
{
    let rows = words.as_mut_array::<CLOCK_WORDS>().unwrap();
    let numbers = floats.as_mut_array::<CLOCK_FLOATS>().unwrap();
    clocks::setting::set_channel(rows, numbers, setting, stream, position)
}

// set_channel on the rows of a clock; its refusal changes nothing.
pub(crate) fn set_in(
    words: &mut [[u64; 8]; STATE_WORDS],
    floats: &mut [[f64; 8]; STATE_FLOATS],
    clock: usize,
    setting: CauseSetting,
    stream: &[u8],
) -> Result<usize, Refusal>
    requires { clock < 16 }
    ensures { LeavesClock words.old floats.old clock words.new floats.new
        (set_channel (slot_at (state_from words.old floats.old) clock).clock setting
        stream.now (shared_from words.old).position).clock
        × (channel_drawn (shared_from words.old).position result
        ≡ channel_draw (set_channel (slot_at (state_from words.old floats.old) clock).clock setting
        stream.now (shared_from words.old).position))
        × OnErr result ((words.new ≡ words.old) × (floats.new ≡ floats.old)) }
{
    let w = CLOCK_WORDS * clock;
    let f = CLOCK_FLOATS * clock;
    let position = words[COUNTS][POSITION] as usize;
    set_rows(
        &mut words[w..w + CLOCK_WORDS],
        &mut floats[f..f + CLOCK_FLOATS],
        setting,
        stream,
        position,
    )
}

fn pause_rows(words: &mut [[u64; 8]], floats: &mut [[f64; 8]], time: f64) -> ScheduledEvent
    requires { Sized words.old floats.old }
    ensures { Leaves words.old floats.old words.new floats.new
        (scheduling.pause (clock_from words.old floats.old) time).clock
        × (result ≡ (scheduling.pause (clock_from words.old floats.old) time).withdrawn) }
{
    let rows = words.as_mut_array::<CLOCK_WORDS>().unwrap();
    let numbers = floats.as_mut_array::<CLOCK_FLOATS>().unwrap();
    clocks::scheduling::pause(rows, numbers, time)
}

// pause on the rows of a clock; the event that is withdrawn.
pub(crate) fn pause_in(
    words: &mut [[u64; 8]; STATE_WORDS],
    floats: &mut [[f64; 8]; STATE_FLOATS],
    clock: usize,
    time: f64,
) -> ScheduledEvent
    requires { clock < 16 }
    ensures { LeavesClock words.old floats.old clock words.new floats.new
        (scheduling.pause (slot_at (state_from words.old floats.old) clock).clock time).clock
        × (result ≡ (scheduling.pause (slot_at (state_from words.old floats.old) clock).clock time).withdrawn) }
{
    let w = CLOCK_WORDS * clock;
    let f = CLOCK_FLOATS * clock;
    pause_rows(
        &mut words[w..w + CLOCK_WORDS],
        &mut floats[f..f + CLOCK_FLOATS],
        time,
    )
}

fn reschedule_rows(
    words: &mut [[u64; 8]],
    floats: &mut [[f64; 8]],
    time: f64,
    censor: Option<f64>,
    index: u64,
) -> QueueChange
    requires { Sized words.old floats.old }
    ensures { Leaves words.old floats.old words.new floats.new
        (scheduling.reschedule (clock_from words.old floats.old) time (censor_from censor) index).clock
        × (change_from result ≡ queue_change (scheduling.reschedule (clock_from words.old floats.old) time (censor_from censor) index)) }
{
    let rows = words.as_mut_array::<CLOCK_WORDS>().unwrap();
    let numbers = floats.as_mut_array::<CLOCK_FLOATS>().unwrap();
    clocks::scheduling::reschedule(rows, numbers, time, censor, index)
}

// reschedule on the rows of a clock; what it asks of the queue.
pub(crate) fn reschedule_in(
    words: &mut [[u64; 8]; STATE_WORDS],
    floats: &mut [[f64; 8]; STATE_FLOATS],
    clock: usize,
    time: f64,
    censor: Option<f64>,
) -> QueueChange
    requires { clock < 16 }
    ensures { LeavesClock words.old floats.old clock words.new floats.new
        (scheduling.reschedule (slot_at (state_from words.old floats.old) clock).clock time (censor_from censor)
        (shared_from words.old).request_count).clock
        × (change_from result
        ≡ queue_change (scheduling.reschedule (slot_at (state_from words.old floats.old) clock).clock time (censor_from censor)
        (shared_from words.old).request_count)) }
{
    let w = CLOCK_WORDS * clock;
    let f = CLOCK_FLOATS * clock;
    let index = words[COUNTS][REQUEST_COUNT];
    reschedule_rows(
        &mut words[w..w + CLOCK_WORDS],
        &mut floats[f..f + CLOCK_FLOATS],
        time,
        censor,
        index,
    )
}

fn resume_rows(
    words: &mut [[u64; 8]],
    floats: &mut [[f64; 8]],
    time: f64,
    censor: Option<f64>,
    index: u64,
) -> QueueChange
    requires { Sized words.old floats.old }
    ensures { Leaves words.old floats.old words.new floats.new
        (scheduling.resume (clock_from words.old floats.old) time (censor_from censor) index).clock
        × (change_from result ≡ queue_change (scheduling.resume (clock_from words.old floats.old) time (censor_from censor) index)) }
{
    let rows = words.as_mut_array::<CLOCK_WORDS>().unwrap();
    let numbers = floats.as_mut_array::<CLOCK_FLOATS>().unwrap();
    clocks::scheduling::resume(rows, numbers, time, censor, index)
}

// resume on the rows of a clock; what it asks of the queue.
pub(crate) fn resume_in(
    words: &mut [[u64; 8]; STATE_WORDS],
    floats: &mut [[f64; 8]; STATE_FLOATS],
    clock: usize,
    time: f64,
    censor: Option<f64>,
) -> QueueChange
    requires { clock < 16 }
    ensures { LeavesClock words.old floats.old clock words.new floats.new
        (scheduling.resume (slot_at (state_from words.old floats.old) clock).clock time (censor_from censor)
        (shared_from words.old).request_count).clock
        × (change_from result
        ≡ queue_change (scheduling.resume (slot_at (state_from words.old floats.old) clock).clock time (censor_from censor)
        (shared_from words.old).request_count)) }
{
    let w = CLOCK_WORDS * clock;
    let f = CLOCK_FLOATS * clock;
    let index = words[COUNTS][REQUEST_COUNT];
    resume_rows(
        &mut words[w..w + CLOCK_WORDS],
        &mut floats[f..f + CLOCK_FLOATS],
        time,
        censor,
        index,
    )
}

fn dispatch_rows(words: &mut [[u64; 8]], floats: &mut [[f64; 8]]) -> Option<RealizedEvent>
    requires { Sized words.old floats.old }
    ensures { Leaves words.old floats.old words.new floats.new
        (scheduling.on_event_dispatched (clock_from words.old floats.old)).clock
        × (event_from result ≡ (scheduling.on_event_dispatched (clock_from words.old floats.old)).event) }
{
    let rows = words.as_mut_array::<CLOCK_WORDS>().unwrap();
    let numbers = floats.as_mut_array::<CLOCK_FLOATS>().unwrap();
    clocks::scheduling::on_event_dispatched(rows, numbers)
}

// on_event_dispatched on the rows of a clock.
pub(crate) fn dispatch_in(
    words: &mut [[u64; 8]; STATE_WORDS],
    floats: &mut [[f64; 8]; STATE_FLOATS],
    clock: usize,
) -> Option<RealizedEvent>
    requires { clock < 16 }
    ensures { LeavesClock words.old floats.old clock words.new floats.new
        (scheduling.on_event_dispatched (slot_at (state_from words.old floats.old) clock).clock).clock
        × (event_from result ≡ (scheduling.on_event_dispatched (slot_at (state_from words.old floats.old) clock).clock).event) }
{
    let w = CLOCK_WORDS * clock;
    let f = CLOCK_FLOATS * clock;
    dispatch_rows(
        &mut words[w..w + CLOCK_WORDS],
        &mut floats[f..f + CLOCK_FLOATS],
    )
}
