// The steps of a clock in its rows, each decoded from its command's bytes.
ghost use Rattle.std.specs.Prelude.{◌≡◌};
ghost use Rattle.clocks.specs.RowsInternals.{channel_drawn};

use clocks::clocks::{EntityId, HazardInterruptionPolicy};
use clocks::layout::{CLOCK_FLOATS, CLOCK_WORDS, ClockFloats, ClockWords};
use clocks::scheduling::{QueueChange, RealizedEvent};
use clocks::setting::set_channel;
use clocks::ticks::Ticks;
use engine::commands::{
    CAUSE_FIELD, Command, ENTITY_INDEX_FIELD, GENERATION_FIELD, HAS_ENTITY_FIELD, NOW_FIELD,
    POLICY_FIELD, PROCESS_FIELD, SCALE_FIELD, TIE_FIELD, censor_time, set_command,
};
use hazards::answers::{Answer, event_of, no_event};
use hazards::fields::{f64_at, u8_at, u32_at, u64_at};
use hazards::refusals::Refusal;
use hazards::ties::TieBreaker;

// Where a step's requests so far and its draw position stand.
const REQUESTS_FIELD: usize = 156;

const POSITION_FIELD: usize = 164;

// A clock's rows, and the ticks of its pending request.
#[derive(Drop)]
pub struct Clock {
    pub words: ClockWords,
    pub floats: ClockFloats,
    ticks: Ticks,
}

// The answer of a step, and the draw position after it.
#[derive(Clone, Copy)]
pub struct Played {
    pub answer: Answer,
    pub position: usize,
}

// The number of a SET's draw, and the position after it: a refusal leaves it.
fn number_and_position(position: usize, drawn: Result<usize, Refusal>) -> (u8, usize)
    ensures { result
        ≡ ((channel_drawn position drawn).number, (channel_drawn position drawn).position) }
{
    match drawn {
        Ok(next) => (0, next),
        Err(refusal) => (refusal.number(), position),
    }
}

impl Clock {
    pub fn new() -> Clock {
        Clock {
            words: [[0; 8]; CLOCK_WORDS],
            floats: [[0.0; 8]; CLOCK_FLOATS],
            ticks: Ticks { low: 0, high: 0 },
        }
    }

    // What was realized and what was withdrawn, at the ticks of the request.
    fn answer_of(&self, event: Option<RealizedEvent>, withdrawn: bool) -> Answer {
        let answer = match event {
            Some(e) => event_of(e.winning_cause, e.delta_time, e.is_censored, e.piece),
            None => no_event(0),
        };
        Answer {
            withdrawn,
            ticks_low: self.ticks.low,
            ticks_high: self.ticks.high,
            ..answer
        }
    }

    fn create(&mut self, case: &[u8]) -> Answer {
        let entity = EntityId {
            index: u64_at(case, ENTITY_INDEX_FIELD),
            generation: u32_at(case, GENERATION_FIELD),
        };
        clocks::clocks::create(
            &mut self.words,
            &mut self.floats,
            u64_at(case, PROCESS_FIELD),
            (u8_at(case, HAS_ENTITY_FIELD) == 1).then_some(entity),
            HazardInterruptionPolicy::from(u8_at(case, POLICY_FIELD)),
            TieBreaker::from(u8_at(case, TIE_FIELD)),
            f64_at(case, SCALE_FIELD),
        );
        no_event(0)
    }

    fn remove(&mut self, case: &[u8]) -> Answer {
        let cause = u32_at(case, CAUSE_FIELD);
        clocks::clocks::remove_channel(&mut self.words, &mut self.floats, cause);
        no_event(0)
    }

    fn set(&mut self, case: &[u8], stream: &[u8], position: usize) -> Played {
        let setting = set_command(case).setting;
        let drawn = set_channel(&mut self.words, &mut self.floats, setting, stream, position);
        let (number, position) = number_and_position(position, drawn);
        Played {
            answer: no_event(number),
            position,
        }
    }

    // A request's ticks are kept for its delivery.
    fn requested(&mut self, change: QueueChange) -> Answer {
        self.ticks = change.ticks;
        self.answer_of(change.event, change.withdrawn.present)
    }

    // Kept: two calls of two methods; the step after them is `requested`.
    fn reschedule(&mut self, case: &[u8], now: f64, index: u64) -> Answer {
        let change = clocks::scheduling::reschedule(
            &mut self.words,
            &mut self.floats,
            now,
            censor_time(case),
            index,
        );
        self.requested(change)
    }

    fn resume(&mut self, case: &[u8], now: f64, index: u64) -> Answer {
        let change = clocks::scheduling::resume(
            &mut self.words,
            &mut self.floats,
            now,
            censor_time(case),
            index,
        );
        self.requested(change)
    }

    fn pause(&mut self, now: f64) -> Answer {
        let withdrawn = clocks::scheduling::pause(&mut self.words, &mut self.floats, now);
        Answer {
            withdrawn: withdrawn.present,
            ..no_event(0)
        }
    }

    fn deliver(&mut self) -> Answer {
        let event = clocks::scheduling::on_event_dispatched(&mut self.words, &mut self.floats);
        self.answer_of(event, false)
    }

    // A step that draws no threshold.
    fn answer(&mut self, case: &[u8]) -> Answer {
        let index = u64_at(case, REQUESTS_FIELD);
        let now = f64_at(case, NOW_FIELD);
        let code = u8_at(case, 0);
        match Command::try_from(code) {
            Ok(Command::Create) => self.create(case),
            Ok(Command::Remove) => self.remove(case),
            Ok(Command::Reschedule) => self.reschedule(case, now, index),
            Ok(Command::Resume) => self.resume(case, now, index),
            Ok(Command::Pause) => self.pause(now),
            // Of codes that are no step's, 0 counts as REMOVE and the others as DELIVER.
            Err(_) if code == 0 => self.remove(case),
            _ => self.deliver(),
        }
    }

    pub fn play(&mut self, case: &[u8], stream: &[u8]) -> Played {
        let position = u64_at(case, POSITION_FIELD) as usize;
        if u8_at(case, 0) == u8::from(Command::Set) {
            return self.set(case, stream, position);
        }
        Played {
            answer: self.answer(case),
            position,
        }
    }
}
