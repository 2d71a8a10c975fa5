// A session of one press, whose clock lies in rows of this program: two causes of breakdown, a pause and what it does to the breakdown
// that is due. Times are in hours, ticks in tenths. The thresholds are those of rows 9 and 10 of document 01, 2.0 and 1.0.
#![tactic(auto)]

use clocks::channels::empty_intervals;
use clocks::clocks::{HazardInterruptionPolicy, create};
use clocks::layout::{CLOCK_FLOATS, CLOCK_WORDS, ClockFloats, ClockWords};
use clocks::scheduling::{QueueChange, pause, reschedule, resume};
use clocks::setting::{CauseSetting, set_channel};
use hazards::rates::HazardRate;
use hazards::ties::TieBreaker;
use std::io;

// The press's clock, and how many thresholds it has drawn.
#[derive(Drop)]
struct Press {
    words: ClockWords,
    floats: ClockFloats,
    drawn: usize,
}

// A cause with a constant rate.
fn constant(cause_id: u32, rate: f64, now: f64) -> CauseSetting {
    CauseSetting {
        cause_id,
        priority: 0,
        hazard: HazardRate::Constant(rate),
        intervals: empty_intervals(),
        now,
    }
}

fn tell(rt: &impl Print, what: &str, asked: QueueChange) -> io::Result<()> {
    let cause = asked.event.map_or(0, |event| event.winning_cause);
    println!(rt;
        "{what}breakdown by cause {cause} at tick {}",
        asked.ticks.low
    )
}

impl Press {
    fn new() -> Press {
        let mut words = [[0; 8]; CLOCK_WORDS];
        let mut floats = [[0.0; 8]; CLOCK_FLOATS];
        create(
            &mut words,
            &mut floats,
            7,
            None,
            HazardInterruptionPolicy::RetainResidual,
            TieBreaker::LowestCauseId,
            10.0,
        );
        Press {
            words,
            floats,
            drawn: 0,
        }
    }

    // A new cause draws a threshold of the stream; a stream at its end is refused, and the cause is not set.
    fn set(&mut self, setting: CauseSetting, stream: &[u8]) {
        if let Ok(drawn) = set_channel(
            &mut self.words,
            &mut self.floats,
            setting,
            stream,
            self.drawn,
        ) {
            self.drawn = drawn;
        }
    }

    fn start(&mut self, rt: &impl Print, stream: &[u8]) -> io::Result<()> {
        self.set(constant(1, 0.5, 0.0), stream);
        println!(rt;
            "hour 0: cause 1 set at rate 0.5; thresholds drawn: {}",
            self.drawn
        )?;
        let asked = reschedule(&mut self.words, &mut self.floats, 0.0, None, 0);
        tell(rt, "hour 0: ", asked)
    }

    fn pause_and_resume(&mut self, rt: &impl Print) -> io::Result<()> {
        let withdrawn = pause(&mut self.words, &mut self.floats, 1.0);
        println!(rt; "hour 1: paused; withdrawn request: {}", withdrawn.index)?;
        let asked = resume(&mut self.words, &mut self.floats, 3.0, None, 1);
        tell(rt, "hour 3: resumed; ", asked)
    }

    fn add_cause(&mut self, rt: &impl Print, stream: &[u8]) -> io::Result<()> {
        self.set(constant(2, 1.0, 3.0), stream);
        println!(rt;
            "hour 3: cause 2 set at rate 1; thresholds drawn: {}",
            self.drawn
        )?;
        let asked = reschedule(&mut self.words, &mut self.floats, 3.0, None, 2);
        tell(rt, "hour 3: ", asked)
    }
}

fn main(rt: HostRuntime) -> io::Result<()> {
    let mut stream = [0u8; 16];
    hazards::fields::put_f64(&mut stream, 0, 2.0);
    hazards::fields::put_f64(&mut stream, 8, 1.0);
    let mut press = Press::new();
    press.start(&rt, &stream)?;
    press.pause_and_resume(&rt)?;
    press.add_cause(&rt, &stream)
}
