// Replays the fixed list of steps of single clocks, with the answer, the draw position and every field of the clock after each as the
// unchanged Rust has them, and says how many steps there are and how many differ. The list's layout, and how it was made, are in
// host/README.md.
#![tactic(auto)]

mod agreement;
mod clock_record;
mod steps;

use answer_lists::count::Count;
use answer_lists::lists::{read_full, replay};
use std::fs::File;
use std::io;
use std::io::Read;

fn replay_steps(list: &mut impl Read, stream: &[u8]) -> io::Result<Count> {
    let mut clock = steps::Clock::new();
    replay::<{ agreement::STEP_WIDTH }, _, _>(list, |case| {
        let played = clock.play(case, stream);
        agreement::agrees(&clock, played, case)
    })
}

fn main(rt: HostRuntime) -> io::Result<()> {
    let mut stream = [0u8; 65536];
    let mut thresholds = File::open(&rt, "clock_stream.bin")?;
    let length = read_full(&mut thresholds, &mut stream)?;
    let mut steps = File::open(&rt, "clock_steps.bin")?;
    let count = replay_steps(&mut steps, &stream[..length])?;
    println!(rt;
        "clock steps: {} steps, {} differ",
        count.cases, count.differing
    )
}
