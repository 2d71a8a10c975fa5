// One command of each kind on clock 0, in an order in which each is accepted, as the 252 bytes that they fill in the journal.
use engine::commands::{CREATE, DELIVER, PAUSE, REMOVE, RESCHEDULE, RESUME, SET};
use hazards::fields::{put_f64, put_u8};

// Where each command begins.
pub const PLACES: [usize; 7] = [0, 33, 189, 212, 213, 223, 229];

// One threshold, 2.0.
pub fn stream() -> [u8; 8] {
    let mut bytes = [0u8; 8];
    put_f64(&mut bytes, 0, 2.0);
    bytes
}

// CREATE; SET of cause 1, Constant 0.5; RESCHEDULE; DELIVER; PAUSE at 5; REMOVE of cause 1; RESUME.
pub fn commands() -> [u8; 252] {
    let mut bytes = [0u8; 252];
    put_u8(&mut bytes, 0, CREATE);
    put_f64(&mut bytes, 12, 10.0);
    put_u8(&mut bytes, 33, SET);
    put_u8(&mut bytes, 35, 1);
    put_u8(&mut bytes, 43, 1);
    put_f64(&mut bytes, 44, 0.5);
    put_u8(&mut bytes, 189, RESCHEDULE);
    put_u8(&mut bytes, 212, DELIVER);
    put_u8(&mut bytes, 213, PAUSE);
    put_f64(&mut bytes, 215, 5.0);
    put_u8(&mut bytes, 223, REMOVE);
    put_u8(&mut bytes, 225, 1);
    put_u8(&mut bytes, 229, RESUME);
    bytes
}
