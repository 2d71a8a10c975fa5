// A delivery from before change 2 of document 02, when of two events at one tick the lower priority number came first.
use crate::changes::Change::Word;
use crate::lent::Lent;
use engine::commands::{CREATE, DELIVER, RESCHEDULE};
use engine::state_rows::{REQUEST_PRIORITY, REQUESTS};
use hazards::fields::{put_f64, put_u8};

// CREATE of clocks 0 and 1.
fn put_clocks(bytes: &mut [u8]) {
    put_u8(bytes, 0, CREATE);
    put_f64(bytes, 12, 1.0);
    put_u8(bytes, 33, CREATE);
    put_u8(bytes, 34, 1);
    put_f64(bytes, 45, 1.0);
}

// RESCHEDULE of each at 0, with the censor time 4 and a priority: both events are due at tick 4.
fn put_requests(bytes: &mut [u8], first: u8, second: u8) {
    put_u8(bytes, 66, RESCHEDULE);
    put_u8(bytes, 76, 1);
    put_f64(bytes, 77, 4.0);
    put_u8(bytes, 85, first);
    put_u8(bytes, 89, RESCHEDULE);
    put_u8(bytes, 90, 1);
    put_u8(bytes, 99, 1);
    put_f64(bytes, 100, 4.0);
    put_u8(bytes, 108, second);
}

// These and DELIVER: 113 bytes. By today's rule the event of clock 0 is delivered, whose priority is the higher one.
pub fn played() -> Lent {
    let mut journal = [0; 400];
    put_clocks(&mut journal);
    put_requests(&mut journal, 1, 0);
    put_u8(&mut journal, 112, DELIVER);
    Lent::after(journal, b"", 5)
}

// The same with the two priorities the other way round: the older rule delivered the event of clock 0, today's does not.
pub fn tampered() -> Lent {
    let mut lent = played();
    put_requests(&mut lent.journal, 0, 1);
    lent.change(Word(REQUESTS, REQUEST_PRIORITY, 1));
    lent
}
