// What is tampered with: the journal with four commands on clock 0, the stream, and the state that commands give.
use crate::lent::Lent;
use engine::commands::{CREATE, RESCHEDULE, SET};
use hazards::fields::{put_f64, put_u8};

// Three thresholds, of which two are drawn.
pub fn stream() -> [u8; 24] {
    let mut bytes = [0u8; 24];
    put_f64(&mut bytes, 0, 2.0);
    put_f64(&mut bytes, 8, 1.0);
    put_f64(&mut bytes, 16, 0.5);
    bytes
}

// CREATE: RetainResidual, lowest cause, scale 10.
fn put_create(bytes: &mut [u8]) {
    put_u8(bytes, 0, CREATE);
    put_u8(bytes, 10, 1);
    put_f64(bytes, 12, 10.0);
}

// SET of cause 1, Constant 0.5.
fn put_constant(bytes: &mut [u8]) {
    put_u8(bytes, 33, SET);
    put_u8(bytes, 35, 1);
    put_u8(bytes, 43, 1);
    put_f64(bytes, 44, 0.5);
}

// SET of cause 2: pairs (2, 1.0) and (5, 0.0), trailing 0.5.
fn put_piecewise(bytes: &mut [u8]) {
    put_u8(bytes, 189, SET);
    put_u8(bytes, 191, 2);
    put_u8(bytes, 199, 3);
    put_f64(bytes, 200, 0.5);
    put_u8(bytes, 216, 2);
    put_f64(bytes, 217, 2.0);
    put_f64(bytes, 225, 1.0);
    put_f64(bytes, 233, 5.0);
}

// CREATE, two SETs and RESCHEDULE: 368 bytes of the 400, and the state that they give.
pub fn played() -> Lent {
    let mut journal = [0; 400];
    put_create(&mut journal);
    put_constant(&mut journal);
    put_piecewise(&mut journal);
    put_u8(&mut journal, 345, RESCHEDULE);
    Lent::after(journal, &stream(), 4)
}
