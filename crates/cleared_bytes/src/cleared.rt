// Every length from 0 to 17 from each of eight places on, between bytes that stay: as the front of all that is behind the place, and as
// a part that is shorter than the count.
ghost use Rattle.std.specs.Prelude.{◌≤◌};

use answer_lists::count::Count;
use engine::journal::clear;
use std::io;

// The bytes 1 to 32, but for zero from one place up to another.
fn bytes_but(from: usize, to: usize) -> [u8; 32] {
    let mut bytes = [0u8; 32];
    for (i, byte) in bytes.iter_mut().enumerate() {
        if i < from || to <= i {
            *byte = i as u8 + 1;
        }
    }
    bytes
}

// So many bytes from a place on, as the front of all that is behind it.
fn clear_front(bytes: &mut [u8], place: usize, length: usize) {
    if let Some(behind) = bytes.get_mut(place..) {
        clear(behind, length);
    }
}

// The bytes from one place up to another, as a part of their own; the count is above every length.
fn clear_part(bytes: &mut [u8], from: usize, to: usize) {
    if let Some(part) = bytes.get_mut(from..to) {
        clear(part, 18);
    }
}

fn try_both_ways(rt: &impl Print, place: usize, length: usize, count: Count) -> io::Result<Count>
    requires { (place ≤ 7) × (length ≤ 17) }
{
    let end = place + length;
    let due = bytes_but(place, end);
    let mut front = bytes_but(0, 0);
    clear_front(&mut front, place, length);
    let mut part = bytes_but(0, 0);
    clear_part(&mut part, place, end);
    if front != due || part != due {
        crate::report::print_part(rt, place as u64, length as u64)?;
    }
    Ok(count.with(front == due).with(part == due))
}

fn try_lengths(rt: &impl Print, place: usize, count: Count) -> io::Result<Count>
    requires { place ≤ 7 }
{
    let mut after = count;
    for length in 0..18 {
        after = try_both_ways(rt, place, length, after)?;
    }
    Ok(after)
}

pub fn try_all(rt: &impl Print) -> io::Result<Count> {
    let mut count = Count::default();
    for place in 0..8 {
        count = try_lengths(rt, place, count)?;
    }
    Ok(count)
}
