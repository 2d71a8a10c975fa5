// A list's bytes, case by case.
ghost use Rattle.std.specs.Prelude.{◌^◌, ◌≤◌, ◌<◌, ◌≢◌, IfOk, IfErr, IfSome, IfNone, length, take};
ghost use Rattle.std.specs.Io.{ReadsAtMost};
ghost use Rattle.std.specs.Io.KnownBytes.{Consumes, IsAtEnd, ReadConsumes};
ghost use Rattle.std.specs.IoError.{error_kind};
ghost use Rattle.answer_lists.specs.Lists.{ConsumesFewer, Replays};

use crate::count::Count;
use std::io;
use std::io::{ErrorKind, Read};

// No list is read further than so many cases.
pub const MOST_CASES: u64 = 1000000;

// One read, tried again where a signal interrupts it.
fn read_some<R: Read>(list: &mut R, bytes: &mut [u8]) -> io::Result<usize>
    ensures bound { ReadsAtMost result bytes.new }
    ensures bytes { ReadConsumes (R.remaining list.old) (R.remaining list.new) result bytes.new }
    ensures retried { IfErr result (λ e. error_kind e ≢ ErrorKind.Interrupted) }
{
    for _ in 0..u64::MAX {
        match list.read(bytes) {
            Ok(count) => return Ok(count),
            Err(e) if e.kind() != ErrorKind::Interrupted => return Err(e),
            Err(_) => {}
        }
    }
    Err(io::Error::from(ErrorKind::TimedOut))
}

// Reads until the bytes are full or the list ends, and tells how many were read.
pub fn read_full<R: Read>(list: &mut R, bytes: &mut [u8]) -> io::Result<usize>
    ensures within { IfOk result (λ count. count ≤ length bytes.new) }
    ensures read { IfOk result
        (λ count. Consumes (R.remaining list.old) (R.remaining list.new) (take count bytes.new)) }
    ensures end { IfOk result (λ count. count < length bytes.new → IsAtEnd (R.remaining list.new)) }
    ensures retried { IfErr result (λ e. error_kind e ≢ ErrorKind.Interrupted) }
{
    let mut done = 0;
    for _ in 0..bytes.len() {
        if done == bytes.len() {
            break;
        }
        let count = read_some(list, &mut bytes[done..])?;
        if count == 0 {
            break;
        }
        done += count;
    }
    Ok(done)
}

// The list's next case; none where what is left of it is shorter than a case.
pub fn read_case<const N: usize, R: Read>(list: &mut R) -> io::Result<Option<[u8; N]>>
    requires { N < 2 ^ 63 }
    ensures case { IfOk result (λ case. IfSome case
        (λ bytes. Consumes (R.remaining list.old) (R.remaining list.new) bytes)) }
    ensures end { IfOk result (λ case. IfNone case
        (ConsumesFewer (R.remaining list.old) (R.remaining list.new) N)) }
{
    let mut case = [0; N];
    let count = read_full(list, &mut case)?;
    Ok(if count == N { Some(case) } else { None })
}

// Counts the list's whole cases, and those of them that do not agree.
pub fn replay<const N: usize, R: Read, F: FnMut(&[u8]) -> bool>(
    list: &mut R,
    mut agrees: F,
) -> io::Result<Count>
    requires fits { N < 2 ^ 63 }
    requires callable { F.IsAlwaysCallable agrees }
    ensures { IfOk result (λ count. Replays F.FnMut N 1000000 agrees
        (R.remaining list.old) (R.remaining list.new) count) }
{
    let mut count = Count::default();
    for _ in 0..MOST_CASES {
        let Some(case) = read_case::<N, _>(list)? else {
            break;
        };
        count = count.with(agrees(&case));
    }
    Ok(count)
}
