// The queue of requests in the state's words: the order of two, the earliest, whether one is there, and one put in or taken out in place.
ghost use Rattle.std.specs.Prelude.{◌≡◌, [], ◌≤◌, min, ◌<◌, ◌^◌, ltb, get_or, length, take};
ghost use Rattle.std.proofs.Math.Option.{some};
ghost use Rattle.engine.specs.Queue.{comes_first, earlier_of, next_request, is_queued, without};
ghost use Rattle.engine.specs.State.{empty_request, queued_requests, with_counts, with_queue, with_request};
ghost use Rattle.engine.specs.QueueInternals.{pick_of, MovedUp, ClearedFrom};
ghost use Rattle.engine.specs.StateRows.{queue_from, shared_from, LeavesShared};

use crate::state::{Counts, Request};
use crate::state_rows::{
    COUNTS, PLACES, QUEUED, REQUEST_INDEX, REQUESTS, STATE_WORDS, counts_in, request_at,
    request_row,
};
use clocks::ticks::Ticks;
use std::cmp::Reverse;

// What an unused place holds.
pub fn empty_request() -> Request
    ensures { result ≡ empty_request }
{
    Request {
        clock: 0,
        ticks: Ticks { low: 0, high: 0 },
        priority: 0,
        index: 0,
    }
}

// Fewest ticks, then higher priority number, then lower index.
pub fn comes_first(a: Request, b: Request) -> bool
    ensures { result ≡ comes_first a b }
{
    (a.ticks.high, a.ticks.low, Reverse(a.priority), a.index)
        < (b.ticks.high, b.ticks.low, Reverse(b.priority), b.index)
}

// The earlier of a request and the best of others, where there is one.
pub(crate) fn earlier_of(a: Request, best: Option<Request>) -> Option<Request>
    ensures { pick_of result ≡ earlier_of (some a) (pick_of best) }
{
    match best {
        Some(b) if comes_first(b, a) => Some(b),
        _ => Some(a),
    }
}

// Of the sixteen places those that are in use.
fn used_places(words: &[[u64; 8]; STATE_WORDS]) -> usize
    ensures { result ≡ min (get_or (get_or words.now 160 []) 0 0) 16 }
{
    PLACES.min(words[COUNTS][QUEUED] as usize)
}

// The request that DELIVER takes: from the last to the first, the earlier one kept.
pub fn next_request(words: &[[u64; 8]; STATE_WORDS]) -> Option<Request>
    ensures { pick_of result ≡ next_request (queued_requests (shared_from words.now)) }
{
    let used = used_places(words);
    let mut best = None;
    for i in (0..used).rev() {
        best = earlier_of(request_at(words, i), best);
    }
    best
}

// Whether an index is that of one of the first n requests.
pub(crate) fn is_among(words: &[[u64; 8]; STATE_WORDS], n: usize, index: u64) -> bool
    requires { n ≤ 16 }
    ensures { result ≡ is_queued index (take n (queue_from words.now)) }
{
    words[REQUESTS..REQUESTS + n]
        .iter()
        .any(|row| row[REQUEST_INDEX] == index)
}

// Whether a request with this index is queued.
pub fn is_queued(words: &[[u64; 8]; STATE_WORDS], index: u64) -> bool
    ensures { result ≡ is_queued index (queued_requests (shared_from words.now)) }
{
    let used = used_places(words);
    is_among(words, used, index)
}

// The counts stored; the spare places stay as they were.
pub(crate) fn put_counts(words: &mut [[u64; 8]; STATE_WORDS], counts: Counts)
    ensures { LeavesShared words.old words.new (with_counts (shared_from words.old) counts) }
{
    let row = words[COUNTS];
    words[COUNTS] = [
        counts.queued as u64,
        counts.request_count,
        counts.position as u64,
        counts.applied_length as u64,
        row[4],
        row[5],
        row[6],
        row[7],
    ];
}

// The requests but those with an index moved to the first places, in their order; how many they are. What is left in the places after
// them is not said.
fn move_up(words: &mut [[u64; 8]; STATE_WORDS], index: u64) -> usize
    ensures { MovedUp words.old words.new
        (without index (queued_requests (shared_from words.old))) result }
{
    let used = used_places(words);
    let mut kept: usize = 0;
    for i in 0..used {
        let row = words[REQUESTS + i];
        if row[REQUEST_INDEX] != index {
            words[REQUESTS + kept] = row;
            kept += 1;
        }
    }
    kept
}

// The places from one on emptied.
fn clear_from(words: &mut [[u64; 8]; STATE_WORDS], from: usize)
    requires { from ≤ 16 }
    ensures { ClearedFrom words.old words.new from }
{
    words[REQUESTS + from..REQUESTS + PLACES].fill([0; 8]);
}

// The request with an index taken out, and the rest of the places empty.
pub(crate) fn take_out(words: &mut [[u64; 8]; STATE_WORDS], index: u64)
    ensures { LeavesShared words.old words.new
        (with_queue (shared_from words.old) (without index (queued_requests (shared_from words.old)))) }
{
    let kept = move_up(words, index);
    clear_from(words, kept);
    let counts = Counts {
        queued: kept,
        ..counts_in(words)
    };
    put_counts(words, counts);
}

// One request more, which is counted.
pub(crate) fn put_in(words: &mut [[u64; 8]; STATE_WORDS], request: Request)
    requires { ((shared_from words.old).queued ≤ 16) × ((shared_from words.old).request_count < 2 ^ 63) }
    ensures { LeavesShared words.old words.new (with_request (shared_from words.old) request) }
{
    let counts = counts_in(words);
    let at = counts.queued;
    if at < PLACES {
        words[REQUESTS + at] = request_row(request);
    }
    let more = Counts {
        queued: at + 1,
        request_count: counts.request_count + 1,
        ..counts
    };
    put_counts(words, more);
}
