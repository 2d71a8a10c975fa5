// Candidates and which of them comes first.
ghost use Rattle.std.specs.Prelude.{◌≡◌};
ghost use Rattle.hazards.specs.Lists.{foldl};
ghost use Rattle.hazards.specs.Ties.{capped_piece, tie_breaker_of, tie_number, preferred, precedes, earlier, candidate_after};

use crate::floats::is_finite_wait;
use crate::rates::Wait;

// Which of two causes at the same time comes first.
#[derive(Clone, Copy, Debug, PartialEq, Eq)]
pub enum TieBreaker {
    LowestCauseId = 0,
    HighestCauseId = 1,
    ExplicitPriority = 2,
}

// A cause's event at a time (its wait in the sampler, now + wait in the clock), and the piece of its rate curve that strikes.
#[derive(Clone, Copy)]
pub struct Candidate {
    pub cause_id: u32,
    pub priority: u32,
    pub time: f64,
    pub piece: u8,
}

// A piece as an answer has it: 255 stands for a higher one.
pub fn capped_piece(piece: usize) -> u8
    ensures { result ≡ capped_piece piece }
{
    piece.min(255) as u8
}

impl From<u8> for TieBreaker {
    ghost from_gives = { λ tie choice. choice ≡ tie_breaker_of tie };

    // The tie choice of a number; one above 2 is refused by 4 before this is asked.
    fn from(tie: u8) -> TieBreaker {
        match tie {
            0 => TieBreaker::LowestCauseId,
            1 => TieBreaker::HighestCauseId,
            _ => TieBreaker::ExplicitPriority,
        }
    }
}

impl From<TieBreaker> for u8 {
    ghost from_gives = { λ choice tie. tie ≡ tie_number choice };

    // Document 01's number of a tie choice.
    fn from(choice: TieBreaker) -> u8 {
        choice as u8
    }
}

// The higher number first, then the lower id.
fn explicitly_preferred(a: Candidate, b: Candidate) -> bool
    ensures { result ≡ preferred TieBreaker.ExplicitPriority a b }
{
    b.priority
        .cmp(&a.priority)
        .then(a.cause_id.cmp(&b.cause_id))
        .is_lt()
}

fn preferred(tie: TieBreaker, a: Candidate, b: Candidate) -> bool
    ensures { result ≡ preferred tie a b }
{
    match tie {
        TieBreaker::LowestCauseId => a.cause_id < b.cause_id,
        TieBreaker::HighestCauseId => b.cause_id < a.cause_id,
        TieBreaker::ExplicitPriority => explicitly_preferred(a, b),
    }
}

fn precedes(tie: TieBreaker, a: Candidate, b: Candidate) -> bool
    ensures { result ≡ precedes tie a b }
{
    if a.time < b.time {
        return true;
    }
    if b.time < a.time {
        return false;
    }
    preferred(tie, a, b)
}

// The better of what was found and the next candidate; on a full tie what was found.
pub fn earlier(best: Option<Candidate>, tie: TieBreaker, next: Candidate) -> Option<Candidate>
    ensures { result ≡ earlier tie best next }
{
    match best {
        None => Some(next),
        Some(found) => {
            if precedes(tie, next, found) {
                Some(next)
            } else {
                best
            }
        }
    }
}

// The better of what was found and a cause's event at a time worked out from its wait; a wait that is not finite gives none.
pub fn with_candidate(
    best: Option<Candidate>,
    tie: TieBreaker,
    cause_id: u32,
    priority: u32,
    wait: Wait,
    time: f64,
) -> Option<Candidate>
    ensures { result ≡ foldl (earlier tie) best (candidate_after cause_id priority (λ dt. time) (Some wait)) }
{
    if !is_finite_wait(wait.time) {
        return best;
    }
    let next = Candidate {
        cause_id,
        priority,
        time,
        piece: capped_piece(wait.piece),
    };
    earlier(best, tie, next)
}
