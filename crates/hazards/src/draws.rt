// Draws from the recorded threshold stream: lent bytes, each whole 8 of them one f64.
ghost use Rattle.std.specs.Prelude.{◌≡◌};
ghost use Rattle.hazards.specs.Draws.{draw_of, draw_and_position, draw_at, with_position};

use crate::refusals::Refusal;

// Where the next draw reads.
#[derive(Clone, Copy)]
pub struct StreamPosition {
    pub next: usize,
}

// A threshold that was drawn, and the position after it.
#[derive(Clone, Copy)]
pub struct Drawn {
    pub threshold: f64,
    pub position: StreamPosition,
}

// The draw at a position: what it reads, and the position after it; a refused draw leaves the position.
pub(crate) fn draw_at(stream: &[u8], position: usize) -> Result<Drawn, Refusal>
    ensures { draw_and_position position result ≡ draw_at stream.now position }
{
    let length = stream.len() / 8;
    if position > length {
        return Err(Refusal::InvalidState);
    }
    if position == length {
        return Err(Refusal::StreamExhausted);
    }
    let threshold = crate::fields::f64_at(stream, 8 * position);
    if !crate::floats::is_threshold(threshold) {
        return Err(Refusal::BadThreshold);
    }
    Ok(Drawn {
        threshold,
        position: StreamPosition { next: position + 1 },
    })
}

// draw_standard_threshold of competing_risks.rs: the position is lent, and moves past what was drawn; a refused draw leaves it.
pub fn draw_standard_threshold<'s, 'p>(
    stream: &'s [u8],
    position: &'p mut StreamPosition,
) -> Result<f64, Refusal>
    ensures { with_position (draw_of result) position.new ≡ draw_at stream.now position.old.next }
{
    let drawn = draw_at(stream, position.next)?;
    *position = drawn.position;
    Ok(drawn.threshold)
}

// The same with a position by value, for callers that lend none: it is lent from here, and given back with the draw. After a refused
// draw the caller's position still holds.
pub fn draw_from(stream: &[u8], position: StreamPosition) -> Result<Drawn, Refusal>
    ensures { draw_and_position position.next result ≡ draw_at stream.now position.next }
{
    let mut lent = position;
    let threshold = draw_standard_threshold(stream, &mut lent)?;
    Ok(Drawn {
        threshold,
        position: lent,
    })
}
