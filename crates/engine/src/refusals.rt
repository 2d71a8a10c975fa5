// How the outcome of a command is answered.
ghost use Rattle.std.specs.Prelude.{◌≡◌};
ghost use Rattle.engine.specs.Refusals.{answer_from};

use hazards::answers::{Answer, no_event};
use hazards::refusals::Refusal;

// A refusal is answered by its number, and zero elsewhere.
pub(crate) fn answer_from(outcome: Result<Answer, Refusal>) -> Answer
    ensures { result ≡ answer_from outcome }
{
    match outcome {
        Ok(answer) => answer,
        Err(refusal) => no_event(refusal.number()),
    }
}
