// Document 01, "Answer": the fields of an answer, which the sampler and every command give, and its bytes. The piece is document 02's.
ghost use Rattle.std.specs.Prelude.{◌≡◌};
ghost use Rattle.hazards.specs.Answers.{no_event, event_of, head_bytes, with_answer};
ghost use Rattle.hazards.specs.Fields.{bytes_of};

// How many bytes an answer has.
pub const ANSWER_WIDTH: usize = 40;

// The answer of a command or a sample.
// Kept: the 40 bytes that the C interface gives are these fields, a number and three flags beside the values.
#[derive(Clone, Copy)]
pub struct Answer {
    pub number: u8,
    pub event: bool,
    pub censored: bool,
    pub withdrawn: bool,
    pub cause: u32,
    pub delta: f64,
    pub ticks_low: u64,
    pub ticks_high: u64,
    pub piece: u8,
}

// No event, or a refusal with its number; zero elsewhere.
pub fn no_event(number: u8) -> Answer
    ensures { result ≡ no_event number }
{
    Answer {
        number,
        event: false,
        censored: false,
        withdrawn: false,
        cause: 0,
        delta: 0.0,
        ticks_low: 0,
        ticks_high: 0,
        piece: 0,
    }
}

// An event of a cause in a piece of its rate curve, or a censored one of NO_CAUSE in piece 0; withdrawn and ticks zero.
pub fn event_of(cause: u32, delta: f64, censored: bool, piece: u8) -> Answer
    ensures { result ≡ event_of cause delta censored piece }
{
    Answer {
        event: true,
        censored,
        cause,
        delta,
        piece,
        ..no_event(0)
    }
}

// The first four bytes, as one word.
fn head_word(answer: Answer) -> u32
    ensures { bytes_of 4 result ≡ head_bytes answer }
{
    u32::from_le_bytes([
        answer.number,
        u8::from(answer.event),
        u8::from(answer.censored),
        u8::from(answer.withdrawn),
    ])
}

// Writes an answer's bytes at a place; one that does not lie whole in the buffer changes nothing.
pub fn put_answer(bytes: &mut [u8], at: usize, answer: Answer)
    ensures { bytes.new ≡ with_answer bytes.old at answer }
{
    if crate::fields::lies_whole(bytes, at, ANSWER_WIDTH) {
        let head = head_word(answer);
        crate::fields::put_u32(bytes, at, head);
        crate::fields::put_u32(bytes, at + 4, answer.cause);
        crate::fields::put_f64(bytes, at + 8, answer.delta);
        crate::fields::put_u64(bytes, at + 16, answer.ticks_low);
        crate::fields::put_u64(bytes, at + 24, answer.ticks_high);
        crate::fields::put_u64(bytes, at + 32, u64::from(answer.piece));
    }
}
