// Whether two states are the same in every number, used or not; floats by their bits, with all NaNs alike (document 01, refusal 13).
ghost use Rattle.std.specs.Prelude.{◌≡◌, length};
ghost use Rattle.engine.specs.Comparison.{same_float, same_state};
ghost use Rattle.engine.specs.StateRows.{state_from, SizedState, CodedState};
ghost use Rattle.engine.specs.ComparisonInternals.{same_float_row, same_word_rows, same_float_rows};

use crate::state_rows::{STATE_FLOATS, STATE_WORDS};

pub(crate) fn same_float(a: f64, b: f64) -> bool
    ensures { result ≡ same_float a b }
{
    if a.is_nan() {
        return b.is_nan();
    }
    if b.is_nan() {
        return false;
    }
    a.to_bits() == b.to_bits()
}

fn same_words(a: &[[u64; 8]], b: &[[u64; 8]]) -> bool
    requires { length a.now ≡ length b.now }
    ensures { result ≡ same_word_rows a.now b.now }
{
    a == b
}

fn same_float_row(a: &[f64; 8], b: &[f64; 8]) -> bool
    ensures { result ≡ same_float_row a.now b.now }
{
    a.iter().zip(b).all(|(x, y)| same_float(*x, *y))
}

fn same_floats(a: &[[f64; 8]], b: &[[f64; 8]]) -> bool
    requires { length a.now ≡ length b.now }
    ensures { result ≡ same_float_rows a.now b.now }
{
    a.iter().zip(b).all(|(x, y)| same_float_row(x, y))
}

// Coded rows are the same in every number exactly where what they are read as is the same in every field.
pub(crate) fn same_state(
    a: &[[u64; 8]; STATE_WORDS],
    a_floats: &[[f64; 8]; STATE_FLOATS],
    b: &[[u64; 8]; STATE_WORDS],
    b_floats: &[[f64; 8]; STATE_FLOATS],
) -> bool
    requires { CodedState a.now a_floats.now × CodedState b.now b_floats.now }
    ensures { result ≡ same_state (state_from a.now a_floats.now)
        (state_from b.now b_floats.now) }
{
    let words = same_words(a, b);
    let floats = same_floats(a_floats, b_floats);
    words & floats
}
