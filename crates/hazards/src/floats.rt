// The tests on one float, and the floats that they are told by.
ghost use Rattle.std.specs.Prelude.{◌≡◌};
ghost use Rattle.hazards.specs.Floats.{not_below_zero, zero_bits, in_range, is_time, is_threshold, is_finite_wait};

// 2^40: the largest time, and the largest size of a rate or scale.
pub const LIMIT: f64 = 1099511627776.0;

// 2^-40: the smallest scale above 0, and the shortest wait that a rate is found for.
pub const INVERSE_LIMIT: f64 = 0.0000000000009094947017729282379150390625;

// The largest threshold.
pub const MOST_THRESHOLD: f64 = 1024.0;

// Kept: the definition Floats.not_below_zero gives +0.0 for -0.0 too, where x.max(0.0) may give either.
pub fn not_below_zero(x: f64) -> f64
    ensures { result ≡ not_below_zero x }
{
    if x > 0.0 { x } else { 0.0 }
}

// All bits zero.
pub fn zero_bits(x: f64) -> bool
    ensures { result ≡ zero_bits x }
{
    !x.is_nan() && f64::to_bits(x) == 0
}

// Finite and of size at most 2^40.
pub fn in_range(x: f64) -> bool
    ensures { result ≡ in_range x }
{
    x >= -LIMIT && x <= LIMIT
}

// Sign bit clear and at most 2^40.
pub fn is_time(x: f64) -> bool
    ensures { result ≡ is_time x }
{
    x <= LIMIT && f64::to_bits(x) < 0x8000_0000_0000_0000
}

// Finite, not below 0 and not above 1,024.
pub fn is_threshold(x: f64) -> bool
    ensures { result ≡ is_threshold x }
{
    x >= 0.0 && x <= MOST_THRESHOLD
}

// At least 0 and not infinite: an infinite wait is no candidate.
pub fn is_finite_wait(x: f64) -> bool
    ensures { result ≡ is_finite_wait x }
{
    x >= 0.0 && x < f64::INFINITY
}
