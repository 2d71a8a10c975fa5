// Times in whole ticks, halves away from zero, in two words.
ghost use Rattle.std.specs.Prelude.{◌≡◌, ◌+◌, ◌*◌, ◌^◌, ◌≤◌, ◌<◌};
ghost use Rattle.std.specs.Float.{binary64};
ghost use Rattle.std.specs.Float.Ieee.{of_bits};
ghost use Rattle.clocks.specs.Ticks.{nearest_up, whole_ticks, ticks_of, ticks_at};

// Kept: an answer of the C interface holds two words of 64 bits.
#[derive(Clone, Copy)]
pub struct Ticks {
    pub low: u64,
    pub high: u64,
}

fn power_of_two(k: u64) -> u64
    requires { k < 64 }
    ensures { result ≡ 2 ^ k }
{
    1u64 << k
}

// digits / 2^s, halves up.
fn rounded(digits: u64, s: u64) -> u64
    requires { (digits < 2 ^ 53) × (s ≤ 53) }
    ensures { result ≡ nearest_up digits (2 ^ s) }
{
    let unit = power_of_two(s);
    (2 * digits + unit) / (2 * unit)
}

// digits * 2^e in two words.
fn shifted(digits: u64, e: u64) -> Ticks
    requires { (digits < 2 ^ 53) × (e ≤ 75) }
    ensures { result.low + 2 ^ 64 * result.high ≡ digits * 2 ^ e }
{
    if e <= 11 {
        return Ticks {
            low: digits * power_of_two(e),
            high: 0,
        };
    }
    if e < 64 {
        let unit = power_of_two(64 - e);
        return Ticks {
            low: (digits % unit) * power_of_two(e),
            high: digits / unit,
        };
    }
    Ticks {
        low: 0,
        high: digits * power_of_two(e - 64),
    }
}

// The float of these bits is (2^52 + fraction) * 2^(exponent - 1075), or below 0.5, or 2^128 or more, or negative or a NaN.
fn ticks_of_bits(bits: u64) -> Ticks
    ensures { result.low + 2 ^ 64 * result.high ≡ whole_ticks (of_bits binary64 bits) }
{
    let exponent = bits / 0x10_0000_0000_0000;
    let fraction = bits % 0x10_0000_0000_0000;
    if bits > 0x7ff0_0000_0000_0000 {
        return Ticks { low: 0, high: 0 };
    }
    if exponent < 1022 {
        return Ticks { low: 0, high: 0 };
    }
    if exponent > 1150 {
        return Ticks {
            low: 0xffff_ffff_ffff_ffff,
            high: 0xffff_ffff_ffff_ffff,
        };
    }
    let digits = fraction + 0x10_0000_0000_0000;
    if exponent < 1075 {
        return Ticks {
            low: rounded(digits, 1075 - exponent),
            high: 0,
        };
    }
    shifted(digits, exponent - 1075)
}

fn words_of(x: f64) -> Ticks
    ensures { result.low + 2 ^ 64 * result.high ≡ whole_ticks x }
{
    if x.is_nan() {
        return Ticks { low: 0, high: 0 };
    }
    ticks_of_bits(x.to_bits())
}

// A time in whole ticks.
pub(crate) fn ticks_of(x: f64) -> Ticks
    ensures { result ≡ ticks_of x }
{
    words_of(x)
}

// The ticks of an event: (now + delta) times scale.
pub(crate) fn ticks_at(now: f64, delta: f64, scale: f64) -> Ticks
    ensures { result ≡ ticks_at now delta scale }
{
    ticks_of((now + delta) * scale)
}
