// Document 02, change 4: the f64 nearest to a square root. Whole numbers of one word decide; floats only guess.
ghost use Rattle.std.specs.Prelude.{◌≡◌, true, ◌+◌, ◌-◌, ◌*◌, ◌^◌, ◌≤◌, ◌<◌};
ghost use Rattle.hazards.specs.Roots.{multiple, root_pattern, nearest_root};
ghost use Rattle.hazards.specs.RootsInternals.{infinity_pattern, AllDigits, NearestWhole};

// 2^52: a pattern's digits are below it, and the 53 digits of a value that is not subnormal begin with it.
const HIDDEN_DIGIT: u64 = 0x10_0000_0000_0000;

// The pattern of 1.0, less 2^52.
const UNIT_EXPONENT: u64 = 0x3fe0_0000_0000_0000;

const INFINITY_PATTERN: u64 = 0x7ff0_0000_0000_0000;

// The greatest whole number whose square is at most n.
fn small_root(n: u64) -> u64
    requires { n < 2 ^ 54 }
    ensures { (result * result ≤ n) × (n < (result + 1) * (result + 1)) × (result < 2 ^ 27) }
{
    n.isqrt()
}

// The same of n * 2^54: 27 binary digits more, one at a time. `left` is n * 4^i - root * root after i of them.
fn long_root(n: u64) -> u64
    requires { n < 2 ^ 54 }
    ensures { (result * result ≤ n * 2 ^ 54) × (n * 2 ^ 54 < (result + 1) * (result + 1)) × (result < 2 ^ 54) }
{
    let mut root = small_root(n);
    let mut left = n - root * root;
    for _ in 0..27u64 {
        if left > root {
            left = 4 * left - 4 * root - 1;
            root = 2 * root + 1;
        } else {
            left = 4 * left;
            root = 2 * root;
        }
    }
    root
}

// Whether p is the whole number nearest to the root of n * 2^52; false also where p is too far off for one word to tell. With p written
// as a * 2^26 + b, n * 2^52 - p * p is rest * 2^27 - 2^54 - b * b.
fn is_nearest(n: u64, p: u64) -> bool
    requires { (n < 2 ^ 54) × (p ≤ 2 ^ 53) }
    ensures { result ≡ true → NearestWhole n p }
{
    let a = p / 0x400_0000;
    let b = p % 0x400_0000;
    let square = a * a;
    if square > n + 4 {
        return false;
    }
    let left = n + 4 - square;
    if left > 0x4000_0000 {
        return false;
    }
    let room = left * 0x200_0000;
    let cross = a * b;
    if cross > room {
        return false;
    }
    let rest = room - cross;
    if rest > 0x4000_0000 {
        return false;
    }
    let above = rest * 0x800_0000 + p;
    let below = 0x40_0000_0000_0000 + b * b;
    (below < above) & (above <= below + 2 * p)
}

// 53 digits near those of the root of digits * 2^odd, by Heron's rule from a parabola. Nothing rests on how near they are.
fn guess(digits: u64, odd: u64) -> u64
    requires { (2 ^ 52 ≤ digits) × (digits < 2 ^ 53) × (odd < 2) }
    ensures { (2 ^ 52 ≤ result) × (result < 2 ^ 53) }
{
    let x = f64::from_bits(UNIT_EXPONENT + odd * HIDDEN_DIGIT + digits);
    let start = 0.5185546277808447 + (0.5260096911880688 - 0.039540112803941485 * x) * x;
    let first = 0.5 * (start + x / start);
    let second = 0.5 * (first + x / first);
    let third = 0.5 * (second + x / second);
    if third >= 1.0 {
        return f64::to_bits(third) % HIDDEN_DIGIT + HIDDEN_DIGIT;
    }
    HIDDEN_DIGIT
}

// The whole number nearest to the root of n * 2^52, where n is digits * 2^odd: the guess or a neighbour of it, else digit by digit.
fn whole_root(digits: u64, odd: u64) -> u64
    requires { (2 ^ 52 ≤ digits) × (digits < 2 ^ 53) × (odd < 2) }
    ensures { NearestWhole (digits * (1 + odd)) result × (result < 2 ^ 53) }
{
    let n = digits * (1 + odd);
    let near = guess(digits, odd);
    if is_nearest(n, near) {
        return near;
    }
    if is_nearest(n, near + 1) {
        return near + 1;
    }
    if is_nearest(n, near - 1) {
        return near - 1;
    }
    (long_root(n) + 1) / 2
}

// A value's digits, and the power of two that they are multiplied by.
#[derive(Clone, Copy)]
struct Digits {
    digits: u64,
    power: u64,
}

// The value n * 2^1074 with 53 digits.
fn with_all_digits(n: u64) -> Digits
    requires { (0 < n) × (n < 2 ^ 53) }
    ensures { AllDigits (n * 2 ^ 1074) result.digits result.power }
{
    let shift = 52 - n.ilog2();
    Digits {
        digits: n << shift,
        power: 1074 - u64::from(shift),
    }
}

// The digits of a value above 0, times 2^2148.
fn digits_of(pattern: u64) -> Digits
    requires { (0 < pattern) × (pattern < infinity_pattern) }
    ensures { AllDigits (multiple pattern * 2 ^ 1074) result.digits result.power }
{
    let exponent = pattern / HIDDEN_DIGIT;
    let digits = pattern % HIDDEN_DIGIT;
    if exponent == 0 {
        return with_all_digits(digits);
    }
    Digits {
        digits: digits + HIDDEN_DIGIT,
        power: exponent + 1073,
    }
}

// The pattern of the f64 nearest to the root of a value above 0.
fn root_pattern(pattern: u64) -> u64
    requires { (0 < pattern) × (pattern < infinity_pattern) }
    ensures { (result ≡ root_pattern pattern) × (result < infinity_pattern) }
{
    let value = digits_of(pattern);
    let root = whole_root(value.digits, value.power % 2);
    (value.power / 2 - 26) * HIDDEN_DIGIT + root
}

// The f64 nearest to the root of x; infinite where x is, +0.0 where x is not above 0.
pub fn nearest_root(x: f64) -> f64
    ensures { result ≡ nearest_root x }
{
    if x > 0.0 {
        let pattern = f64::to_bits(x);
        if pattern == INFINITY_PATTERN {
            return x;
        }
        return f64::from_bits(root_pattern(pattern));
    }
    0.0
}
