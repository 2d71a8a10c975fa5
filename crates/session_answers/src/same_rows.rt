// Whether rows of floats are the same in every number, by their bits, with all NaNs alike.
// Kept: the engine's own comparison is what is tested here, and is not public.

fn same_float(a: f64, b: f64) -> bool {
    if a.is_nan() || b.is_nan() {
        return a.is_nan() && b.is_nan();
    }
    a.to_bits() == b.to_bits()
}

fn same_row(a: &[f64; 8], b: &[f64; 8]) -> bool {
    a.iter().zip(b).all(|(x, y)| same_float(*x, *y))
}

pub fn same_floats(a: &[[f64; 8]], b: &[[f64; 8]]) -> bool {
    a.len() == b.len() && a.iter().zip(b).all(|(x, y)| same_row(x, y))
}
