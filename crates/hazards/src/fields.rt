// Fields in byte buffers, little-endian. A field that does not lie whole in the buffer reads as 0, and writing it changes nothing.
ghost use Rattle.std.specs.Prelude.{◌≡◌, ◌+◌, ◌≤◌, ◌<◌, ◌++◌, cond, take, drop, length, leb, MatchOption};
ghost use Rattle.std.specs.Int.{w32};
ghost use Rattle.std.proofs.Common.{to_z, of_z};
ghost use Rattle.hazards.specs.Fields.{field_at, with_field, f64_at, with_f64, i32_at};

// Whether a field of `width` bytes lies whole at a place.
pub fn lies_whole(bytes: &[u8], at: usize, width: usize) -> bool
    ensures { result ≡ leb (at + width) (length bytes.now) }
{
    at <= bytes.len() && width <= bytes.len() - at
}

// The N bytes of a field at a place, if it lies whole.
fn field<const N: usize>(bytes: &[u8], at: usize) -> Option<&[u8; N]>
    ensures { MatchOption result (length bytes.now < at + N) (λ field. (at + N ≤ length bytes.now) × (field.now ≡ take N (drop at bytes.now))) }
{
    bytes.get(at..)?.first_chunk()
}

// Writes the N bytes of a field at a place.
fn put_field<const N: usize>(bytes: &mut [u8], at: usize, field: [u8; N])
    ensures { bytes.new ≡ cond (leb (at + N) (length bytes.old)) (take at bytes.old ++ (field.entry ++ drop (at + N) bytes.old)) bytes.old }
{
    if lies_whole(bytes, at, N) {
        bytes[at..at + N].copy_from_slice(&field);
    }
}

// The byte at a place.
pub fn u8_at(bytes: &[u8], at: usize) -> u8
    ensures { result ≡ field_at 1 bytes.now at }
{
    bytes.get(at).copied().unwrap_or(0)
}

// The u32 field at a place.
// Kept: from_le_bytes and to_le_bytes are of no trait, so each width has calls of its own over `field` and `put_field`.
pub fn u32_at(bytes: &[u8], at: usize) -> u32
    ensures { result ≡ field_at 4 bytes.now at }
{
    match field::<4>(bytes, at) {
        Some(word) => u32::from_le_bytes(*word),
        None => 0,
    }
}

// The u64 field at a place.
pub fn u64_at(bytes: &[u8], at: usize) -> u64
    ensures { result ≡ field_at 8 bytes.now at }
{
    match field::<8>(bytes, at) {
        Some(word) => u64::from_le_bytes(*word),
        None => 0,
    }
}

// The number of 32 bits in two's complement.
// Kept: a public function, with its promise in the words of the specs; it is one call of the library.
pub fn i32_from(word: u32) -> i32
    ensures { result ≡ to_z w32 word }
{
    word.cast_signed()
}

// The i32 field at a place, in two's complement.
pub fn i32_at(bytes: &[u8], at: usize) -> i32
    ensures { result ≡ i32_at bytes.now at }
{
    i32_from(u32_at(bytes, at))
}

// The f64 field at a place; every NaN pattern reads as a NaN.
pub fn f64_at(bytes: &[u8], at: usize) -> f64
    ensures { result ≡ f64_at bytes.now at }
{
    let bits = u64_at(bytes, at);
    if bits % 0x8000_0000_0000_0000 > 0x7ff0_0000_0000_0000 {
        return f64::NAN;
    }
    f64::from_bits(bits)
}

// Writes a byte at a place.
pub fn put_u8(bytes: &mut [u8], at: usize, x: u8)
    ensures { bytes.new ≡ with_field 1 bytes.old at x }
{
    put_field::<1>(bytes, at, [x]);
}

// Writes a u32 field at a place.
pub fn put_u32(bytes: &mut [u8], at: usize, x: u32)
    ensures { bytes.new ≡ with_field 4 bytes.old at x }
{
    put_field::<4>(bytes, at, x.to_le_bytes());
}

// Writes a u64 field at a place.
pub fn put_u64(bytes: &mut [u8], at: usize, x: u64)
    ensures { bytes.new ≡ with_field 8 bytes.old at x }
{
    put_field::<8>(bytes, at, x.to_le_bytes());
}

// The 32 bits of a number in two's complement.
// Kept: a public function, as i32_from is.
pub fn bits_of_i32(x: i32) -> u32
    ensures { result ≡ of_z w32 x }
{
    x.cast_unsigned()
}

// Writes an f64 field at a place; a NaN as its quiet pattern with a clear sign.
pub fn put_f64(bytes: &mut [u8], at: usize, x: f64)
    ensures { bytes.new ≡ with_f64 bytes.old at x }
{
    if x.is_nan() {
        put_u64(bytes, at, 0x7ff8_0000_0000_0000);
    } else {
        put_u64(bytes, at, f64::to_bits(x));
    }
}
