// The front of a buffer.
ghost use Rattle.std.specs.Prelude.{◌≡◌, ◌≤◌, length, take};

// The count, or the buffer's length where that is less.
pub fn within(count: usize, bytes: &[u8]) -> usize
    ensures within { result ≤ length bytes.now }
    ensures front { result ≡ length (take result bytes.now) }
{
    (count % 65536).min(bytes.len())
}
