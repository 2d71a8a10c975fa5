// Elements over as many others, one in each turn: the library's copy_from_slice asks C for memmove, and what C links is to ask for memcpy
// and memset alone.
ghost use Rattle.std.specs.Prelude.{◌≡◌, length};

pub(crate) fn copy_over<T: Copy>(to: &mut [T], from: &[T])
    requires { length to.old ≡ length from.now }
    ensures { to.new ≡ from.now }
{
    for i in 0..from.len() {
        to[i] = from[i];
    }
}
