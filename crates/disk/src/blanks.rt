// Buffers of one value, of which a caller knows the length alone: a proof would look long into one that is written out where it
// is long.
ghost use Rattle.std.specs.Prelude.{◌≡◌, length};

// So many values.
pub fn blank<T: Copy, const N: usize>(value: T) -> [T; N]
    ensures { length result ≡ N }
{
    [value; N]
}
