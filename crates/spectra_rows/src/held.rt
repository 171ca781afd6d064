// Appends bytes to those that a buffer holds from its front on.
ghost use Rattle.std.specs.Prelude.{◌≡◌, ◌+◌, ◌≤◌, ◌++◌, length, take};

/// Writes `bytes` behind the first `filled` bytes of `held`.
pub fn hold(held: &mut [u8], filled: usize, bytes: &[u8])
    requires { filled + length bytes.now ≤ length held.old }
    ensures { take (filled + length bytes.now) held.new ≡ take filled held.old ++ bytes.now }
{
    held[filled..filled + bytes.len()].copy_from_slice(bytes);
}
