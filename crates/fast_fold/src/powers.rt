// Powers of two.
ghost use Rattle.std.specs.Prelude.{◌≡◌, ℕ, ◌^◌, ◌≤◌};

/// 2^e, as a count of rows or blocks.
pub fn power(e: u32) -> usize
    requires { e ≤ 12 }
    ensures value { result ≡ 2 ^ e }
    ensures bound { result ≤ 4096 }
    ensures rises { (most : ℕ) → e ≤ most → result ≤ 2 ^ most }
{
    1 << e
}
