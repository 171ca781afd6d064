// Noise from random draws.
ghost use Rattle.std.specs.Prelude.{◌≡◌, ℕ, ◌+◌, ◌%◌, ◌⊎◌, length};
ghost use Rattle.psr_make.specs.Draws.{noise, state_after};
ghost use Rattle.psr_make.specs.Noise.{FillsNoise};

use crate::laws::draws_are_splitmix;
use rand_core::utils::NextWord;
use rand_xoshiro::SplitMix64;

// The noise of the next draw.
#[inline(always)]
#[tactic(auto, unfolding(crate::specs::Draws::noise))]
fn next_noise(draws: &mut SplitMix64) -> u8
    ensures noise { (number i : ℕ) → draws.old ≡ state_after number i → result ≡ noise number i }
    ensures next { (number i : ℕ) → draws.old ≡ state_after number i
        → draws.new ≡ state_after number (i + 1) }
{
    draws_are_splitmix();
    (draws.next_word() % (1 << 32)).count_ones() as u8
}

// Overwrites values of one byte with the noise of the next draws.
fn fill_bytes(draws: &mut SplitMix64, values: &mut [u8])
    ensures { FillsNoise 1 draws.old draws.new values.new }
{
    for value in values.iter_mut() {
        *value = next_noise(draws);
    }
}

// Overwrites values of two bytes, the low byte first, with the noise of the next draws.
fn fill_words(draws: &mut SplitMix64, values: &mut [u8])
    requires { length values.old % 2 ≡ 0 }
    ensures { FillsNoise 2 draws.old draws.new values.new }
{
    for i in 0..values.len() / 2 {
        values[2 * i] = next_noise(draws);
        values[2 * i + 1] = 0;
    }
}

/// Overwrites values of `wide` bytes, 1 or 2, the low byte first, with the noise of the next draws.
pub(crate) fn fill_noise(draws: &mut SplitMix64, wide: usize, values: &mut [u8])
    requires wide { (wide ≡ 1) ⊎ (wide ≡ 2) }
    requires whole { length values.old % wide ≡ 0 }
    ensures { FillsNoise wide draws.old draws.new values.new }
{
    if wide == 1 {
        fill_bytes(draws, values);
    } else {
        fill_words(draws, values);
    }
}
