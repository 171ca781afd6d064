// Reads single samples from data bytes.
ghost use Rattle.std.specs.Prelude.{◌≡◌, ◌+◌, ◌*◌, ◌/◌, ◌<◌, ◌≤◌, ◌⊎◌, length};
ghost use Rattle.search_model.specs.Samples.{value_at, sample_bytes, sample_at};
ghost use Rattle.spectra_rows.specs.Unpacking.{AreValues};

// The value of `nbit` bits, 8 or 16, that begins at byte `at`. The low byte comes first.
fn value(bytes: &[u8], nbit: u32, at: usize) -> u32
    requires bits { (nbit ≡ 8) ⊎ (nbit ≡ 16) }
    requires inside { at + nbit / 8 ≤ length bytes.now }
    ensures value { result ≡ value_at nbit bytes.now at }
    ensures small { result < 65536 }
{
    if nbit == 16 {
        u32::from(bytes[at]) + 256 * u32::from(bytes[at + 1])
    } else {
        u32::from(bytes[at])
    }
}

/// Sample `index` of the bytes: the sum of its `npol` values.
pub fn sample(bytes: &[u8], nbit: u32, npol: u32, index: usize) -> u32
    requires values { AreValues nbit npol }
    requires inside { (index + 1) * sample_bytes nbit npol ≤ length bytes.now }
    ensures { result ≡ sample_at nbit npol bytes.now index }
{
    let wide = nbit as usize / 8;
    let at = index * (npol as usize * wide);
    let first = value(bytes, nbit, at);
    if npol == 2 {
        first + value(bytes, nbit, at + wide)
    } else {
        first
    }
}
