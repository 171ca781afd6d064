// The values of a spectrum, read from bytes.
ghost use Rattle.std.specs.Prelude.{◌≡◌, ℕ, ◌+◌, ◌*◌, ◌/◌, ◌%◌, ◌<◌, ◌≤◌, ◌⊎◌, length, slice_index, if◌then◌else◌};
ghost use Rattle.band_level.specs.Values.{cells, spectrum_bytes, read_bytes, word_at, value_at, cell_value, most_value};
ghost use Rattle.band_level.specs.Ranges.{FormatInRange};

use crate::format::Format;

// A byte as a value; with a sign it is counted from the least one on.
#[inline(always)]
fn byte_value(byte: u8, signed: bool) -> u32
    ensures value { result ≡ (if signed then (byte + 128) % 256 else byte) }
    ensures small { result ≤ 255 }
{
    let offset = if signed { 128 } else { 0 };
    (u32::from(byte) + offset) % 256
}

// Sets a row to a spectrum of bytes.
fn set_bytes(row: &mut [u32], bytes: &[u8], format: Format, spectrum: usize)
    requires bits { format.bits ≡ 8 }
    requires cells { length row.old ≡ cells format }
    requires inside { (spectrum + 1) * read_bytes format ≤ length bytes.now }
    ensures set { (i : ℕ) → i < cells format → slice_index row.new i
        ≡ value_at format bytes.now (spectrum * cells format + i) }
    ensures small { (i : ℕ) → slice_index row.new i ≤ 255 }
{
    let start = spectrum * row.len();
    for i in 0..row.len() {
        row[i] = byte_value(bytes[start + i], format.signed);
    }
}

// Adds a spectrum of bytes to a row.
fn add_bytes(row: &mut [u32], bytes: &[u8], format: Format, spectrum: usize)
    requires bits { format.bits ≡ 8 }
    requires cells { length row.old ≡ cells format }
    requires inside { (spectrum + 1) * read_bytes format ≤ length bytes.now }
    requires small { (i : ℕ) → slice_index row.old i ≤ 4194304 }
    ensures added { (i : ℕ) → i < cells format → slice_index row.new i
        ≡ slice_index row.old i + value_at format bytes.now (spectrum * cells format + i) }
    ensures few { (i : ℕ) → slice_index row.new i ≤ slice_index row.old i + 255 }
{
    let start = spectrum * row.len();
    for i in 0..row.len() {
        row[i] += byte_value(bytes[start + i], format.signed);
    }
}

// Value `j` of the bytes, without a sign.
#[inline(always)]
fn word(bytes: &[u8], format: Format, j: usize) -> u32
    requires bits { (format.bits ≡ 8) ⊎ (format.bits ≡ 16) }
    requires inside { (j + 1) * (format.bits / 8) ≤ length bytes.now }
    ensures value { result ≡ word_at format bytes.now j }
    ensures small { result < 65536 }
    ensures byte { format.bits ≡ 8 → result < 256 }
{
    if format.bits == 16 {
        let low = u32::from(bytes[2 * j]);
        let high = u32::from(bytes[2 * j + 1]);
        if format.high_byte_first {
            256 * low + high
        } else {
            low + 256 * high
        }
    } else {
        u32::from(bytes[j])
    }
}

// Value `j` of the bytes; with a sign it is counted from the least one on.
#[inline(always)]
fn value(bytes: &[u8], format: Format, j: usize) -> u32
    requires bits { (format.bits ≡ 8) ⊎ (format.bits ≡ 16) }
    requires inside { (j + 1) * (format.bits / 8) ≤ length bytes.now }
    ensures value { result ≡ value_at format bytes.now j }
    ensures small { result < 65536 }
{
    let word = word(bytes, format, j);
    if format.signed {
        if format.bits == 16 {
            (word + 32768) % 65536
        } else {
            (word + 128) % 256
        }
    } else {
        word
    }
}

// Adds the values of a spectrum that was read.
fn add_spectrum(row: &mut [u32], bytes: &[u8], format: Format, spectrum: usize)
    requires bits { (format.bits ≡ 8) ⊎ (format.bits ≡ 16) }
    requires cells { length row.old ≡ cells format }
    requires inside { (spectrum + 1) * read_bytes format ≤ length bytes.now }
    requires small { (i : ℕ) → slice_index row.old i ≤ 4194304 }
    ensures added { (i : ℕ) → i < cells format → slice_index row.new i
        ≡ slice_index row.old i + value_at format bytes.now (spectrum * cells format + i) }
    ensures few { (i : ℕ) → slice_index row.new i ≤ slice_index row.old i + 65535 }
{
    let start = spectrum * row.len();
    for i in 0..row.len() {
        row[i] += value(bytes, format, start + i);
    }
}

// Reads spectrum `t` of bytes of 8 bits.
fn read_narrow(row: &mut [u32], bytes: &[u8], format: Format, t: usize)
    requires format { FormatInRange format }
    requires bits { format.bits ≡ 8 }
    requires cells { length row.old ≡ cells format }
    requires inside { (t + 1) * spectrum_bytes format ≤ length bytes.now }
    ensures values { (i : ℕ) → i < cells format
        → slice_index row.new i ≡ cell_value format bytes.now t i }
    ensures small { (i : ℕ) → slice_index row.new i ≤ format.average * 255 }
{
    let average = format.average as usize;
    set_bytes(row, bytes, format, t * average);
    for k in 1..average {
        add_bytes(row, bytes, format, t * average + k);
    }
}

// Reads spectrum `t` of bytes of either width.
fn read_wide(row: &mut [u32], bytes: &[u8], format: Format, t: usize)
    requires format { FormatInRange format }
    requires cells { length row.old ≡ cells format }
    requires inside { (t + 1) * spectrum_bytes format ≤ length bytes.now }
    ensures values { (i : ℕ) → i < cells format
        → slice_index row.new i ≡ cell_value format bytes.now t i }
    ensures small { (i : ℕ) → slice_index row.new i ≤ format.average * 65535 }
{
    row.fill(0);
    let average = format.average as usize;
    for k in 0..average {
        add_spectrum(row, bytes, format, t * average + k);
    }
}

/// Reads spectrum `t` of the bytes.
pub fn read_row(row: &mut [u32], bytes: &[u8], format: Format, t: usize)
    requires format { FormatInRange format }
    requires cells { length row.old ≡ cells format }
    requires inside { (t + 1) * spectrum_bytes format ≤ length bytes.now }
    ensures values { (i : ℕ) → i < cells format
        → slice_index row.new i ≡ cell_value format bytes.now t i }
    ensures small { (i : ℕ) → slice_index row.new i ≤ most_value format }
{
    if format.bits == 16 {
        read_wide(row, bytes, format, t);
    } else {
        read_narrow(row, bytes, format, t);
    }
}
