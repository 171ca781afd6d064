// The header of a made observation.
ghost use Rattle.std.specs.Prelude.{◌≡◌, ◌≤◌, ◌-◌, ◌++◌, length, replicate};
ghost use Rattle.psr_make.specs.Made.{made_text, made_header};

use crate::spec::MakeSpec;
use text_line::Line;

/// The size of the header, in bytes.
pub(crate) const HEADER: usize = 4096;

// The text of the header.
#[tactic(auto, unfolding(crate::specs::Made::made_text))]
fn text_of(spec: &MakeSpec) -> Line
    ensures text { result ≡ made_text spec.now }
    ensures short { length result ≤ 256 }
{
    let mut text = Line::new();
    text.push_str("HDR_VERSION 1.0\nHDR_SIZE 4096\nINSTRUMENT psr_make\nNCHAN ");
    text.push_number(u64::from(spec.channels));
    text.push_str("\nNBIT ");
    text.push_number(u64::from(spec.nbit));
    text.push_str("\nNPOL ");
    text.push_number(u64::from(spec.npol));
    text.push_str("\nNDIM 1\nTSAMP 64\nFREQ 1382\nBW -400\n");
    text.push_str("UTC_START 2024-01-02-03:04:05\nOBS_OFFSET 0\n");
    text
}

// Writes a text to the front of `bytes`, and NUL over the rest.
fn write_text(text: &[u8], bytes: &mut [u8])
    requires { length text.now ≤ length bytes.old }
    ensures { bytes.new ≡ text.now ++ replicate (length bytes.old - length text.now) 0 }
{
    let size = bytes.len();
    bytes[..text.len()].copy_from_slice(text);
    bytes[text.len()..size].fill(0);
}

/// Overwrites `bytes` with the header.
#[tactic(auto, unfolding(dada_model::specs::Fields::header_bytes))]
pub(crate) fn write_header(spec: &MakeSpec, bytes: &mut [u8])
    requires { length bytes.old ≡ HEADER }
    ensures { bytes.new ≡ made_header spec.now }
{
    let text = text_of(spec);
    write_text(text.as_bytes(), bytes);
}
