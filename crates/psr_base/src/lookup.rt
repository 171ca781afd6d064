// Finding a file by its name, and reading from a place in it.
ghost use Rattle.std.specs.Prelude.{◌≡◌, ◌-◌, min, length, take, drop};
ghost use Rattle.psr_base.specs.NamedFiles.{place_in};

use crate::held::MemFile;

/// The place of the first file of that name in the list.
pub(crate) fn place_of(files: &[MemFile], name: &str) -> Option<usize>
    ensures { result ≡ place_in files.now name.now }
{
    files.iter().position(|file| file.name.as_str() == name)
}

/// Copies the bytes from `place` on to the front of `into`, as many as fit. Returns their number.
pub(crate) fn copy_from(bytes: &[u8], place: usize, into: &mut [u8]) -> usize
    ensures count { result ≡ min (length bytes.now - place) (length into.old) }
    ensures copied { take result into.new ≡ take result (drop place bytes.now) }
{
    let left = &bytes[place.min(bytes.len())..];
    let n = left.len().min(into.len());
    into[..n].copy_from_slice(&left[..n]);
    n
}
