// A file in a buffer that all files share.
ghost use Rattle.std.specs.Prelude.{◌≡◌};
ghost use Rattle.std.specs.List.{list_any};
ghost use Rattle.psr_base.specs.Stored.{is_stored_as};

use arrayvec::ArrayString;

/// The largest number of bytes of a name.
pub(crate) const NAME_ROOM: usize = 64;

/// The name of a file, and where its bytes are in the buffer.
#[derive(Drop)]
pub(crate) struct StoredFile {
    pub(crate) name: ArrayString<NAME_ROOM>,
    pub(crate) start: usize,
    pub(crate) len: usize,
}

/// Whether one of the files has the name.
pub(crate) fn is_there(files: &[StoredFile], name: &str) -> bool
    ensures { result ≡ list_any (is_stored_as name.now) files.now }
{
    files.iter().any(|file| file.name.as_str() == name)
}
