// What takes everything, keeps nothing and never fails.
use crate::faults::Failed;
use crate::files::Files;
use crate::sink::Sink;

/// A sink that takes all bytes and tells nothing of them. It never fails.
#[derive(Clone, Copy, Debug, Default)]
pub struct CalmSink;

impl CalmSink {
    /// A sink that has taken nothing.
    pub fn new() -> CalmSink {
        CalmSink
    }
}

impl Sink for CalmSink {
    ghost use Rattle.std.specs.Prelude.{◌≡◌, length, None, Ok};

    ghost seen = { λ _. record { written = None; room = None; faults = 0 } };

    fn write(&mut self, bytes: &[u8]) -> Result<usize, Failed>
        ensures { result ≡ Ok (length bytes.now) }
    {
        Ok(bytes.len())
    }
}

/// Files that take all bytes and tell nothing of them. They never fail.
#[derive(Debug, Drop)]
pub struct CalmFiles {
    is_open: bool,
}

impl CalmFiles {
    /// Files of which none is open.
    pub fn new() -> CalmFiles
        ensures { ¬ ⟦<CalmFiles as Files>⟧.is_open result }
    {
        CalmFiles { is_open: false }
    }
}

impl Files for CalmFiles {
    ghost use Rattle.std.specs.Prelude.{◌≡◌, length, None, Ok, IsOk, IsTrue};

    ghost seen = { λ _. record { made = None; left = None; faults = 0 } };

    ghost is_open = { λ files. IsTrue files.is_open };

    fn create(&mut self, _name: &str) -> Result<(), Failed>
        requires closed { ¬ IsTrue self.old.is_open }
        ensures answer { IsOk result }
        ensures is_open { IsTrue self.new.is_open }
    {
        self.is_open = true;
        Ok(())
    }

    fn append(&mut self, bytes: &[u8]) -> Result<usize, Failed>
        requires is_open { IsTrue self.old.is_open }
        ensures answer { result ≡ Ok (length bytes.now) }
        ensures is_open { IsTrue self.new.is_open }
    {
        Ok(bytes.len())
    }

    fn finish(&mut self) -> Result<(), Failed>
        requires is_open { IsTrue self.old.is_open }
        ensures answer { IsOk result }
        ensures closed { ¬ IsTrue self.new.is_open }
    {
        self.is_open = false;
        Ok(())
    }
}
