// Files in memory that never fail.
use crate::faults::{Failed, Memory};
use crate::held::HeldFiles;
use crate::inputs::Inputs;
use std::alloc::Global;

/// Files in memory, which never fail. A name that isn't there is read as an empty file.
#[derive(Drop)]
pub struct CalmInputs {
    files: HeldFiles,
    is_open: bool,
}

impl CalmInputs {
    ghost use Rattle.std.specs.Prelude.{◌≡◌, ◌≢◌, ℕ, List, [], None, Some, IfOk, OnOk, OnErr};
    ghost use Rattle.psr_base.specs.InMemory.{calm_told, IsCalmOpen};

    /// Inputs without any file.
    pub fn open(alloc: Global) -> Result<CalmInputs, Memory>
        ensures empty { IfOk result (λ inputs.
            (name : List ℕ) → (calm_told inputs).bytes_under name ≡ None) }
        ensures closed { IfOk result (λ inputs. (calm_told inputs).reading ≡ None) }
        ensures unread { IfOk result (λ inputs. (calm_told inputs).earlier ≡ []) }
    {
        Ok(CalmInputs {
            files: HeldFiles::none(alloc),
            is_open: false,
        })
    }

    /// Puts `bytes` under `name`, in place of those that stood there. If a file is open, it stays open, and its place
    /// stays the same.
    pub fn put(&mut self, name: &str, bytes: &[u8]) -> Result<(), Memory>
        ensures put { OnOk result ((calm_told self.new).bytes_under name.now ≡ Some bytes.now) }
        ensures others { OnOk result ((other : List ℕ) → other ≢ name.now
            → (calm_told self.new).bytes_under other ≡ (calm_told self.old).bytes_under other) }
        ensures reading { (calm_told self.new).reading ≡ (calm_told self.old).reading }
        ensures earlier { (calm_told self.new).earlier ≡ (calm_told self.old).earlier }
        ensures is_open { IsCalmOpen self.old → IsCalmOpen self.new }
        ensures refused { OnErr result (calm_told self.new ≡ calm_told self.old) }
    {
        self.files.put(name, bytes)
    }
}

impl Inputs for CalmInputs {
    ghost use Rattle.std.specs.Prelude.{◌≡◌, ◌<◌, ⊤, [], length, min, unwrap_or, None, IsSome, IsOk, IfOk, OnOk};
    ghost use Rattle.psr_base.specs.Told.{opened, closed, read_by, left_to_read, GivesNext};
    ghost use Rattle.psr_base.specs.InMemory.{calm_told, IsCalmOpen};

    ghost told = { calm_told };

    ghost is_open = { IsCalmOpen };

    ghost is_calm = { λ _. ⊤ };

    ghost faults = { λ _. 0 };

    fn open(&mut self, name: &str) -> Result<(), Failed>
        ensures answer { IsOk result }
        ensures opened { IsSome ((calm_told self.old).bytes_under name.now)
            → calm_told self.new ≡ opened name.now (calm_told self.old) }
        ensures unknown { (calm_told self.old).bytes_under name.now ≡ None
            → calm_told self.new ≡ closed (calm_told self.old) }
        ensures is_open { IsCalmOpen self.new }
    {
        if !self.files.open(name) {
            self.files.close();
        }
        self.is_open = true;
        Ok(())
    }

    fn read(&mut self, into: &mut [u8]) -> Result<usize, Failed>
        requires room { 0 < length into.old }
        requires is_open { IsCalmOpen self.old }
        ensures answer { IsOk result }
        ensures whole { IfOk result (λ n.
            n ≡ min (length (unwrap_or (left_to_read (calm_told self.old)) [])) (length into.new)) }
        ensures next { IfOk result (λ n.
            GivesNext (unwrap_or (left_to_read (calm_told self.old)) []) n into.new) }
        ensures moved { IfOk result (λ n. calm_told self.new ≡ read_by n (calm_told self.old)) }
        ensures is_open { IsCalmOpen self.new }
    {
        if self.files.is_reading() {
            Ok(self.files.read(into))
        } else {
            Ok(0)
        }
    }
}
