// Files in memory.
use crate::calls::Calls;
use crate::faults::{Failed, Memory};
use crate::held::HeldFiles;
use crate::inputs::Inputs;
use std::alloc::Global;

/// Files in memory, of which chosen calls fail.
#[derive(Drop)]
pub struct MemInputs {
    files: HeldFiles,
    calls: Calls,
}

impl MemInputs {
    ghost use Rattle.std.specs.Prelude.{◌≡◌, ◌≢◌, ℕ, List, [], None, Some, IfOk, OnOk, OnErr};
    ghost use Rattle.psr_base.specs.InMemory.{told_of, calls_of};

    /// Inputs without any file. The calls of `open` and `read` are numbered together from 0; those whose number is in
    /// `fail` fail.
    pub fn open(alloc: Global, fail: &[u64]) -> Result<MemInputs, Memory>
        ensures empty { IfOk result (λ inputs.
            (name : List ℕ) → (told_of inputs).bytes_under name ≡ None) }
        ensures closed { IfOk result (λ inputs. (told_of inputs).reading ≡ None) }
        ensures unread { IfOk result (λ inputs. (told_of inputs).earlier ≡ []) }
        ensures calls { IfOk result (λ inputs.
            calls_of inputs ≡ record { fail = fail.now; number = 0; faults = 0 }) }
    {
        Ok(MemInputs {
            files: HeldFiles::none(alloc),
            calls: Calls::none(alloc, fail)?,
        })
    }

    /// Puts `bytes` under `name`, in place of those that stood there. If a file is open, it stays open, and its place
    /// stays the same.
    pub fn put(&mut self, name: &str, bytes: &[u8]) -> Result<(), Memory>
        ensures put { OnOk result ((told_of self.new).bytes_under name.now ≡ Some bytes.now) }
        ensures others { OnOk result ((other : List ℕ) → other ≢ name.now
            → (told_of self.new).bytes_under other ≡ (told_of self.old).bytes_under other) }
        ensures reading { (told_of self.new).reading ≡ (told_of self.old).reading }
        ensures earlier { (told_of self.new).earlier ≡ (told_of self.old).earlier }
        ensures calls { calls_of self.new ≡ calls_of self.old }
        ensures refused { OnErr result (told_of self.new ≡ told_of self.old) }
    {
        self.files.put(name, bytes)
    }
}

impl Inputs for MemInputs {
    ghost use Rattle.std.specs.Prelude.{◌≡◌, ◌<◌, ◌≤◌, ◌-◌, ◌↔◌, min, length, [], None, Some, IsSome, IsOk, IfOk, OnOk, OnErr, unwrap_or};
    ghost use Rattle.psr_base.specs.Count.{FailsNext, after_call};
    ghost use Rattle.psr_base.specs.Told.{opened, read_by, left_to_read, GivesNext};
    ghost use Rattle.psr_base.specs.InMemory.{told_of, calls_of, IsOpen, HasNotRead};

    ghost told = { told_of };

    ghost is_open = { IsOpen };

    ghost is_calm = { λ inputs. (calls_of inputs).fail ≡ [] };

    ghost faults = { λ inputs. (calls_of inputs).faults };

    fn open(&mut self, name: &str) -> Result<(), Failed>
        ensures answer { IsOk result
            ↔ (IsSome ((told_of self.old).bytes_under name.now) × ¬ FailsNext (calls_of self.old)) }
        ensures opened { OnOk result (told_of self.new ≡ opened name.now (told_of self.old)) }
        ensures is_open { OnOk result (IsOpen self.new) }
        ensures called { OnOk result (calls_of self.new ≡ after_call (calls_of self.old)) }
        ensures failed { OnErr result (HasNotRead self.old self.new) }
        ensures count { (calls_of self.old).faults ≤ (calls_of self.new).faults }
    {
        self.calls.begin()?;
        if self.files.open(name) {
            Ok(())
        } else {
            Err(self.calls.fault())
        }
    }

    fn read(&mut self, into: &mut [u8]) -> Result<usize, Failed>
        requires room { 0 < length into.old }
        requires is_open { IsOpen self.old }
        ensures answer { IsOk result ↔ ¬ FailsNext (calls_of self.old) }
        ensures whole { IfOk result (λ n.
            n ≡ min (length (unwrap_or (left_to_read (told_of self.old)) [])) (length into.new)) }
        ensures next { IfOk result (λ n.
            GivesNext (unwrap_or (left_to_read (told_of self.old)) []) n into.new) }
        ensures moved { IfOk result (λ n. told_of self.new ≡ read_by n (told_of self.old)) }
        ensures is_open { IsOpen self.new }
        ensures called { OnOk result (calls_of self.new ≡ after_call (calls_of self.old)) }
        ensures failed { OnErr result (HasNotRead self.old self.new) }
        ensures count { (calls_of self.old).faults ≤ (calls_of self.new).faults }
    {
        self.calls.begin()?;
        Ok(self.files.read(into))
    }
}
