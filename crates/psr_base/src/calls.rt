// Counts of calls and of faults.
ghost use Rattle.std.specs.Prelude.{◌≡◌, ◌≤◌, ◌-◌, ◌↔◌, Ok, IfOk, OnOk, OnErr, IsErr, Contains};
ghost use Rattle.psr_base.specs.Count.{next_count};

use crate::faults::{Failed, Memory};
use std::alloc::Global;

/// How many calls have failed. The count stops at the largest u64.
#[derive(Clone, Copy, Debug)]
pub(crate) struct Faults {
    count: u64,
}

impl Faults {
    pub(crate) fn none() -> Faults
        ensures { result.count ≡ 0 }
    {
        Faults { count: 0 }
    }

    /// Counts a fault, and returns the error that reports it.
    pub(crate) fn fault(&mut self) -> Failed
        ensures next { self.new.count ≡ next_count self.old.count }
        ensures never_falls { self.old.count ≤ self.new.count }
    {
        self.count = self.count.saturating_add(1);
        Failed
    }
}

/// The calls of an object in memory: which of them are to fail, how many there were, and how many failed.
#[derive(Drop)]
pub(crate) struct Calls {
    fail: Vec<u64>,
    number: u64,
    faults: Faults,
}

impl Calls {
    pub(crate) fn none(alloc: Global, fail: &[u64]) -> Result<Calls, Memory>
        ensures fail { IfOk result (λ calls. calls.fail.items ≡ fail.now) }
        ensures number { IfOk result (λ calls. calls.number ≡ 0) }
        ensures faults { IfOk result (λ calls. calls.faults.count ≡ 0) }
    {
        Ok(Calls {
            fail: Vec::from_slice(alloc, fail)?,
            number: 0,
            faults: Faults::none(),
        })
    }

    /// Counts a call. It fails if its number is in the list of those that are to fail.
    pub(crate) fn begin(&mut self) -> Result<(), Failed>
        ensures fails { IsErr result ↔ Contains self.old.fail.items self.old.number }
        ensures number { self.new.number ≡ next_count self.old.number }
        ensures fail { self.new.fail.items ≡ self.old.fail.items }
        ensures no_fault { OnOk result (self.new.faults.count ≡ self.old.faults.count) }
        ensures fault { OnErr result (self.new.faults.count ≡ next_count self.old.faults.count) }
        ensures never_falls { self.old.faults.count ≤ self.new.faults.count }
    {
        let number = self.number;
        self.number = number.saturating_add(1);
        if self.fail.contains(&number) {
            return Err(self.faults.fault());
        }
        Ok(())
    }

    /// Counts a fault of a call that `begin` let through.
    pub(crate) fn fault(&mut self) -> Failed
        ensures number { self.new.number ≡ self.old.number }
        ensures fail { self.new.fail.items ≡ self.old.fail.items }
        ensures fault { self.new.faults.count ≡ next_count self.old.faults.count }
        ensures never_falls { self.old.faults.count ≤ self.new.faults.count }
    {
        self.faults.fault()
    }
}
