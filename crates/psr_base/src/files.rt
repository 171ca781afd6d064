// What data are recorded to.
ghost use Rattle.std.specs.Prelude.{◌≤◌, ◌<◌, length, take, IfOk, OnOk, OnErr, IsOk, IsErr, IsSome};
ghost use Rattle.std.specs.Option.{ForSome};
ghost use Rattle.psr_base.specs.Made.{FilesSeen, HasName, Created, AppendedAll, Finished, MakingFails, CanCreate};

use crate::faults::Failed;

/// Files that are made one after another: each is created, written and finished before the next.
///
/// A call that fails leaves what the object tells as it was. An unfinished file stays unfinished.
pub trait Files {
    /// The files made so far and the files and bytes that there is room for, both if they are told, and how many calls
    /// have failed. That count stops at the largest u64.
    ghost seen: { Self → FilesSeen };

    /// Whether a file was created and isn't finished.
    ghost is_open: { Self → Type 0 };

    /// Creates an empty file. `name` must be new: a name that is there is refused.
    fn create(&mut self, name: &str) -> Result<(), Failed>
        requires closed { ¬ is_open self.old }
        ensures created { OnOk result (Created name.now (seen self.old) (seen self.new)) }
        ensures is_open { OnOk result (is_open self.new) }
        ensures failed { OnErr result (MakingFails (seen self.old) (seen self.new)) }
        ensures still_closed { OnErr result (¬ is_open self.new) }
        ensures once { ForSome (seen self.old).made (λ made. HasName made name.now → IsErr result) }
        ensures serves { CanCreate name.now (seen self.old) → IsOk result };

    /// Appends the front of `bytes` to the open file, and returns the number of bytes that it took: at least one,
    /// unless `bytes` is empty. A call that could take none of them fails.
    fn append(&mut self, bytes: &[u8]) -> Result<usize, Failed>
        requires is_open { is_open self.old }
        ensures bound { IfOk result (λ n. n ≤ length bytes.now) }
        ensures some { IfOk result (λ n. 0 < length bytes.now → 0 < n) }
        ensures took { IfOk result (λ n.
            AppendedAll (take n bytes.now) (seen self.old) (seen self.new)) }
        ensures failed { OnErr result (MakingFails (seen self.old) (seen self.new)) }
        ensures still_open { is_open self.new }
        ensures serves { ForSome (seen self.old).left (λ left.
            length bytes.now ≤ left.bytes → IsOk result) };

    /// Finishes the open file.
    fn finish(&mut self) -> Result<(), Failed>
        requires is_open { is_open self.old }
        ensures finished { OnOk result (Finished (seen self.old) (seen self.new)) }
        ensures closed { OnOk result (¬ is_open self.new) }
        ensures failed { OnErr result (MakingFails (seen self.old) (seen self.new)) }
        ensures still_open { OnErr result (is_open self.new) }
        ensures serves { IsSome (seen self.old).left → IsOk result };
}
