// What a search writes to.
ghost use Rattle.std.specs.Prelude.{◌≤◌, ◌<◌, length, take, IfOk, OnErr, IsOk};
ghost use Rattle.std.specs.Option.{ForSome};
ghost use Rattle.psr_base.specs.Written.{SinkSeen, WroteAll, WriteFails};

use crate::faults::Failed;

/// A stream of bytes that is written to. A call that fails leaves what the object tells as it was.
pub trait Sink {
    /// The bytes written so far and the room for more, both if they are told, and how many calls have failed. That
    /// count stops at the largest u64.
    ghost seen: { Self → SinkSeen };

    /// Writes the front of `bytes`, and returns the number of bytes that it took: at least one, unless `bytes` is
    /// empty. A call that could take none of them fails.
    fn write(&mut self, bytes: &[u8]) -> Result<usize, Failed>
        ensures bound { IfOk result (λ n. n ≤ length bytes.now) }
        ensures some { IfOk result (λ n. 0 < length bytes.now → 0 < n) }
        ensures took { IfOk result (λ n.
            WroteAll (take n bytes.now) (seen self.old) (seen self.new)) }
        ensures failed { OnErr result (WriteFails (seen self.old) (seen self.new)) }
        ensures serves { ForSome (seen self.old).room (λ room.
            length bytes.now ≤ room → IsOk result) };
}
