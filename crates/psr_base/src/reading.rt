// Reading more from an open file than one call gives.
ghost use Rattle.std.specs.Prelude.{◌≡◌, ◌≢◌, ◌≤◌, ◌<◌, ℕ, length, vec_len, Err, IfOk, OnErr, IsOk, IsErr, IsSome};
ghost use Rattle.std.specs.Option.{ForSome};
ghost use Rattle.psr_base.specs.Inputs.{HasReadFrom};
ghost use Rattle.psr_base.specs.Told.{left_to_read, rest_after, moved_by, at_end, opened, filled_by, BreaksWithin, BreaksOpened, FillsFrom, ReadsJoin, OfFile};

use crate::faults::Failed;
use crate::inputs::Inputs;
use std::alloc::{AllocError, Global};
use thiserror::Error;

/// Reads until `into` is full or the file ends, and returns the number of bytes that were read. It is less than the
/// size of `into` only at the end of the file. What `into` holds after them is unspecified.
///
/// After a fault some of the next bytes may be lost.
pub fn fill<I: Inputs>(inputs: &mut I, into: &mut [u8]) -> Result<usize, Failed>
    requires { I.is_open inputs.old }
    ensures bound { IfOk result (λ n. n ≤ length into.new) }
    ensures filled { IfOk result (λ n. ForSome (left_to_read (I.told inputs.old))
        (λ left. FillsFrom left n into.new)) }
    ensures moved { IfOk result (λ n.
        I.told inputs.new ≡ filled_by n (length into.new) (I.told inputs.old)) }
    ensures left { IfOk result (λ n. left_to_read (I.told inputs.new)
        ≡ rest_after n (left_to_read (I.told inputs.old))) }
    ensures lost { OnErr result
        (BreaksWithin (length into.new) (I.told inputs.old) (I.told inputs.new)) }

    ensures inputs { HasReadFrom I.told I.is_calm I.faults (IsErr result) inputs.old inputs.new }
    ensures is_open { I.is_open inputs.new }
    ensures serves { I.is_calm inputs.old → IsOk result }
{
    let mut filled = 0;
    while filled < into.len() {
        let n = inputs.read(&mut into[filled..])?;
        if n == 0 {
            break;
        }
        filled += n;
    }
    Ok(filled)
}

/// Why `read_to_end` or `read_file` gave no bytes.
#[derive(Clone, Copy, Debug, PartialEq, Eq, Error)]
pub enum DataFault {
    /// The inputs failed.
    #[error("the inputs failed")]
    Failed,
    /// There are more than `limit` bytes.
    #[error("more bytes than the limit")]
    TooLong,
    /// There was no memory.
    #[error("no memory")]
    Memory,
}

impl From<Failed> for DataFault {
    ghost use Rattle.psr_base.specs.declared.reading.DataFault.{DataFault};

    ghost from_gives = { λ _ fault. fault ≡ DataFault.Failed };

    fn from(_failed: Failed) -> DataFault {
        DataFault::Failed
    }
}

impl From<AllocError> for DataFault {
    ghost use Rattle.psr_base.specs.declared.reading.DataFault.{DataFault};

    ghost from_gives = { λ _ fault. fault ≡ DataFault.Memory };

    fn from(_error: AllocError) -> DataFault {
        DataFault::Memory
    }
}

// The size of one read, in bytes.
const PIECE: usize = 8192;

/// Reads the rest of the open file, which may be at most `limit` bytes.
///
/// It stops as soon as more than `limit` bytes were read. After a fault some of the next bytes may be lost.
pub fn read_to_end<I: Inputs>(
    alloc: Global,
    inputs: &mut I,
    limit: usize,
) -> Result<Vec<u8>, DataFault>
    requires { I.is_open inputs.old }
    ensures whole { IfOk result (λ bytes. ForSome (left_to_read (I.told inputs.old))
        (λ left. bytes.items ≡ left)) }
    ensures within { IfOk result (λ bytes. vec_len bytes ≤ limit) }
    ensures moved { IfOk result (λ bytes.
        I.told inputs.new ≡ at_end (moved_by (vec_len bytes) (I.told inputs.old))) }

    ensures too_long { result ≡ Err DataFault.TooLong
        → ForSome (left_to_read (I.told inputs.old)) (λ left. limit < length left) }
    ensures lost { OnErr result ((k : ℕ) × (I.told inputs.new ≡ moved_by k (I.told inputs.old))) }

    ensures inputs { HasReadFrom I.told I.is_calm I.faults (result ≡ Err DataFault.Failed)
        inputs.old inputs.new }
    ensures is_open { I.is_open inputs.new }
    ensures serves { I.is_calm inputs.old → result ≢ Err DataFault.Failed }
{
    let mut data = Vec::new(alloc);
    let mut piece = [0u8; PIECE];
    while data.len() <= limit {
        let n = inputs.read(&mut piece)?;
        if n == 0 {
            return Ok(data);
        }
        data.extend_from_slice(&piece[..n])?;
    }
    Err(DataFault::TooLong)
}

/// Opens the file `name` and reads all of it, which may be at most `limit` bytes.
///
/// It stops as soon as more than `limit` bytes were read. No other file is opened, and none is opened twice.
pub fn read_file<I: Inputs>(
    alloc: Global,
    inputs: &mut I,
    name: &str,
    limit: usize,
) -> Result<Vec<u8>, DataFault>
    ensures whole { IfOk result (λ bytes.
        OfFile (I.told inputs.old) name.now (λ file. bytes.items ≡ file)) }
    ensures within { IfOk result (λ bytes. vec_len bytes ≤ limit) }
    ensures read { IfOk result (λ bytes. OfFile (I.told inputs.old) name.now
        (λ _. I.told inputs.new
        ≡ at_end (moved_by (vec_len bytes) (opened name.now (I.told inputs.old))))) }
    ensures lost { OnErr result (OfFile (I.told inputs.old) name.now
        (λ _. BreaksOpened name.now (I.told inputs.old) (I.told inputs.new))) }

    ensures too_long { result ≡ Err DataFault.TooLong
        → OfFile (I.told inputs.old) name.now (λ file. limit < length file) }
    ensures inputs { HasReadFrom I.told I.is_calm I.faults (result ≡ Err DataFault.Failed)
        inputs.old inputs.new }
    ensures serves { I.is_calm inputs.old → IsSome ((I.told inputs.old).bytes_under name.now)
        → result ≢ Err DataFault.Failed }
{
    match inputs.open(name) {
        Ok(()) => read_to_end(alloc, inputs, limit),
        Err(_) => Err(DataFault::Failed),
    }
}

/// Law: reads that follow one another move the place by the sum of their bytes, and a read that gives none sees the
/// end.
pub fn reads_join()
    ensures { ReadsJoin }
{}
