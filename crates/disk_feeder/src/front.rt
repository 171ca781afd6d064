//! The header at the front of a file, read by exact pieces.
ghost use Rattle.std.specs.Prelude.{◌≡◌, ◌+◌, ◌-◌, ◌≤◌, length, take, Some, Ok, Err, MatchResult, IfOk, IfErr, OnOk, OnErr, IsOk, IsErr};
ghost use Rattle.std.specs.Option.{ForSome};
ghost use Rattle.psr_base.specs.Inputs.{HasReadFrom};
ghost use Rattle.psr_base.specs.Told.{OfFile, left_to_read, history, opened, moved_by, filled_by, BreaksWithin};
ghost use Rattle.dada_model.specs.Fields.{HeaderText, header_of};
ghost use Rattle.disk_feeder.specs.Front.{HasReadPart, IsFrontRead, IsFailure, StopsHeader, judged_after, ReadsHeader, BreaksHeader, FailsUntold};
ghost use Rattle.stream_model.specs.Walk.{data_of};

use dada_header::{Header, HeaderFault};
use psr_base::{Failed, Inputs, fill};
// A law: it does nothing when it runs, and the proofs use what it ensures.
use psr_base::reads_join;

/// The smallest size of a header, in bytes. This many are read before its size is known.
const LEAST: usize = 4096;

/// Why no header was read.
#[derive(Clone, Copy)]
pub(crate) enum HeaderStop {
    /// The inputs failed.
    Failed,
    /// The file begins with no header.
    Refused(HeaderFault),
}

// Reads the next bytes into the space between two places, or all that are left, and answers how many they are.
fn fill_part<I: Inputs>(
    inputs: &mut I,
    space: &mut [u8],
    from: usize,
    to: usize,
) -> Result<usize, Failed>
    requires is_open { I.is_open inputs.old }
    requires ordered { from ≤ to }
    requires within { to ≤ length space.old }
    ensures bound { IfOk result (λ n. from + n ≤ to) }
    ensures read { IfOk result (λ n. ForSome (left_to_read (I.told inputs.old))
        (HasReadPart from to n space.old space.new (left_to_read (I.told inputs.new)))) }
    ensures told { MatchResult result
        (λ n. I.told inputs.new ≡ filled_by n (to - from) (I.told inputs.old))
        (λ _. BreaksWithin (to - from) (I.told inputs.old) (I.told inputs.new)) }
    ensures inputs { HasReadFrom I.told I.is_calm I.faults (IsErr result) inputs.old inputs.new }
    ensures is_open { I.is_open inputs.new }
    ensures serves { I.is_calm inputs.old → IsOk result }
{
    fill(inputs, &mut space[from..to])
}

// Reads the header's bytes of the file that was opened, or all of a shorter one, and answers how many they are.
fn read_front<I: Inputs>(inputs: &mut I, space: &mut [u8]) -> Result<usize, Failed>
    requires is_open { I.is_open inputs.old }
    requires room { 65536 ≤ length space.old }
    ensures bound { IfOk result (λ n. n ≤ length space.new) }
    ensures front { IfOk result (λ n. ForSome (left_to_read (I.told inputs.old))
        (IsFrontRead (take n space.new) (left_to_read (I.told inputs.new)))) }
    ensures whole { OnOk result (ForSome (left_to_read (I.told inputs.old)) (λ file.
        (h : HeaderText) → header_of file ≡ Ok h
        → I.told inputs.new ≡ moved_by h.size (I.told inputs.old))) }
    ensures broke { OnErr result (ForSome (left_to_read (I.told inputs.old)) (λ file.
        BreaksWithin (judged_after file) (I.told inputs.old) (I.told inputs.new))) }
    ensures earlier { (I.told inputs.new).earlier ≡ (I.told inputs.old).earlier }
    ensures inputs { HasReadFrom I.told I.is_calm I.faults (IsErr result) inputs.old inputs.new }
    ensures is_open { I.is_open inputs.new }
    ensures serves { I.is_calm inputs.old → IsOk result }
{
    reads_join();
    let first = match fill_part(inputs, space, 0, LEAST) {
        Ok(first) => first,
        Err(failed) => return Err(failed),
    };
    match Header::size_of(&space[..first]) {
        Ok(size) => match fill_part(inputs, space, first, first + (size - LEAST)) {
            Ok(rest) => Ok(first + rest),
            Err(failed) => Err(failed),
        },
        Err(_) => Ok(first),
    }
}

// Opens the file of a name and reads its header's bytes, or all of a shorter one, and answers how many they are.
fn open_front<I: Inputs>(inputs: &mut I, name: &str, space: &mut [u8]) -> Result<usize, Failed>
    requires { 65536 ≤ length space.old }
    ensures bound { IfOk result (λ n. n ≤ length space.new) }
    ensures front { IfOk result (λ n. OfFile (I.told inputs.old) name.now
        (IsFrontRead (take n space.new) (left_to_read (I.told inputs.new)))) }
    ensures whole { OnOk result (OfFile (I.told inputs.old) name.now (λ file.
        (h : HeaderText) → header_of file ≡ Ok h
        → I.told inputs.new ≡ moved_by h.size (opened name.now (I.told inputs.old)))) }
    ensures earlier { OnOk result ((I.told inputs.new).earlier ≡ history (I.told inputs.old)) }
    ensures broke { OnErr result
        (BreaksHeader name.now (I.told inputs.old) (I.told inputs.new)) }
    ensures inputs { HasReadFrom I.told I.is_calm I.faults (IsErr result) inputs.old inputs.new }
    ensures is_open { OnOk result (I.is_open inputs.new) }
    ensures serves { I.is_calm inputs.old
        → OnErr result (FailsUntold name.now (I.told inputs.old) (I.told inputs.new)) }
{
    match inputs.open(name) {
        Ok(()) => read_front(inputs, space),
        Err(failed) => Err(failed),
    }
}

/// Opens the file of a name and reads its header, through a space of at least 65536 bytes. What is left to read are the
/// data.
pub(crate) fn read_header<I: Inputs>(
    inputs: &mut I,
    name: &str,
    space: &mut [u8],
    header: &mut Header,
) -> Result<(), HeaderStop>
    requires room { 65536 ≤ length space.old }
    ensures header { OnOk result (OfFile (I.told inputs.old) name.now
        (λ file. header_of file ≡ Ok header.new)) }
    ensures left { OnOk result (OfFile (I.told inputs.old) name.now
        (λ file. left_to_read (I.told inputs.new) ≡ Some (data_of file))) }
    ensures read { OnOk result
        (ReadsHeader name.now (I.told inputs.old) (I.told inputs.new)) }
    ensures broke { IfErr result (λ stop. IsFailure stop
        → BreaksHeader name.now (I.told inputs.old) (I.told inputs.new)) }
    ensures stopped { IfErr result (λ stop. OfFile (I.told inputs.old) name.now
        (λ file. StopsHeader file stop)) }
    ensures inputs { HasReadFrom I.told I.is_calm I.faults (result ≡ Err HeaderStop.Failed)
        inputs.old inputs.new }
    ensures is_open { OnOk result (I.is_open inputs.new) }
    ensures serves { I.is_calm inputs.old → IfErr result (λ stop. IsFailure stop
        → FailsUntold name.now (I.told inputs.old) (I.told inputs.new)) }
{
    match open_front(inputs, name, space) {
        Ok(n) => match header.read_again(&space[..n]) {
            Ok(()) => Ok(()),
            Err(fault) => Err(HeaderStop::Refused(fault)),
        },
        Err(_) => Err(HeaderStop::Failed),
    }
}
