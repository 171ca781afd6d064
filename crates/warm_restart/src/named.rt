// Reads the checkpoint that an argument names.
ghost use Rattle.std.specs.Prelude.{◌≡◌, ◌≢◌, ℕ, ◌≤◌, ◌<◌, length, take, Err, IfOk, OnOk, IsErr, IsOk, IsSome};
ghost use Rattle.std.specs.Option.{ForSome};
ghost use Rattle.psr_base.specs.Inputs.{HasReadFrom};
ghost use Rattle.psr_base.specs.Told.{OfFile, BreaksOff};
ghost use Rattle.warm_restart.specs.Checkpoint.{IsJudged, CanBeSaid};
ghost use Rattle.warm_restart.specs.Named.{new_word, most_read, named_text, ReadsFront};

use crate::checkpoint::{Checkpoint, CheckpointFault};
use psr_base::{Failed, Inputs, fill};
// Laws: they do nothing when they run, and the proofs use what they ensure.
use crate::laws::{lines_are_read_back, texts_say_one};

/// The maximum number of bytes that are read of a named file.
const MOST_READ: usize = 65;

// Opens the named file and fills `space` with its first bytes. Answers how many these are, which are fewer if the file
// is shorter.
fn read_first<I: Inputs>(inputs: &mut I, name: &str, space: &mut [u8]) -> Result<usize, Failed>
    ensures bound { IfOk result (λ n. n ≤ length space.new) }
    ensures first { IfOk result (λ n. OfFile (I.told inputs.old) name.now
        (λ file. take n space.new ≡ take (length space.new) file)) }
    ensures read { OnOk result (OfFile (I.told inputs.old) name.now (λ file.
        ReadsFront (length space.new) name.now file (I.told inputs.old) (I.told inputs.new))) }
    ensures broke { IsErr result → OfFile (I.told inputs.old) name.now
        (λ _. BreaksOff (length space.new) name.now (I.told inputs.old) (I.told inputs.new)) }
    ensures inputs { HasReadFrom I.told I.is_calm I.faults (IsErr result) inputs.old inputs.new }
    ensures serves { I.is_calm inputs.old → IsSome ((I.told inputs.old).bytes_under name.now)
        → IsOk result }
{
    match inputs.open(name) {
        Ok(()) => fill(inputs, space),
        Err(failed) => Err(failed),
    }
}

/// Reads the checkpoint that an argument names, for a part that stops before spectrum `until`. `new` is the checkpoint
/// at the first spectrum; any other argument is the name of a file, of which at most 65 bytes are read. No other file
/// is touched.
pub fn read_checkpoint<I: Inputs>(
    inputs: &mut I,
    word: &str,
    until: u64,
) -> Result<Checkpoint, CheckpointFault>
    ensures judged { result ≢ Err CheckpointFault.Failed
        → ForSome (named_text (I.told inputs.old) word.now) (λ text. IsJudged text until result) }
    ensures within { IfOk result (λ checkpoint.
        CanBeSaid checkpoint × (checkpoint.place < until)) }
    ensures late { (place limit : ℕ) → result ≡ Err (CheckpointFault.Place place limit)
        → (until ≡ limit) × (until ≤ place) }
    ensures new { word.now ≡ new_word
        → (inputs.new ≡ inputs.old) × (result ≢ Err CheckpointFault.Failed) }
    ensures read { word.now ≢ new_word → result ≢ Err CheckpointFault.Failed
        → OfFile (I.told inputs.old) word.now (λ file.
        ReadsFront most_read word.now file (I.told inputs.old) (I.told inputs.new)) }
    ensures broke { result ≡ Err CheckpointFault.Failed → OfFile (I.told inputs.old) word.now
        (λ _. BreaksOff most_read word.now (I.told inputs.old) (I.told inputs.new)) }
    ensures inputs { HasReadFrom I.told I.is_calm I.faults
        (result ≡ Err CheckpointFault.Failed) inputs.old inputs.new }
    ensures serves { I.is_calm inputs.old → IsSome (named_text (I.told inputs.old) word.now)
        → result ≢ Err CheckpointFault.Failed }
{
    texts_say_one();
    lines_are_read_back();
    if word == "new" {
        return Checkpoint::first().before(until);
    }
    let mut space = [0; MOST_READ];
    match read_first(inputs, word, &mut space) {
        Ok(n) => Checkpoint::judge(&space[..n], until),
        Err(_) => Err(CheckpointFault::Failed),
    }
}
