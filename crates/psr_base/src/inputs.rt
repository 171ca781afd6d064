// What a search reads from.
ghost use Rattle.std.specs.Prelude.{◌≡◌, ◌≤◌, ◌<◌, ℕ, length, IfOk, OnOk, OnErr, IsOk, IsErr, IsSome};
ghost use Rattle.std.specs.Option.{ForSome};
ghost use Rattle.psr_base.specs.Inputs.{HasReadFrom};
ghost use Rattle.psr_base.specs.Told.{Told, left_to_read, history, opened, read_by, GivesNext};

use crate::faults::Failed;

/// Files that are read by name, one at a time and from the front.
///
/// If the object tells what is in its files, it tells all of it, and no call of these changes it. A call that fails
/// leaves what is told as it was.
pub trait Inputs {
    /// The bytes under each name, the open name, and the place that it was read to, if these are told; and how far each
    /// file was read that was open before.
    ghost told: { Self → Told };

    /// Whether a name is open.
    ghost is_open: { Self → Type 0 };

    /// Whether opening a name whose bytes are told, and reading, can't fail.
    ghost is_calm: { Self → Type 0 };

    /// How many calls have failed. The count stops at the largest u64.
    ghost faults: { Self → ℕ };

    /// Opens the file `name` in place of the one that was open, which is an earlier one from then on, whether or not
    /// the bytes of `name` are told.
    fn open(&mut self, name: &str) -> Result<(), Failed>
        ensures opened { OnOk result (ForSome ((told self.old).bytes_under name.now)
            (λ _. told self.new ≡ opened name.now (told self.old))) }
        ensures earlier { OnOk result ((told self.new).earlier ≡ history (told self.old)) }
        ensures is_open { OnOk result (is_open self.new) }

        ensures unchanged { OnErr result (told self.new ≡ told self.old) }
        ensures still_open { OnErr result (is_open self.old → is_open self.new) }

        ensures inputs { HasReadFrom told is_calm faults (IsErr result) self.old self.new }
        ensures serves { is_calm self.old
            → IsSome ((told self.old).bytes_under name.now) → IsOk result };

    /// Copies the next bytes of the open file to the front of `into`, and returns their number, which is 0 only at the
    /// end of the file. What `into` holds after them is unspecified.
    fn read(&mut self, into: &mut [u8]) -> Result<usize, Failed>
        requires room { 0 < length into.old }
        requires is_open { is_open self.old }
        ensures bound { IfOk result (λ n. n ≤ length into.new) }
        ensures next { IfOk result (λ n. ForSome (left_to_read (told self.old))
            (λ left. GivesNext left n into.new)) }
        ensures moved { IfOk result (λ n. told self.new ≡ read_by n (told self.old)) }
        ensures is_open { is_open self.new }

        ensures unchanged { OnErr result (told self.new ≡ told self.old) }

        ensures inputs { HasReadFrom told is_calm faults (IsErr result) self.old self.new }
        ensures serves { is_calm self.old → IsOk result };
}
