// Masked channels, whose samples are left out.
ghost use Rattle.std.specs.Prelude.{◌≡◌, ℕ, ◌≤◌, List, length};
ghost use Rattle.spectra_rows.specs.Unpacking.{StandsForBytes, StandsForKept};
ghost use Rattle.search_engine.specs.Scope.{kept_by, marks_of};

use spectra_rows::Unpacker;

/// Which channels are masked. Marks are those of the channels in order, from the highest frequency down.
#[derive(Drop)]
pub enum Masked {
    /// No channel is masked.
    Nothing,
    /// The channels whose mark is `true`.
    Marked(Vec<bool>),
}

impl Masked {
    /// Sets the rows of the masked channels to 0 in the complete spectra that an unpacker holds.
    pub fn hide(&self, unpacker: &mut Unpacker)
        requires count { length (marks_of self.now) ≤ unpacker.old.channels }
        requires few { unpacker.old.channels ≤ 4096 }
        ensures same { unpacker.new ≡ record unpacker.old { rows = unpacker.new.rows } }
        ensures kept { (bytes : List ℕ) (gone : ℕ) → StandsForBytes unpacker.old bytes gone
            → StandsForKept (kept_by (marks_of self.now)) unpacker.new bytes gone }
    {
        if let Masked::Marked(marks) = self {
            hide_marked(unpacker, marks.as_slice());
        }
    }
}

// Sets the rows of the marked channels to 0.
fn hide_marked(unpacker: &mut Unpacker, marks: &[bool])
    requires count { length marks.now ≤ unpacker.old.channels }
    requires few { unpacker.old.channels ≤ 4096 }
    ensures same { unpacker.new ≡ record unpacker.old { rows = unpacker.new.rows } }
    ensures kept { (bytes : List ℕ) (gone : ℕ) → StandsForBytes unpacker.old bytes gone
        → StandsForKept (kept_by marks.now) unpacker.new bytes gone }
{
    for channel in 0..marks.len() {
        if marks[channel] {
            unpacker.silence(channel as u32);
        }
    }
}
