// Why a text is no mask of an observation.
ghost use Rattle.std.specs.Prelude.{◌≡◌, ◌≤◌, ◌+◌, ◌++◌, codes, length};
ghost use Rattle.std.specs.Fmt.{decimal};

use text_line::Line;

/// Why a text is no mask of an observation.
#[derive(Clone, Copy, Debug, PartialEq, Eq)]
pub enum MaskRefusal {
    /// It is no mask text. `place` is that of the first byte with which it stops being the front of one, or its length
    /// if it is a front.
    BadMask { place: usize },
    /// `channel` is the first number in it that is no channel of the observation, which has `channels` of them.
    OutOfRange { channel: u32, channels: u32 },
    /// No channel would be left.
    AllMasked,
}

// Appends a name and a number.
fn push_named(line: &mut Line, name: &str, number: u64)
    requires room { length line.old ≤ 100 }
    requires short { length name.now ≤ 30 }
    ensures text { line.new ≡ line.old ++ (name.now ++ decimal number) }
    ensures bound { length line.new ≤ length line.old + 50 }
{
    line.push_str(name);
    line.push_number(number);
}

// The line of a number that is no channel.
fn range_line(channel: u32, channels: u32) -> Line
    ensures { result ≡ codes "mask refused: OutOfRange " ++ decimal channel ++ codes " "
        ++ decimal channels ++ codes "\n" }
{
    let mut line = Line::new();
    push_named(&mut line, "mask refused: OutOfRange ", u64::from(channel));
    push_named(&mut line, " ", u64::from(channels));
    line.push_str("\n");
    line
}

impl MaskRefusal {
    ghost use Rattle.psr_mask.specs.Notes.{mask_note};

    /// The line on standard error.
    pub fn note(self) -> Line
        ensures { result ≡ mask_note self }
    {
        let mut line = Line::new();
        match self {
            MaskRefusal::BadMask { place } => {
                push_named(&mut line, "mask refused: BadMask ", place as u64);
                line.push_str("\n");
            }
            MaskRefusal::OutOfRange { channel, channels } => return range_line(channel, channels),
            MaskRefusal::AllMasked => line.push_str("mask refused: AllMasked\n"),
        }
        line
    }
}
