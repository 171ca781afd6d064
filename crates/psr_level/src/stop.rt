//! Why a levelling stopped.
ghost use Rattle.std.specs.Prelude.{◌≡◌, ◌≤◌, ◌+◌, ◌++◌, codes, length};
ghost use Rattle.std.specs.Fmt.{decimal};
ghost use Rattle.level_words.specs.Table.{option_text};
ghost use Rattle.psr_level.specs.Notes.{mask_note as mask_note_of};

use crate::refusal::LevelRefusal;
use channel_mask::MaskFault;
use dada_model::Key;
use disk_feeder::HeaderCause;
use drive_stream::StreamStop;
use level_words::{LevelFault, Opt};
use obs_plan::ObsFault;
use run_outcome::Stop;
use text_line::Line;

/// Why a levelling ended without all that it was asked for: as any run, or for a reason of its own.
#[derive(Clone, Copy, Debug, PartialEq, Eq)]
pub enum LevelStop {
    Run(Stop),
    /// The value of an option is out of its range.
    Value(Opt),
    /// The mask is none of the observation.
    Mask(MaskFault),
    /// The header has no room for what levelling changes: the length of its text, and its size.
    NoRoom { need: usize, size: usize },
}

// Appends a name and a number.
fn push_named(line: &mut Line, name: &str, number: u64)
    requires room { length line.old ≤ 100 }
    requires short { length name.now ≤ 45 }
    ensures text { line.new ≡ line.old ++ (name.now ++ decimal number) }
    ensures bound { length line.new ≤ length line.old + 65 }
{
    line.push_str(name);
    line.push_number(number);
}

// The line of two numbers.
fn pair_line(name: &str, first: u64, second: u64) -> Line
    requires { length name.now ≤ 45 }
    ensures { result ≡ name.now ++ decimal first ++ codes " " ++ decimal second ++ codes "\n" }
{
    let mut line = Line::new();
    push_named(&mut line, name, first);
    push_named(&mut line, " ", second);
    line.push_str("\n");
    line
}

// The line of words alone.
fn plain_line(text: &str) -> Line
    requires { length text.now ≤ 64 }
    ensures { result ≡ text.now }
{
    let mut line = Line::new();
    line.push_str(text);
    line
}

// The line of a mask that is refused.
fn mask_line(fault: MaskFault) -> Line
    ensures { result ≡ mask_note_of fault }
{
    match fault {
        MaskFault::BadMask { place } => {
            let mut line = Line::new();
            push_named(&mut line, "mask refused: BadMask ", place as u64);
            line.push_str("\n");
            line
        }
        MaskFault::OutOfRange { channel, channels } => pair_line(
            "mask refused: OutOfRange ",
            u64::from(channel),
            u64::from(channels),
        ),
        MaskFault::AllMasked => plain_line("mask refused: AllMasked\n"),
        MaskFault::Memory => plain_line("no memory\n"),
    }
}

// The line of an option that is refused.
fn value_line(opt: Opt) -> Line
    ensures { result ≡ codes "option " ++ option_text opt ++ codes " refused\n" }
{
    let mut line = Line::new();
    line.push_str("option ");
    if opt != Opt::File {
        line.push_str("--");
    }
    line.push_str(opt.name());
    line.push_str(" refused\n");
    line
}

impl LevelStop {
    ghost use Rattle.psr_level.specs.Notes.{level_status, level_note, stop_of_stream, stop_of_words};

    /// The exit status.
    pub fn status(self) -> u8
        ensures { result ≡ level_status self }
    {
        match self {
            LevelStop::Run(stop) => stop.status(),
            LevelStop::Value(_) => 2,
            LevelStop::Mask(_) => 12,
            LevelStop::NoRoom { .. } => 3,
        }
    }

    /// The line that tells the user.
    pub fn note(self) -> Line
        ensures { result ≡ level_note self }
    {
        match self {
            LevelStop::Run(stop) => stop.note(),
            LevelStop::Value(opt) => value_line(opt),
            LevelStop::Mask(fault) => mask_line(fault),
            LevelStop::NoRoom { need, size } => pair_line(
                "header of file 0 refused: Overfull ",
                need as u64,
                size as u64,
            ),
        }
    }

    /// The stop of the stream.
    pub(crate) fn of_stream(stop: StreamStop<LevelRefusal>) -> LevelStop
        ensures { result ≡ stop_of_stream stop }
    {
        match stop {
            StreamStop::Run(stop) => LevelStop::Run(stop),
            StreamStop::Refused(LevelRefusal::LongTime) => LevelStop::Run(Stop::Header {
                file: 0,
                cause: HeaderCause::Fields(ObsFault::OutOfRange(Key::Tsamp)),
            }),
            StreamStop::Refused(LevelRefusal::BadMask(fault)) => LevelStop::Mask(fault),
            StreamStop::Refused(LevelRefusal::NoRoom { need, size }) => {
                LevelStop::NoRoom { need, size }
            }
        }
    }

    /// The stop of words that say no settings.
    pub(crate) fn of_words(fault: LevelFault) -> LevelStop
        ensures { result ≡ stop_of_words fault }
    {
        match fault {
            LevelFault::Refused => LevelStop::Run(Stop::Words),
            LevelFault::OutOfRange(opt) => LevelStop::Value(opt),
            LevelFault::Memory => LevelStop::Run(Stop::Memory),
        }
    }
}
