// The causes of refusals, and how a user reads them.
ghost use Rattle.std.specs.Prelude.{◌≡◌, ◌≤◌, ◌+◌, ◌++◌, length};
ghost use Rattle.run_outcome.specs.Texts.{cause_text, header_fault_text, fields_text};

use crate::line::{push_named_key, push_named_number, push_named_word};
use dada_header::HeaderFault;
use disk_feeder::HeaderCause;
use obs_plan::ObsFault;
use text_line::Line;

// Appends why bytes are no header.
fn push_text_fault(line: &mut Line, fault: HeaderFault)
    requires { length line.old ≤ 64 }
    ensures text { line.new ≡ line.old ++ header_fault_text fault }
    ensures bound { length line.new ≤ length line.old + 80 }
{
    match fault {
        HeaderFault::Short { had } => push_named_number(line, "Short ", had as u64),
        HeaderFault::NotText { place } => push_named_number(line, "NotText ", place as u64),
        HeaderFault::BadSize => line.push_str("BadSize"),
        HeaderFault::Memory => line.push_str("Memory"),
    }
}

// Appends why the fields of a header are refused.
fn push_field_fault(line: &mut Line, fault: ObsFault)
    requires { length line.old ≤ 64 }
    ensures text { line.new ≡ line.old ++ fields_text fault }
    ensures bound { length line.new ≤ length line.old + 80 }
{
    match fault {
        ObsFault::Missing(key) => push_named_key(line, "Missing ", key),
        ObsFault::BadNumber(key) => push_named_key(line, "BadNumber ", key),
        ObsFault::OutOfProfile(key) => push_named_key(line, "OutOfProfile ", key),
        ObsFault::OutOfRange(key) => push_named_key(line, "OutOfRange ", key),
        ObsFault::TooNarrow { bw, nchan } => {
            push_named_number(line, "TooNarrow ", bw);
            push_named_number(line, " ", u64::from(nchan));
        }
        ObsFault::Differs(key) => push_named_key(line, "Differs ", key),
        ObsFault::Memory => line.push_str("Memory"),
    }
}

/// Appends why a header is refused.
pub(crate) fn push_header_cause(line: &mut Line, cause: HeaderCause)
    requires { length line.old ≤ 64 }
    ensures text { line.new ≡ line.old ++ cause_text cause }
    ensures bound { length line.new ≤ length line.old + 80 }
{
    match cause {
        HeaderCause::Text(fault) => push_text_fault(line, fault),
        HeaderCause::Fields(fault) => push_field_fault(line, fault),
    }
}

/// Why the search of an observation is refused before it begins.
#[derive(Clone, Copy, Debug, PartialEq, Eq)]
pub enum PlanCause {
    /// A sum may pass 32 bits: the largest sample, the largest number of cells of a path sum, and how many path sums
    /// are added.
    SumBound {
        max_sample: u32,
        cells: u32,
        factor: u32,
    },
    /// A fold has too many values: the longest period, and the largest number of halvings of its rows.
    FoldTooLarge {
        longest: u32,
        halvings: u32,
    },
    /// Too many delays are folded.
    TooManyFolds {
        count: u32,
    },
    /// There are more shards than delays.
    TooManyShards {
        shards: u32,
        delays: u32,
    },
}

impl PlanCause {
    ghost use Rattle.run_outcome.specs.Texts.{plan_text};

    /// Appends the cause.
    pub(crate) fn push_to(self, line: &mut Line)
        requires { length line.old ≤ 64 }
        ensures text { line.new ≡ line.old ++ plan_text self }
        ensures bound { length line.new ≤ length line.old + 120 }
    {
        match self {
            PlanCause::SumBound {
                max_sample,
                cells,
                factor,
            } => {
                push_named_word(line, "SumBound ", max_sample);
                push_named_word(line, " ", cells);
                push_named_word(line, " ", factor);
            }
            PlanCause::FoldTooLarge { longest, halvings } => {
                push_named_word(line, "FoldTooLarge ", longest);
                push_named_word(line, " ", halvings);
            }
            PlanCause::TooManyFolds { count } => {
                push_named_word(line, "TooManyFolds ", count);
            }
            PlanCause::TooManyShards { shards, delays } => {
                push_named_word(line, "TooManyShards ", shards);
                push_named_word(line, " ", delays);
            }
        }
    }
}

/// Why the recording of a transfer is refused before it begins.
#[derive(Clone, Copy, Debug, PartialEq, Eq)]
pub enum RecordingCause {
    /// The header has no UTC_START.
    NoUtc,
    /// UTC_START is not of the form yyyy-mm-dd-hh:mm:ss.
    BadUtc,
    /// A change makes the header's text `need` bytes long, in a header of `size` bytes.
    Overfull { need: usize, size: usize },
    /// There may be more files than numbers of six digits.
    TooManyFiles,
}

impl RecordingCause {
    ghost use Rattle.run_outcome.specs.Texts.{recording_text};

    /// Appends the cause.
    pub(crate) fn push_to(self, line: &mut Line)
        requires { length line.old ≤ 64 }
        ensures text { line.new ≡ line.old ++ recording_text self }
        ensures bound { length line.new ≤ length line.old + 120 }
    {
        match self {
            RecordingCause::NoUtc => line.push_str("NoUtc"),
            RecordingCause::BadUtc => line.push_str("BadUtc"),
            RecordingCause::Overfull { need, size } => {
                push_named_number(line, "Overfull ", need as u64);
                push_named_number(line, " ", size as u64);
            }
            RecordingCause::TooManyFiles => line.push_str("TooManyFiles"),
        }
    }
}
