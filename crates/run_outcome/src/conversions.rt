// The stops of faults.
ghost use Rattle.std.specs.Prelude.{◌≡◌, ◌≢◌, ℕ, Some, None, IfSome};

use crate::causes::{PlanCause, RecordingCause};
use crate::stop::Stop;
use dada_header::HeaderFault;
use dada_recorder::{RecordEnd, RecordFault};
use disk_feeder::{FeedEnd, FeedFault, HeaderCause};
use obs_plan::ObsFault;
use search_engine::PlanFault;
use search_words::WordFault;

impl Stop {
    ghost use Rattle.stream_model.specs.Recorded.{RecordRefusal};
    ghost use Rattle.stream_model.specs.Walk.{WalkStop};
    ghost use Rattle.disk_feeder.specs.Ends.{end_of};
    ghost use Rattle.dada_recorder.specs.Changes.{IsRefusal};
    ghost use Rattle.run_outcome.specs.Conversions.{stop_of_words, stop_of_header, stop_of_fields, stop_of_begin, stop_of_plan, IsRecordingStop, stop_of_feed, stop_of_recorder};
    ghost use Rattle.run_outcome.specs.Runs.{stop_of_walk};

    /// The stop of arguments that give no settings.
    pub fn of_words(fault: WordFault) -> Stop
        ensures { result ≡ stop_of_words fault }
    {
        match fault {
            WordFault::Refused => Stop::Words,
            WordFault::OutOfRange(opt) => Stop::Value(opt),
            WordFault::Memory => Stop::Memory,
        }
    }

    /// The stop of a file, by its number, whose first bytes are no header.
    pub fn of_header(file: u32, fault: HeaderFault) -> Stop
        ensures { result ≡ stop_of_header file fault }
    {
        match fault {
            HeaderFault::Memory => Stop::Memory,
            fault => Stop::Header {
                file,
                cause: HeaderCause::Text(fault),
            },
        }
    }

    /// The stop of a file, by its number, whose header has no observation.
    pub fn of_observation(file: u32, fault: ObsFault) -> Stop
        ensures { result ≡ stop_of_fields file fault }
    {
        match fault {
            ObsFault::Memory => Stop::Memory,
            fault => Stop::Header {
                file,
                cause: HeaderCause::Fields(fault),
            },
        }
    }

    /// The stop if first headers could not be read.
    pub fn of_begin(fault: FeedFault) -> Stop
        ensures { result ≡ stop_of_begin fault }
    {
        match fault {
            FeedFault::ReadFault => Stop::ReadFault,
            FeedFault::BadHeader { file, cause } => Stop::of_header(file, cause),
        }
    }

    /// The stop of a search that is refused.
    pub fn of_plan(fault: PlanFault) -> Stop
        ensures { result ≡ stop_of_plan fault }
    {
        match fault {
            PlanFault::SumBound {
                max_sample,
                cells,
                factor,
            } => Stop::Plan(PlanCause::SumBound {
                max_sample,
                cells,
                factor,
            }),
            PlanFault::FoldTooLarge { pmax, mmax } => Stop::Plan(PlanCause::FoldTooLarge {
                longest: pmax,
                halvings: mmax,
            }),
            PlanFault::TooManyFolds { count } => Stop::Plan(PlanCause::TooManyFolds { count }),
            PlanFault::TooManyShards { count, delays } => Stop::Plan(PlanCause::TooManyShards {
                shards: count,
                delays,
            }),
            PlanFault::Memory => Stop::Memory,
        }
    }

    /// The stop of a recording that is refused, for a header that was read.
    pub fn of_recording(fault: RecordFault) -> Stop
        requires { (refusal : RecordRefusal) × IsRefusal fault refusal }
        ensures { IsRecordingStop fault result }
    {
        match fault {
            RecordFault::NotHeader(_) => unreachable!(),
            RecordFault::NoUtc => Stop::Recording(RecordingCause::NoUtc),
            RecordFault::BadUtc => Stop::Recording(RecordingCause::BadUtc),
            RecordFault::Overfull { need, size } => {
                Stop::Recording(RecordingCause::Overfull { need, size })
            }
            RecordFault::TooManyFiles => Stop::Recording(RecordingCause::TooManyFiles),
        }
    }

    /// The stop of a stream of files that was given up, or none if all data were sealed.
    pub fn of_feed(end: FeedEnd) -> Option<Stop>
        ensures is { result ≡ stop_of_feed end }
        ensures walked { (bytes limit : ℕ) (stop : WalkStop) → end ≡ end_of bytes limit stop
            → result ≡ stop_of_walk limit stop }
        ensures read_fault { result ≡ Some Stop.ReadFault → end ≡ FeedEnd.ReadFault }
        ensures no_memory { result ≢ Some Stop.Memory }
    {
        match end {
            FeedEnd::Whole { .. } => None,
            FeedEnd::ReadFault => Some(Stop::ReadFault),
            FeedEnd::BadHeader { file, cause } => Some(Stop::Header { file, cause }),
            FeedEnd::Gap {
                file,
                expected,
                found,
            } => Some(Stop::Gap {
                file,
                expected,
                found,
            }),
            FeedEnd::TooLong { limit } => Some(Stop::TooLong { limit }),
        }
    }

    /// The stop of a recorder whose files failed at a call, or none.
    pub fn of_recorder(recorded: Option<RecordEnd>) -> Option<Stop>
        ensures is { result ≡ stop_of_recorder recorded }
        ensures none { result ≡ None → recorded ≢ Some RecordEnd.FileFault }
        ensures failed { IfSome result (λ stop. (stop ≡ Stop.FileFault)
            × (recorded ≡ Some RecordEnd.FileFault)) }
    {
        match recorded {
            Some(RecordEnd::FileFault) => Some(Stop::FileFault),
            _ => None,
        }
    }
}
