// Why a search stopped.
ghost use Rattle.std.specs.Prelude.{◌≡◌};
ghost use Rattle.psr_live.specs.Texts.{part_stop, stop_of_stream as stop_of};

use crate::task::LiveRefusal;
use drive_stream::StreamStop;
use psr_part::{CheckpointRefusal, PartStop};
use run_outcome::Stop;

// The stop of a stream that came to one.
fn stop_in(stop: StreamStop<LiveRefusal>) -> PartStop
    ensures { result ≡ part_stop stop }
{
    match stop {
        StreamStop::Run(stop) => PartStop::Run(stop),
        StreamStop::Refused(refusal) => match refusal {
            LiveRefusal::Plan(cause) => PartStop::Run(Stop::Plan(cause)),
            LiveRefusal::Beyond { place, spectra } => {
                PartStop::Refused(CheckpointRefusal::Beyond { place, spectra })
            }
        },
    }
}

/// The stop of a stream, if it came to one.
pub(crate) fn stop_of_stream(stop: Option<StreamStop<LiveRefusal>>) -> Option<PartStop>
    ensures { result ≡ stop_of stop }
{
    match stop {
        Some(stop) => Some(stop_in(stop)),
        None => None,
    }
}
