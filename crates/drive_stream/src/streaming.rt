//! What a program makes of the data that go through it.
ghost use Rattle.std.specs.Prelude.{◌≡◌, ◌<◌, ◌≤◌, ℕ, List, length, take, IfOk, IfErr, OnOk, OnErr};
ghost use Rattle.dada_model.specs.Fields.{HeaderText};
ghost use Rattle.dada_model.specs.Observation.{Observation as Described};
ghost use Rattle.psr_base.specs.Written.{SinkSeen};
ghost use Rattle.drive_stream.specs.Endings.{Ending, ExplainsOpen, Early, All, Failed as FailedSink, Midway, AtStop, ending_of};
ghost use Rattle.drive_stream.specs.Streams.{IsStreaming, IsAtHead, Begins, BreaksHead, StreamsOn, LeavesAt, EndsAs};

use crate::faults::{FinishFault, OpenFault};
use dada_header::Header;
use obs_plan::Observation;
use psr_base::{Failed, Sink};
use std::alloc::Global;

/// A program that takes the data of one transfer as they come, and writes to the output.
pub trait Streaming {
    /// What it keeps from one call to the next.
    type Stream: Drop;

    /// Why it refuses an observation, or data at their end.
    type Refusal: Copy;

    /// Its own settings lie in their ranges.
    ghost holds: { Self → Type 0 };

    /// How many bytes it lets a block have of the data of an observation.
    ghost block: { Self → Described → ℕ };

    /// It takes an observation with this header.
    ghost takes: { Self → Described → HeaderText → Type 0 };

    /// This is why it takes none.
    ghost refuses: { Self → Described → HeaderText → Self.Refusal → Type 0 };

    /// A stream that was opened for an observation with this header.
    ghost opens: { Self → Described → HeaderText → Self.Stream → Type 0 };

    /// A stream that took these data bytes, with the output before the first call and now.
    ghost streams: { Self → Described → HeaderText → List ℕ → Self.Stream → SinkSeen → SinkSeen
        → Type 0 };

    /// What a stream leaves of the data bytes that were handed to it, by its ending.
    ghost leaves: { Self → Described → HeaderText → List ℕ → Ending Self.Refusal → SinkSeen
        → SinkSeen → Type 0 };

    /// A law: an observation that is taken is not refused.
    fn taken_is_not_refused(&self)
        ensures { (o : Described) (header : HeaderText) (refusal : Self.Refusal)
            → takes self.now o header → refuses self.now o header refusal → ⊥ };

    /// How many bytes a block of the data has at most.
    fn block_size(&self, observation: &Observation) -> u32
        ensures least { 1 ≤ result }
        ensures size { result ≡ block self.now observation.now };

    /// Takes all memory for an observation, whose first header is accepted.
    fn open(
        &self,
        alloc: Global,
        observation: &Observation,
        header: &Header,
    ) -> Result<Self::Stream, OpenFault<Self::Refusal>>
        requires { holds self.now }
        ensures takes { OnOk result (takes self.now observation.now header.now) }
        ensures opened { IfOk result (opens self.now observation.now header.now) }
        ensures refused { IfErr result (ExplainsOpen
            (refuses self.now observation.now header.now)) };

    /// Writes what comes before the data.
    fn begin<K: Sink>(
        &self,
        stream: &mut Self::Stream,
        observation: &Observation,
        out: &mut K,
    ) -> Result<(), Failed>
        requires { IsAtHead (opens self.now observation.now) stream.old }
        ensures began { OnOk result (Begins (opens self.now observation.now)
            (streams self.now observation.now) stream.old stream.new (K.seen out.old)
            (K.seen out.new)) }
        ensures broke { OnErr result (BreaksHead (opens self.now observation.now)
            (leaves self.now observation.now) stream.old (K.seen out.old) (K.seen out.new)) };

    /// Takes the front of data bytes, which come behind those that it took, and answers how many it took: at least one,
    /// if there is one. It writes what comes of them.
    fn feed<K: Sink>(
        &self,
        stream: &mut Self::Stream,
        observation: &Observation,
        bytes: &[u8],
        out: &mut K,
    ) -> Result<usize, Failed>
        requires { IsStreaming (streams self.now observation.now) (length bytes.now) stream.old
            (K.seen out.old) }
        ensures within { IfOk result (λ n. n ≤ length bytes.now) }
        ensures some { IfOk result (λ n. 0 < length bytes.now → 0 < n) }
        ensures took { IfOk result (λ n. StreamsOn (streams self.now observation.now) stream.old
            (take n bytes.now) stream.new (K.seen out.old) (K.seen out.new)) }
        ensures broke { OnErr result (LeavesAt (streams self.now observation.now)
            (leaves self.now observation.now) stream.old bytes.now (FailedSink Midway)
            (K.seen out.old) (K.seen out.new)) };

    /// Writes what comes last, once all data were taken.
    fn finish<K: Sink>(
        &self,
        stream: &mut Self::Stream,
        observation: &Observation,
        out: &mut K,
    ) -> Result<(), FinishFault<Self::Refusal>>
        requires { IsStreaming (streams self.now observation.now) 0 stream.old (K.seen out.old) }
        ensures finished { OnOk result (EndsAs (streams self.now observation.now)
            (leaves self.now observation.now) stream.old All (K.seen out.old) (K.seen out.new)) }
        ensures broke { IfErr result (λ fault. EndsAs (streams self.now observation.now)
            (leaves self.now observation.now) stream.old (ending_of fault) (K.seen out.old)
            (K.seen out.new)) };

    /// Writes what comes last where the data stopped early.
    fn stop<K: Sink>(
        &self,
        stream: &mut Self::Stream,
        observation: &Observation,
        out: &mut K,
    ) -> Result<(), Failed>
        requires { IsStreaming (streams self.now observation.now) 0 stream.old (K.seen out.old) }
        ensures stopped { OnOk result (EndsAs (streams self.now observation.now)
            (leaves self.now observation.now) stream.old Early (K.seen out.old) (K.seen out.new)) }
        ensures broke { OnErr result (EndsAs (streams self.now observation.now)
            (leaves self.now observation.now) stream.old (FailedSink AtStop)
            (K.seen out.old) (K.seen out.new)) };
}
